//! Laws of plans and of their definitions, each carried by a function that does nothing.
ghost use Rattle.tl_plan.specs.PlanLaws.{EachIsFormed, EntriesAreDeclared, InstancesHaveMembers, ItemsHaveInstances, OneAnswer, RootsHaveInstances, SameTypes};

/// The plan of some roots is one of their schema, and root k is instance k.
pub fn roots_have_instances()
    ensures { RootsHaveInstances }
{}

/// The element of each vector of a plan has its instance.
pub fn items_have_instances()
    ensures { ItemsHaveInstances }
{}

/// The members of each instance are exactly the constructors of its type, or the functions, in order, and each of their fields has its instance.
pub fn instances_have_members()
    ensures { InstancesHaveMembers }
{}

/// The declarations of a boxed type are its constructors, and those of a call the functions, in order.
pub fn entries_are_declared()
    ensures { EntriesAreDeclared }
{}

/// Each instance is a flag, or one of a type with values.
pub fn instances_are_formed()
    ensures { EachIsFormed }
{}

/// Some roots have one answer, out of memory aside.
pub fn one_answer()
    ensures { OneAnswer }
{}

/// Two types are one exactly where `is_same` says so.
pub fn same_types()
    ensures { SameTypes }
{}
