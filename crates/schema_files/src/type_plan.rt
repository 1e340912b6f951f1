//! Plans of types.
ghost use Rattle.tl_schema.specs.Formed.{IsFormed};
ghost use Rattle.tl_schema.specs.Seen.{shape};
ghost use Rattle.schema_files.specs.Parts.{PlansType};
ghost use Rattle.schema_files.specs.inner.Tellings.{TellsNoPlan};

use outside::LoadError;
use std::alloc::Global;
use std::slice::from_ref;
use tl_plan::{Plan, PlanFault, plan};
use tl_schema::{Schema, TypeRef};

// What is told of a type without a plan.
fn plan_error(alloc: Global, fault: PlanFault) -> LoadError
    ensures { TellsNoPlan fault result }
{
    match fault {
        PlanFault::TypeTooDeep { decl } => LoadError::of_decl(alloc, "plan", decl, "TypeTooDeep"),
        PlanFault::TooManyInstances => LoadError::unplaced(alloc, "plan", "TooManyInstances"),
        PlanFault::Memory => LoadError::Memory,
    }
}

/// The plan of the types that a type reaches.
pub fn plan_of<'s>(alloc: Global, schema: &'s Schema, of: &TypeRef) -> Result<Plan<'s>, LoadError>
    requires formed { IsFormed schema.now (shape of.now) }
    ensures plans { PlansType schema.now (shape of.now) result }
{
    match plan(alloc, schema, from_ref(of)) {
        Ok(plan) => Ok(plan),
        Err(fault) => Err(plan_error(alloc, fault)),
    }
}
