//! Walking from type to type: each is reached once, and counted.
ghost use Rattle.std.specs.Prelude.{◌≡◌, ◌<◌, [], map, length};
ghost use Rattle.std.specs.List.{flat_map};
ghost use Rattle.tl_schema.specs.Seen.{shape, slot};
ghost use Rattle.tl_plan.specs.Types.{index_of};
ghost use Rattle.tl_plan.specs.Entries.{fields_at};
ghost use Rattle.tl_plan.specs.Reached.{fields_named, names_of, unnamed};
ghost use Rattle.tl_plan.specs.Plans.{instance_of, member_of};
ghost use Rattle.tl_plan.specs.Seen.{Shows, member_view};
ghost use Rattle.tl_plan.specs.inner.Nodes.{AreBelow, first_of, type_at, types_at};
ghost use Rattle.tl_plan.specs.inner.Walks.{AreHeads, Walks, add_all, find_all, lists_of};

use crate::closing::close;
use crate::fault::PlanFault;
use crate::heads::Heads;
use crate::instances::{Instance, Member};
use crate::queue::Queue;
use crate::table::Table;
use std::alloc::Global;
use tl_schema::{Schema, SchemaField, TypeForm, TypeRef};

/// Reaches the roots, in order.
pub fn reach(
    alloc: Global,
    schema: &Schema,
    roots: &[TypeRef],
    table: &mut Table,
    queue: &mut Queue,
) -> Result<(), PlanFault>
    requires { AreBelow (length table.old) queue.old }
    ensures { Walks (add_all (types_at table.old queue.old) (unnamed schema.now (map shape roots.now))) table.old table.new queue.new result (λ _. Unit {0}) }
{
    let none = schema.count();
    for root in roots {
        let node = close(root, &[], alloc, table)?;
        queue.add(node, table.levels(node), none)?;
    }
    Ok(())
}

/// The instance of a type that is reached, which reaches those that it names.
pub fn instance(
    alloc: Global,
    schema: &Schema,
    heads: &Heads,
    node: u32,
    table: &mut Table,
    queue: &mut Queue,
) -> Result<Instance, PlanFault>
    requires heads { AreHeads schema.now (lists_of heads.now.constructors.items) heads.now.functions.items }
    requires queue { AreBelow (length table.old) queue.old }
    requires within { node < length table.old }
    ensures { Walks (find_all (types_at table.old queue.old) (names_of schema.now (type_at table.old node))) table.old table.new queue.new result (λ i. Shows (instance_of schema.now (types_at table.new queue.new) (type_at table.old node)) i) }
{
    let form = table.form(node);
    let parts = Vec::from_slice(alloc, table.parts(node))?;
    match form {
        TypeForm::Vector { .. } => vector(alloc, schema, form, &parts, table, queue),
        TypeForm::Boxed { head } => {
            let entries = heads.constructors(head);
            let of = Declarations { form, entries };
            record(alloc, schema, of, &parts, table, queue)
        }
        TypeForm::Bare { entry } => {
            let entries = &[entry];
            let of = Declarations { form, entries };
            record(alloc, schema, of, &parts, table, queue)
        }
        TypeForm::Call => {
            let entries = &heads.functions;
            let of = Declarations { form, entries };
            record(alloc, schema, of, &parts, table, queue)
        }
        _ => Ok(Instance {
            form,
            item: None,
            members: Vec::new(alloc),
        }),
    }
}

// The instance of a vector.
fn vector(
    alloc: Global,
    schema: &Schema,
    form: TypeForm,
    parts: &[u32],
    table: &Table,
    queue: &mut Queue,
) -> Result<Instance, PlanFault>
    requires queue { AreBelow (length table.now) queue.old }
    requires below { AreBelow (length table.now) parts.now }
    requires parts { length parts.now ≡ 1 }
    ensures { Walks (find_all (types_at table.now queue.old) (unnamed schema.now (types_at table.now parts.now))) table.now table.now queue.new result (λ i. (i.form ≡ form) × (i.item ≡ Some (index_of (first_of (types_at table.now parts.now)) (types_at table.now queue.new))) × (i.members.items ≡ [])) }
{
    let item = queue.meet(parts[0], table.levels(parts[0]), schema.count())?;
    Ok(Instance {
        form,
        item: Some(item),
        members: Vec::new(alloc),
    })
}

// A form, and the declarations of its values.
#[derive(Clone, Copy)]
struct Declarations<'a> {
    form: TypeForm,
    entries: &'a [u32],
}

// The instance of a type with these declarations, applied to types of these numbers.
fn record(
    alloc: Global,
    schema: &Schema,
    of: Declarations<'_>,
    args: &[u32],
    table: &mut Table,
    queue: &mut Queue,
) -> Result<Instance, PlanFault>
    requires queue { AreBelow (length table.old) queue.old }
    requires below { AreBelow (length table.old) args.now }
    ensures { Walks (find_all (types_at table.old queue.old) (flat_map (fields_named schema.now (types_at table.old args.now)) of.entry.entries.now)) table.old table.new queue.new result (λ i. (i.form ≡ of.entry.form) × (i.item ≡ None) × (map member_view i.members.items ≡ map (member_of schema.now (types_at table.new queue.new) (types_at table.old args.now)) of.entry.entries.now)) }
{
    let mut members = Vec::new(alloc);
    for entry in of.entries {
        members.push(member(alloc, schema, *entry, args, table, queue)?)?;
    }
    Ok(Instance {
        form: of.form,
        item: None,
        members,
    })
}

// A declaration, whose fields have types of these numbers in place of its variables.
fn member(
    alloc: Global,
    schema: &Schema,
    entry: u32,
    args: &[u32],
    table: &mut Table,
    queue: &mut Queue,
) -> Result<Member, PlanFault>
    requires queue { AreBelow (length table.old) queue.old }
    requires below { AreBelow (length table.old) args.now }
    ensures { Walks (find_all (types_at table.old queue.old) (fields_named schema.now (types_at table.old args.now) entry)) table.old table.new queue.new result (λ m. member_view m ≡ member_of schema.now (types_at table.new queue.new) (types_at table.old args.now) entry) }
{
    let mut fields = Vec::new(alloc);
    for field in fields_of(schema, entry) {
        let node = close(&field.of, args, alloc, table)?;
        fields.push(queue.meet(node, table.levels(node), entry)?)?;
    }
    Ok(Member { entry, fields })
}

// The fields of a declaration; none past the end of the schema.
fn fields_of(schema: &Schema, entry: u32) -> &[SchemaField]
    ensures { map slot result.now ≡ fields_at schema.now entry }
{
    if entry < schema.count() {
        &schema.entry(entry).fields
    } else {
        &[]
    }
}
