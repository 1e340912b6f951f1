//! The frames of a value's parts.
ghost use Rattle.std.specs.Prelude.{◌≡◌, ◌<◌, ℕ, None, length};
ghost use Rattle.tl_types.specs.Fitting.{node_misfit};
ghost use Rattle.tl_types.specs.Seen.{view};
ghost use Rattle.tl_encode.specs.inner.Openings.{Ascend, IsFieldsFrame, IsNamed, Names};
ghost use Rattle.tl_encode.specs.inner.Walks.{FramesParts, part_type};

use crate::frames::{Part, PartInstances, WalkFrame};
use tl_plan::{Instance, Member, Plan};
use tl_schema::Schema;
use tl_types::{Value, slots_of};

/// The frame of a list, record or call that fits, its parts aside; other values have none.
pub fn frame_of<'a>(plan: &'a Plan, part: Part<'a>) -> Option<WalkFrame<'a>>
    requires instance { part.of < length plan.now.instances }
    requires fits { (n : ℕ) × (node_misfit plan.now.schema.decls n part.bit (part_type plan.now part) (view part.value.now) ≡ None) }
    ensures { FramesParts plan.now (part_type plan.now part.entry) (view part.entry.value.now) result }
{
    let instance = plan.instance(part.of);
    match part.value {
        Value::List(items) => {
            let of = instance.item?;
            Some(WalkFrame {
                values: items,
                parts: PartInstances::Elements { of },
                at: 0,
            })
        }
        Value::Node { entry, fields } => Some(fields_of(instance, plan.schema(), *entry, fields)),
        Value::Call { entry, fields } => Some(fields_of(instance, plan.schema(), *entry, fields)),
        _ => None,
    }
}

// The frame of a record or call.
fn fields_of<'a>(
    instance: &'a Instance,
    schema: &'a Schema,
    entry: u32,
    values: &'a [Value],
) -> WalkFrame<'a>
    requires ascending { Ascend instance.now.members.items }
    requires named { Names instance.now.members.items entry }
    ensures { IsFieldsFrame instance.now.members.items schema.now.decls entry values.now result }
{
    let member = member_of(&instance.members, entry);
    WalkFrame {
        values,
        parts: PartInstances::Fields {
            of: &member.fields,
            slots: slots_of(schema, entry),
        },
        at: 0,
    }
}

// The member that is this declaration, found by halves.
fn member_of<'a>(members: &'a [Member], entry: u32) -> &'a Member
    requires ascending { Ascend members.now }
    requires named { Names members.now entry }
    ensures { IsNamed members.now entry result.now }
{
    match members.binary_search_by_key(&entry, |member| member.entry) {
        Ok(k) => &members[k],
        Err(_) => unreachable!(),
    }
}
