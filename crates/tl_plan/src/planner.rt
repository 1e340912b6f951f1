//! Making plans.
ghost use Rattle.std.specs.Prelude.{map};
ghost use Rattle.tl_schema.specs.Seen.{shape};
ghost use Rattle.tl_plan.specs.Plans.{AreFormed, Plans};

use crate::fault::PlanFault;
use crate::heads::Heads;
use crate::plans::Plan;
use crate::queue::Queue;
use crate::table::Table;
use crate::walk::{instance, reach};
use std::alloc::Global;
use tl_schema::{Schema, TypeRef};

/// The plan of the types that the roots reach, breadth first in the order of fields. Root k is instance k, equal roots too; a type that is reached
/// later and equals a root is the first such.
pub fn plan<'s>(alloc: Global, schema: &'s Schema, roots: &[TypeRef]) -> Result<Plan<'s>, PlanFault>
    requires { AreFormed schema.now (map shape roots.now) }
    ensures answer { Plans schema.now (map shape roots.now) result }
{
    let heads = Heads::of(alloc, schema)?;
    let mut table = Table::new(alloc);
    let mut queue = Queue::new(alloc);
    reach(alloc, schema, roots, &mut table, &mut queue)?;
    let mut instances = Vec::new(alloc);
    let mut i = 0u32;
    while i < queue.len() {
        let node = queue.node(i);
        instances.push(instance(alloc, schema, &heads, node, &mut table, &mut queue)?)?;
        i += 1;
    }
    Ok(Plan::new(schema, roots.len() as u32, table, queue, instances))
}
