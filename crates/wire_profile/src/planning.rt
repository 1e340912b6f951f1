//! The plan of a profile.
ghost use Rattle.std.specs.Prelude.{◌≡◌, [], ◌∷◌, IfOk, map};
ghost use Rattle.tl_schema.specs.Seen.{shape};
ghost use Rattle.tl_schema.specs.Types as type;
ghost use Rattle.tl_schema.specs.Types.{no_shapes};
ghost use Rattle.tl_plan.specs.PlanLaws.{IsPlanOf};
ghost use Rattle.wire_profile.specs.Indexes.{number_at};
ghost use Rattle.wire_profile.specs.Profiles.{IsProfile, root_shapes};

use crate::layout::{Layout, number_at};
use std::alloc::{AllocError, Global};
use tl_plan::{Plan, PlanFault, plan};
use tl_schema::{Schema, TypeRef};
use wire_forms::numbers::{CLIENT_TYPE, FRAME_TYPE, STEP_TYPE};

/// The plan of a frame, a step and a saved client. A profile fixes each type that they reach, so it is refused for memory alone.
pub fn plan_of<'s>(
    alloc: Global,
    schema: &'s Schema,
    layout: &Layout,
) -> Result<Plan<'s>, AllocError>
    requires same { layout.now.schema ≡ schema.now }
    requires profile { IsProfile layout.now }
    ensures { IfOk result (λ p. IsPlanOf layout.now.schema (root_shapes layout.now) p) }
{
    let roots = roots_of(alloc, layout)?;
    match plan(alloc, schema, &roots) {
        Ok(plan) => Ok(plan),
        Err(fault) => match fault {
            PlanFault::Memory => Err(AllocError),
            _ => unreachable!(),
        },
    }
}

fn roots_of(alloc: Global, layout: &Layout) -> Result<Vec<TypeRef>, AllocError>
    ensures { IfOk result (λ ts. map shape ts.items ≡ root_shapes layout.now) }
{
    let mut roots = Vec::new(alloc);
    roots.push(boxed(alloc, number_at(&layout.heads, FRAME_TYPE)))?;
    roots.push(boxed(alloc, number_at(&layout.heads, STEP_TYPE)))?;
    roots.push(boxed(alloc, number_at(&layout.heads, CLIENT_TYPE)))?;
    Ok(roots)
}

// The boxed type with this number, which takes no arguments.
fn boxed(alloc: Global, head: u32) -> TypeRef
    ensures { shape result ≡ type.boxed head no_shapes }
{
    TypeRef::Boxed {
        head,
        args: Vec::new(alloc),
    }
}
