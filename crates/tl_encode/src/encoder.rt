//! Values by a plan, on an explicit stack.
ghost use Rattle.std.specs.Prelude.{◌≡◌, ◌≤◌, ◌<◌, ℕ, List, None, IfOk, IfSome, IsErrOf, length};
ghost use Rattle.tl_base.specs.Using.{WritesOnly, Wrote};
ghost use Rattle.tl_schema.specs.Types.{Shape};
ghost use Rattle.tl_plan.specs.PlanLaws.{IsInstance};
ghost use Rattle.tl_plan.specs.Plans.{IsPlan};
ghost use Rattle.tl_types.specs.Fitting.{misfit, node_misfit};
ghost use Rattle.tl_types.specs.Seen.{view};
ghost use Rattle.tl_types.specs.Spelling.{Spells};
ghost use Rattle.tl_types.specs.Values.{depth};
ghost use Rattle.tl_types.specs.declared.value.TheConstants as limits;
ghost use Rattle.tl_encode.specs.Encoding.{AnswersMisfit, KeepsSink, TellsFit, WritesSpelling};
ghost use Rattle.tl_encode.specs.Lengths.{FitsInstance, IsSpelledLength};
ghost use Rattle.tl_encode.specs.inner.Bytes.{spelling};
ghost use Rattle.tl_encode.specs.inner.Frames.{EachIsCounted, HasLevels, frames_of};
ghost use Rattle.tl_encode.specs.inner.Walks.{AreOfPlan, Enters, GivesBytes, StepsOver, levels_in, part_type, type_at};

use crate::fault::EncodeFault;
use crate::frames::{Part, Stack};
use crate::openings::frame_of;
use crate::starts::{put_start, start_len};
use crate::writing::write_bytes;
use std::alloc::Global;
use tl_base::Sink;
use tl_plan::Plan;
use tl_types::{FitFault, Misfit, Value, node_misfit};

/// Writes the spelling of a value of a root's type, and answers its length.
pub fn encode<K: Sink>(
    alloc: Global,
    plan: &Plan,
    root: u32,
    value: &Value,
    to: &mut K,
) -> Result<u64, EncodeFault>
    requires root { root < plan.now.roots }
    // What has a spelling is written as that, whichever one is named.
    ensures spelled { (T : Shape) (spelling : List ℕ) → IsInstance plan.now root T → Spells plan.now.schema T (view value.now) spelling → depth (view value.now) ≤ limits.MAX_LEVELS → WritesSpelling (K.state to.old).written (K.state to.new).written spelling result }
    // What has none is refused, where and why it doesn't fit.
    ensures misfit { (T : Shape) → IsInstance plan.now root T → IfSome (misfit plan.now.schema.decls limits.MAX_LEVELS None T (view value.now)) (λ m. AnswersMisfit m result) }
    ensures kept { KeepsSink to.old to.new result }
    ensures used { WritesOnly (K.state to.old) (K.state to.new) (IsErrOf result EncodeFault.WriteFault) }
    // A sound sink that has room for the spelling doesn't fail.
    ensures room { (T : Shape) (spelling : List ℕ) → IsInstance plan.now root T → Spells plan.now.schema T (view value.now) spelling → Wrote (K.state to.old) (K.state to.new) (length spelling) (IsErrOf result EncodeFault.WriteFault) }
{
    let bytes = bytes_of(alloc, plan, plan.root(root), value)?;
    write_bytes(&bytes, to)
}

/// The spelling of a value of a root's type, for a caller that wants the bytes in memory.
pub fn spelling_of(
    alloc: Global,
    plan: &Plan,
    root: u32,
    value: &Value,
) -> Result<Vec<u8>, FitFault>
    requires root { root < plan.now.roots }
    ensures spelled { (T : Shape) (spelling : List ℕ) → IsInstance plan.now root T → Spells plan.now.schema T (view value.now) spelling → IfOk result (λ bytes. bytes.items ≡ spelling) }
    ensures fits { (T : Shape) → IsInstance plan.now root T → TellsFit (misfit plan.now.schema.decls limits.MAX_LEVELS None T (view value.now)) result }
    ensures sound { IsPlan plan.now }
{
    bytes_of(alloc, plan, plan.root(root), value)
}

/// The length of the spelling of a value of a root's type, up to 2^64 - 1. It takes no memory.
pub fn spelled_len<'a>(plan: &'a Plan, root: u32, value: &'a Value) -> u64
    requires root { root < plan.now.roots }
    requires fits { FitsInstance plan.now root (view value.now) }
    ensures { IsSpelledLength plan.now root (view value.now) result }
{
    let of = plan.root(root);
    let mut len = 0u64;
    let mut stack = Stack::new();
    let mut next = Some(Part {
        value,
        of,
        bit: None,
    });
    while let Some(part) = next {
        let form = plan.instance(part.of).form;
        len = len.saturating_add(start_len(part.value, plan.schema(), form));
        next = step_over(plan, part, &mut stack);
    }
    len
}

// The spelling of a value of an instance, or its first misfit: the walk meets its misfits in their order, so it stops at that one.
fn bytes_of<'a>(
    alloc: Global,
    plan: &'a Plan,
    of: u32,
    value: &'a Value,
) -> Result<Vec<u8>, FitFault>
    requires { of < length plan.now.instances }
    ensures { GivesBytes (misfit plan.now.schema.decls limits.MAX_LEVELS None (type_at plan.now of) (view value.now)) (spelling plan.now.schema.decls (type_at plan.now of) (view value.now)) result }
{
    let mut bytes = Vec::new(alloc);
    let mut stack = Stack::new();
    let mut next = Some(Part {
        value,
        of,
        bit: None,
    });
    while let Some(part) = next {
        let form = plan.instance(part.of).form;
        if let Some(cause) = node_misfit(
            part.value,
            plan.schema(),
            stack.levels(),
            part.bit,
            form,
        ) {
            let path = stack.path(alloc)?;
            return Err(FitFault::Misfit(Misfit { path, cause }));
        }
        put_start(part.value, plan.schema(), form, &mut bytes)?;
        next = step_over(plan, part, &mut stack);
    }
    Ok(bytes)
}

// Steps over a part that has no misfit, its own parts aside, and gives the next.
#[inline(always)]
fn step_over<'a>(plan: &'a Plan, part: Part<'a>, stack: &mut Stack<'a>) -> Option<Part<'a>>
    requires levels { HasLevels stack.old }
    requires counted { EachIsCounted (frames_of stack.old) }
    requires instance { part.of < length plan.now.instances }
    requires fits { node_misfit plan.now.schema.decls (levels_in (frames_of stack.old)) part.bit (part_type plan.now part) (view part.value.now) ≡ None }
    ensures levels { HasLevels stack.new }
    ensures counted { EachIsCounted (frames_of stack.new) }
    ensures steps { AreOfPlan plan.now (frames_of stack.old) → StepsOver plan.now part.entry (frames_of stack.old) (frames_of stack.new) result }
{
    enter(plan, part, stack);
    stack.next_part()
}

// Stands in the part, if it has parts.
fn enter<'a>(plan: &'a Plan, part: Part<'a>, stack: &mut Stack<'a>)
    requires levels { HasLevels stack.old }
    requires counted { EachIsCounted (frames_of stack.old) }
    requires instance { part.of < length plan.now.instances }
    requires fits { node_misfit plan.now.schema.decls (levels_in (frames_of stack.old)) part.bit (part_type plan.now part) (view part.value.now) ≡ None }
    ensures levels { HasLevels stack.new }
    ensures counted { EachIsCounted (frames_of stack.new) }
    ensures enters { AreOfPlan plan.now (frames_of stack.old) → Enters plan.now part.entry (frames_of stack.old) (frames_of stack.new) }
{
    if let Some(frame) = frame_of(plan, part) {
        stack.push(frame);
    }
}
