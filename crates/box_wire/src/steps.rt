//! Steps of a journal as bytes, and back.
ghost use Rattle.std.specs.Prelude.{◌≡◌, IfOk, IfSome, IsErrOf};
ghost use Rattle.tl_base.specs.Using.{Used};
ghost use Rattle.tl_types.specs.Seen.{view};
ghost use Rattle.wire_profile.specs.Causes.{cause_of};
ghost use Rattle.wire_profile.specs.declared.rule.Root.TheVariants as root;
ghost use Rattle.wire_profile.specs.SpelledForms.{owned};
ghost use Rattle.wire_values.specs.Steps.{step_in as step_by, step_tree};
ghost use Rattle.box_wire.specs.Answers.{IsOnly};
ghost use Rattle.box_wire.specs.Framing.{Framed};
ghost use Rattle.box_wire.specs.Kinds.{steps};
ghost use Rattle.box_wire.specs.StepReading.{IsDated, ReadsStep};
ghost use Rattle.box_wire.specs.inner.Steps.{AnswersStep, as_step_fault};

use crate::fault::StepReadFault;
use crate::wholes::bytes_of;
use box_events::Step;
use std::alloc::Global;
use tl_base::{Bytes, Memory, Source};
use tl_decode::{DecodeFault, decode_or_end};
use tl_types::Value;
use wire_profile::{Profile, WireFault, step_cause};
use wire_values::{step_of, step_value};

// The plan's root for steps.
const STEP_ROOT: u32 = 1;

/// Spells a step. Each of which `FitsStep` has a spelling; another is answered as out of memory.
pub fn spell_step(alloc: Global, profile: &Profile, step: &Step) -> Result<Bytes, Memory>
    ensures { IfOk result (IsOnly (Framed profile.now steps (step_tree step.now))) }
{
    let mut value = step_value(alloc, step)?;
    profile.put_indexes(&mut value);
    let bytes = bytes_of(alloc, profile.plan(), STEP_ROOT, &value)?;
    Ok(Bytes::from_vec(bytes))
}

/// Reads the next step, and takes exactly its bytes; None where the source has ended. Offsets count from the step's first byte. After a refusal the
/// source isn't read again.
pub fn read_step<S: Source>(
    alloc: Global,
    profile: &Profile,
    from: &mut S,
) -> Result<Option<Step>, StepReadFault>
    ensures read { IfSome (S.state from.old).left (λ bytes. ReadsStep profile.now bytes (S.state from.new).left result) }
    ensures used { Used (S.state from.old) (S.state from.new) (IsErrOf result StepReadFault.ReadFault) }
    ensures dated { IfOk result (λ step. IfSome step IsDated) }
{
    let mut at = 0;
    match decode_or_end(alloc, profile.plan(), STEP_ROOT, &mut at, from) {
        Ok(None) => Ok(None),
        Ok(Some(value)) => step_from(alloc, profile, value),
        Err(fault) => Err(step_fault(fault)),
    }
}

// The step of a value with the schema's numbers, or its first cause.
fn step_from(alloc: Global, profile: &Profile, value: Value) -> Result<Option<Step>, StepReadFault>
    ensures answers { AnswersStep (cause_of root.Step (owned profile.now (view value))) (step_by (owned profile.now (view value))) result }
    ensures read { IsErrOf result StepReadFault.ReadFault → ⊥ }
    ensures dated { IfOk result (λ step. IfSome step IsDated) }
{
    let mut owned = value;
    profile.put_forms(&mut owned);
    match step_cause(&owned) {
        Some(fault) => Err(StepReadFault::Wire(fault)),
        None => Ok(Some(step_of(alloc, owned)?)),
    }
}

fn step_fault(fault: DecodeFault) -> StepReadFault
    ensures { result ≡ as_step_fault fault }
{
    match fault {
        DecodeFault::Refused { place, cause } => {
            StepReadFault::Wire(WireFault::Refused { place, cause })
        }
        DecodeFault::ReadFault => StepReadFault::ReadFault,
        DecodeFault::Memory => StepReadFault::Memory,
    }
}
