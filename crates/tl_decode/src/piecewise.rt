//! A decoder that takes its input in pieces.
ghost use Rattle.std.specs.Prelude.{◌≡◌, ◌≢◌, ◌≤◌, ◌<◌, ◌++◌, ℕ, List, [], length, Some};
ghost use Rattle.tl_numbers.specs.Bytes.{AreBytes};
ghost use Rattle.tl_schema.specs.Types.{Shape};
ghost use Rattle.tl_plan.specs.Plans.{IsPlan};
ghost use Rattle.tl_plan.specs.PlanLaws.{IsInstance};
ghost use Rattle.tl_types.specs.Offsets.{moved};
ghost use Rattle.tl_types.specs.Refusal.{Refused};
ghost use Rattle.tl_types.specs.Seen.{view};
ghost use Rattle.tl_types.specs.Spelling.{Spells};
ghost use Rattle.tl_types.specs.Values.{ValueView, depth};
ghost use Rattle.tl_types.specs.declared.cause.Cause.{Cause};
ghost use Rattle.tl_decode.specs.Decoders.{Feeds, HasTaken, HasValue, stopped};
ghost use Rattle.tl_decode.specs.Sizes.{HasFewNodes};
ghost use Rattle.tl_decode.specs.inner.Frames.{IsInPlan};

use crate::fault::DecodeFault;
use crate::feeding::take_piece;
use crate::planned::settle_at;
use crate::stack::{Fed, Found, Next, Progress, Reading};
use std::alloc::Global;
use std::marker::Model;
use tl_plan::Plan;
use tl_types::{MAX_LEVELS, Value};

/// Reads the value of a root of a plan, of which the bytes come in pieces that may be cut anywhere.
pub struct Decoder<'p, 's> {
    alloc: Global,
    plan: &'p Plan<'s>,
    root: u32,
    progress: Progress,
    at: u64,
}

// By hand, so that each exit of an owner has one call to prove.
impl Drop for Decoder<'_, '_> {
    fn drop(self) {
        let Decoder {
            alloc: _,
            plan: _,
            root: _,
            progress: _,
            at: _,
        } = self;
    }
}

impl<'p, 's> Model for Decoder<'p, 's> {
    ghost use Rattle.std.specs.Coded.{codes};
    ghost use Rattle.tl_plan.specs.inner.PlanCodes.{plan_code};
    ghost use Rattle.tl_decode.specs.contracts.stack.Progress as progress_row;
    ghost use Rattle.tl_decode.specs.Decoders.{DecoderView, IsDecoder};

    ghost Value = { DecoderView };

    ghost coded = { Prim.hlevel (codes, plan_code, progress_row.the_row.coded) };

    ghost view = { λ d. record { plan = d.plan.now; root = d.root; progress = d.progress; at = d.at } };

    ghost invariant = { λ d. IsDecoder (record { plan = d.plan.now; root = d.root; progress = d.progress; at = d.at }) };
}

impl<'p, 's> Decoder<'p, 's> {
    /// A decoder that has taken no bytes.
    pub fn new(alloc: Global, plan: &'p Plan<'s>, root: u32) -> Decoder<'p, 's>
        requires { root < plan.now.roots }
        ensures plan { result.plan ≡ plan.now }
        ensures root { result.root ≡ root }
        ensures taken { HasTaken result [] }
        ensures sound { IsPlan plan.now }
    {
        let of = plan.root(root);
        let progress = begun(alloc, plan, of);
        Decoder {
            alloc,
            plan,
            root,
            progress,
            at: 0,
        }
    }

    /// Takes the next piece. It answers Done with the piece in which the value ends, or a refusal as soon as no bytes that follow can mend it; never
    /// a read fault, nor that the input ends inside an item. After a refusal it answers that refusal, and after out of memory this, whatever it is
    /// fed. Memory is taken for bytes that came, never for a length or a count that was only announced.
    pub fn feed(&mut self, piece: &[u8]) -> Result<Fed, DecodeFault>
        ensures { Feeds self.old self.new piece.now result }
    {
        match &mut self.progress {
            Progress::Stopped { fault } => Err(*fault),
            Progress::Done { .. } => Ok(Fed::Done { used: 0 }),
            Progress::Reading { reading } => {
                match take_piece(self.alloc, self.plan, reading, &mut self.at, piece) {
                    Ok(None) => Ok(Fed::More),
                    Ok(Some((value, used))) => {
                        self.progress = Progress::Done { value };
                        Ok(Fed::Done { used })
                    }
                    Err(fault) => {
                        self.progress = Progress::Stopped { fault };
                        Err(fault)
                    }
                }
            }
        }
    }

    /// The offset of the item that isn't whole: where the input is cut off if it ends here. After Done it is that of the value's end. It stops at
    /// 2^64 - 1.
    pub fn ended(&self) -> u64
        ensures at { result ≡ self.now.at }
        ensures cut_off { (bytes : List ℕ) → HasTaken self.now bytes → (T : Shape) → IsInstance self.now.plan self.now.root T → (offset : ℕ) → Refused self.now.plan.schema MAX_LEVELS T bytes offset Cause.Truncated → stopped self.now ≢ Some DecodeFault.Memory → result ≡ moved 0 offset }
        ensures spelled { (bytes : List ℕ) → HasTaken self.now bytes → (T : Shape) → IsInstance self.now.plan self.now.root T → (v : ValueView) (x rest : List ℕ) → bytes ≡ x ++ rest → Spells self.now.plan.schema T v x → depth v ≤ MAX_LEVELS → stopped self.now ≢ Some DecodeFault.Memory → result ≡ moved 0 (length x) }
    {
        self.at
    }

    /// The value, after the answer Done.
    pub fn into_value(self) -> Value
        requires { (v : ValueView) × HasValue self v }
        ensures value { (v : ValueView) → HasValue self.entry v → view result ≡ v }
        // It has few nodes for the bytes that were taken.
        ensures bounded { (bytes : List ℕ) → AreBytes bytes → HasTaken self.entry bytes → (T : Shape) → IsInstance self.entry.plan self.entry.root T → HasFewNodes self.entry.plan.schema T (length bytes) (view result) }
    {
        let Decoder {
            alloc: _,
            plan: _,
            root: _,
            progress,
            at: _,
        } = self;
        let Progress::Done { value } = progress else {
            unreachable!()
        };
        value
    }
}

// How far a value of an instance is before any byte.
fn begun(alloc: Global, plan: &Plan, of: u32) -> Progress
    requires { IsInPlan plan.now of }
    ensures { HasTaken (record { plan = plan.now; root = of; progress = result; at = 0 }) [] }
{
    let mut frames = Vec::new(alloc);
    match settle_at(alloc, plan, &mut frames, Next::Open { of }, 0) {
        Ok(Found::Wants { wanted }) => Progress::Reading {
            reading: Reading {
                frames,
                wanted,
                held: Vec::new(alloc),
            },
        },
        Ok(Found::Done { value }) => Progress::Done { value },
        Err(fault) => Progress::Stopped { fault },
    }
}
