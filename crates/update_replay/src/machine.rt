//! Replays that are made step by step, over a journal in memory.
ghost use Rattle.std.specs.Prelude.{◌≡◌, ℕ, List, [], Err, IfOk, IfSome, Ok, Some, length};
ghost use Rattle.box_events.specs.declared.steps.Step as steps;
ghost use Rattle.box_wire.specs.StepReading.{IsDated};
ghost use Rattle.update_world.specs.Shown.{Shown};
ghost use Rattle.wire_profile.specs.Indexes.{ProfileView};
ghost use Rattle.wire_profile.specs.Profiles.{IsProfile};
ghost use Rattle.update_replay.specs.Endings.{answer_of, of_refusal};
ghost use Rattle.update_replay.specs.Handing.{FindsStep, HandsOut, HasMade, IsGoing};
ghost use Rattle.update_replay.specs.Replays.{IsNew};

use crate::fault::ReplayFault;
use crate::limits::{MAX_JOURNAL_BYTES, MAX_STEPS};
use crate::lines::{put_end, put_step};
use box_events::Step;
use box_wire::{StepReadFault, read_step};
use std::alloc::Global;
use tl_base::{Fault, Limited, SliceSource};
use tl_types::Cause;
use update_world::World;
use wire_profile::{Profile, WireFault};

/// A replay of a journal in memory that is made step by step: each call makes the next step in a world, and hands out its lines.
#[derive(Drop)]
pub struct Replay<'j> {
    // What is left of what is looked at of the journal, and whether it goes on after that.
    rest: &'j [u8],
    goes_on: bool,
    // Where the next step begins, and how many were made before it.
    at: u32,
    steps: u32,
    lines: Vec<u8>,
}

impl<'j> Replay<'j> {
    /// A replay of the journal, of which no step was made yet. Of a journal's bytes those up to one past the limit are enough.
    pub fn new(alloc: Global, journal: &'j [u8]) -> Replay<'j>
        ensures { (w : Shown) → IsNew w → HasMade w.profile (length w.clients) journal.now [] [] w result }
    {
        let end = journal.len().min(MAX_JOURNAL_BYTES as usize);
        Replay {
            rest: &journal[..end],
            goes_on: journal.len() > MAX_JOURNAL_BYTES as usize,
            at: 0,
            steps: 0,
            lines: Vec::new(alloc),
        }
    }

    /// Makes the next step, in the world of the steps before. True: `lines` are its lines. False: the journal ended, and `lines` are the closing lines. After
    /// an end or a fault there is no next step, and none is asked for.
    pub fn next(&mut self, alloc: Global, world: &mut World) -> Result<bool, ReplayFault>
        requires { IsGoing world.old self.old }
        ensures handed { (p : ProfileView) (n : ℕ) (journal : List ℕ) (ss : List steps.Step) (output : List ℕ) → HasMade p n journal ss output world.old self.old → HandsOut p n journal ss self.old.rest.now output world.new self.new result }
        ensures sound { IsProfile world.old.profile }
    {
        self.lines.clear();
        match find_step(alloc, world.profile(), self.rest) {
            Ok(Some((step, size))) => self.make(alloc, world, step, size),
            Ok(None) => self.close(world),
            Err(StepReadFault::Wire(fault)) => Err(wire_stop(self.goes_on, self.at, fault)),
            // A read of memory never fails.
            Err(_) => Err(ReplayFault::Memory),
        }
    }

    /// The lines that were handed out last.
    pub fn lines(&self) -> &[u8]
        ensures { result.now ≡ self.now.lines.items }
    {
        self.lines.as_slice()
    }

    /// How many steps were made.
    pub fn steps(&self) -> u32
        ensures { result ≡ self.now.steps }
    {
        self.steps
    }

    // Makes the step that comes next, which has so many bytes.
    fn make(
        &mut self,
        alloc: Global,
        world: &mut World,
        step: Step,
        size: usize,
    ) -> Result<bool, ReplayFault>
        requires going { IsGoing world.old self.old }
        requires found { FindsStep world.old.profile self.old.rest.now (Ok (Some (step, size))) }
        requires dated { IsDated step }
        requires empty { self.old.lines.items ≡ [] }
        ensures { (p : ProfileView) (n : ℕ) (journal : List ℕ) (ss : List steps.Step) (output : List ℕ) → HasMade p n journal ss output world.old self.old → HandsOut p n journal ss self.old.rest.now output world.new self.new result }
    {
        if self.steps >= MAX_STEPS {
            return Err(ReplayFault::TooLong { at: self.at });
        }
        let outcome = match world.step(alloc, step) {
            Ok(outcome) => outcome,
            Err(Fault::Refused(fault)) => return Err(ReplayFault::Step { at: self.at, fault }),
            Err(Fault::Memory) => return Err(ReplayFault::Memory),
        };
        match put_step(&mut self.lines, world, self.steps, outcome) {
            Ok(()) => {
                self.rest = &self.rest[size..];
                self.at += size as u32;
                self.steps += 1;
                Ok(true)
            }
            Err(_) => {
                self.lines.clear();
                Err(ReplayFault::Memory)
            }
        }
    }

    // Where what is looked at of the journal has ended after whole steps.
    fn close(&mut self, world: &World) -> Result<bool, ReplayFault>
        requires ended { self.old.rest.now ≡ [] }
        requires empty { self.old.lines.items ≡ [] }
        ensures { (p : ProfileView) (n : ℕ) (journal : List ℕ) (ss : List steps.Step) (output : List ℕ) → HasMade p n journal ss output world.now self.old → HandsOut p n journal ss self.old.rest.now output world.now self.new result }
    {
        if self.goes_on {
            return Err(ReplayFault::TooLong { at: self.at });
        }
        match put_end(&mut self.lines, world) {
            Ok(()) => Ok(false),
            Err(_) => {
                self.lines.clear();
                Err(ReplayFault::Memory)
            }
        }
    }
}

// The step that bytes begin with, and how many of them it has; None, where there are no bytes.
fn find_step(
    alloc: Global,
    profile: &Profile,
    bytes: &[u8],
) -> Result<Option<(Step, usize)>, StepReadFault>
    ensures step { FindsStep profile.now bytes.now result }
    ensures dated { IfOk result (λ found. IfSome found (λ r. IsDated r.0)) }
{
    let mut from = SliceSource::new(bytes);
    let mut window = Limited::new(&mut from, bytes.len() as u64);
    match read_step(alloc, profile, &mut window)? {
        Some(step) => Ok(Some((step, window.taken() as usize))),
        None => Ok(None),
    }
}

// Why a replay stops where the bytes at an offset of a journal begin no step: bytes that end too soon are too many, where the journal goes on.
fn wire_stop(goes_on: bool, at: u32, fault: WireFault) -> ReplayFault
    ensures { answer_of (of_refusal goes_on at fault) ≡ Err result }
{
    let is_cut = matches!(
        fault,
        WireFault::Refused {
            cause: Cause::Truncated,
            ..
        }
    );
    if goes_on && is_cut {
        ReplayFault::TooLong { at }
    } else {
        ReplayFault::Wire { at, fault }
    }
}
