//! The lists, records and calls that a walk over a value stands in.
ghost use Rattle.std.specs.Prelude.{◌≡◌, ◌<◌, ◌-◌, [], ◌∷◌, Some, length, true, IfOk, IfSome};
ghost use Rattle.std.specs.Option.{option_map};
ghost use Rattle.std.specs.Prelude.{nat_lt};
ghost use Rattle.tl_plan.specs.Plans.{PlanView};
ghost use Rattle.tl_types.specs.declared.value.TheConstants.{MAX_LEVELS};
ghost use Rattle.tl_encode.specs.inner.Frames.{AreCounted, EachIsCounted, HasLevels, IsCounted, first_of, frames_of, path_of, rested, standing_at, stepped};
ghost use Rattle.tl_encode.specs.inner.Walks.{AreOfPlan, GoesOn, HasInstances, IsNextPart};

use std::alloc::{AllocError, Global};
use tl_schema::SchemaField;
use tl_types::{MAX_LEVELS, Value, bit_of};

/// A part of a value, or the whole.
#[derive(Clone, Copy)]
pub struct Part<'a> {
    pub value: &'a Value,
    /// The instance of its type.
    pub of: u32,
    /// The bit that it stands by, or none.
    pub bit: Option<bool>,
}

/// The instances of a value's parts.
#[derive(Clone, Copy)]
pub enum PartInstances<'a> {
    /// Of a list: all of one instance.
    Elements {
        of: u32,
    },
    /// Of a record or call: an instance for each field, and its declaration.
    Fields {
        of: &'a [u32],
        slots: &'a [SchemaField],
    },
}

/// The parts of a list, record or call; those before the index `at` were walked.
#[derive(Clone, Copy)]
pub struct WalkFrame<'a> {
    pub values: &'a [Value],
    pub parts: PartInstances<'a>,
    pub at: u32,
}

// The part of a frame at an index.
fn part_of<'a>(frame: &WalkFrame<'a>, at: u32) -> Part<'a>
    requires left { at < length frame.now.values.now }
    requires counted { AreCounted frame.now.parts frame.now.values.now }
    ensures { (p : PlanView) → HasInstances p frame.now.parts → IsNextPart p (standing_at frame.now at) result }
{
    let at = at as usize;
    let value = &frame.values[at];
    match frame.parts {
        PartInstances::Elements { of } => Part {
            value,
            of,
            bit: None,
        },
        PartInstances::Fields { of, slots } => Part {
            value,
            of: of[at],
            bit: bit_of(slots[at].cond, &frame.values[..at]),
        },
    }
}

// The most frames.
const PLACES: usize = MAX_LEVELS as usize;

/// The frames that a walk stands in, each inside the one before it.
#[derive(Drop)]
pub struct Stack<'a> {
    frames: [WalkFrame<'a>; PLACES],
    height: usize,
}

impl<'a> Stack<'a> {
    /// No frames.
    pub fn new() -> Stack<'a>
        ensures frames { frames_of result ≡ [] }
        ensures levels { HasLevels result }
    {
        let frame = WalkFrame {
            values: &[],
            parts: PartInstances::Elements { of: 0 },
            at: 0,
        };
        Stack {
            frames: [frame; PLACES],
            height: 0,
        }
    }

    /// How many levels are left for what stands in these frames.
    pub fn levels(&self) -> u32
        requires levels { HasLevels self.now }
        ensures { result ≡ MAX_LEVELS - length (frames_of self.now) }
    {
        MAX_LEVELS - self.height as u32
    }

    /// The indices of the parts that were walked last, the outermost first.
    pub fn path(&self, alloc: Global) -> Result<Vec<u32>, AllocError>
        requires levels { HasLevels self.now }
        ensures { IfOk result (λ path. path.items ≡ path_of (frames_of self.now)) }
    {
        let mut path = Vec::new(alloc);
        for frame in &self.frames[..self.height] {
            path.push(frame.at.saturating_sub(1))?;
        }
        Ok(path)
    }

    /// One frame more.
    pub fn push(&mut self, frame: WalkFrame<'a>)
        requires levels { HasLevels self.old }
        requires few { length (frames_of self.old) < MAX_LEVELS }
        ensures frames { frames_of self.new ≡ frame.entry ∷ frames_of self.old }
        ensures levels { HasLevels self.new }
    {
        let height = self.height;
        let frames = &mut self.frames[..];
        frames[height] = frame;
        self.height = height + 1;
    }

    // The index of the next part of the innermost frame with a part left, which counts as walked from now on; frames that have none are taken off.
    fn next_at(&mut self) -> Option<u32>
        requires levels { HasLevels self.old }
        requires counted { EachIsCounted (frames_of self.old) }
        ensures at { result ≡ option_map (λ f. f.at) (first_of (rested (frames_of self.old))) }
        ensures some { IfSome result (λ _. 0 < self.new.height) }
        ensures frames { frames_of self.new ≡ stepped (rested (frames_of self.old)) }
        ensures levels { HasLevels self.new }
    {
        while self.height > 0 {
            let top = self.height - 1;
            let frames = &mut self.frames[..];
            let at = frames[top].at;
            if (at as usize) < frames[top].values.len() {
                frames[top].at = at + 1;
                return Some(at);
            }
            self.height = top;
        }
        None
    }

    // The innermost frame.
    fn innermost(&self) -> &WalkFrame<'a>
        requires levels { HasLevels self.now }
        requires some { 0 < self.now.height }
        ensures { first_of (frames_of self.now) ≡ Some result.now }
    {
        let frames = &self.frames[..];
        &frames[self.height - 1]
    }

    /// The next part of the frames, the innermost first.
    pub fn next_part(&mut self) -> Option<Part<'a>>
        requires levels { HasLevels self.old }
        requires counted { EachIsCounted (frames_of self.old) }
        ensures goes_on { (p : PlanView) → AreOfPlan p (frames_of self.old) → GoesOn p (frames_of self.old) (frames_of self.new) result }
        ensures levels { HasLevels self.new }
        ensures counted { EachIsCounted (frames_of self.new) }
    {
        let at = self.next_at()?;
        Some(part_of(self.innermost(), at))
    }
}
