//! How far a value is read: the lists and records that were begun, and what comes next.
use crate::fault::DecodeFault;
use tl_types::{Cause, Value};

/// A list or a record that was begun.
#[derive(Drop)]
pub enum StackFrame {
    /// The instance of its elements, how many come after the one that is read, and those that are there.
    List {
        item: u32,
        left: u32,
        items: Vec<Value>,
    },
    /// A record or a call: its instance, the index of its member there, and the fields that are there.
    Record {
        of: u32,
        member: usize,
        fields: Vec<Value>,
    },
}

/// The item that is looked for.
#[derive(Clone, Copy)]
pub enum WantedItem {
    Int,
    Nat,
    Long,
    /// So many bytes.
    Opaque { width: u64 },
    /// A string.
    Text,
    /// The number of a constructor or a function, for a value of this instance.
    Number { of: u32 },
    /// The number of a boxed vector of elements of this instance.
    ListNumber { item: u32 },
    /// The count of a vector of elements of this instance.
    Count { item: u32 },
}

/// An item: four bytes as a number, or a value.
#[derive(Drop)]
pub enum Item {
    Word { word: u32 },
    Plain { value: Value },
}

/// What is to be done next.
#[derive(Drop)]
pub enum Next {
    /// A value of this instance is to be read.
    Open { of: u32 },
    /// The parts of the innermost list or record that are still to come are to be read.
    Part { top: StackFrame },
    /// A value is there.
    Close { value: Value },
    /// The count of a vector of elements of this instance is to be read.
    Begin { item: u32 },
}

/// What comes after the fields of a record that are there.
#[derive(Clone, Copy)]
pub enum Coming {
    /// Nothing: all fields of this declaration are there.
    End { entry: u32 },
    /// A field that isn't there, since its bit is clear.
    Absent,
    /// A field of this instance.
    Field { of: u32 },
}

/// What comes after a value that became a part of the innermost list or record.
#[derive(Clone, Copy)]
pub enum Onward {
    /// An item is looked for.
    Item { wanted: WantedItem },
    /// A value of this instance is to be read.
    Value { of: u32 },
    /// A field isn't there, or the list or record is whole.
    Rest,
}

/// Where nothing goes on without bytes.
#[derive(Drop)]
pub enum Found {
    Wants { wanted: WantedItem },
    Done { value: Value },
}

/// What reading goes on from where the bytes come in pieces: the lists and records that were begun, the item that is looked for, and its bytes so far.
pub struct Reading {
    pub frames: Vec<StackFrame>,
    pub wanted: WantedItem,
    pub held: Vec<u8>,
}

// By hand, so that each exit of an owner has one call to prove.
impl Drop for Reading {
    fn drop(self) {
        let Reading {
            frames: _,
            wanted: _,
            held: _,
        } = self;
    }
}

/// How far a value is whose bytes come in pieces.
#[derive(Drop)]
pub enum Progress {
    Reading { reading: Reading },
    Done { value: Value },
    Stopped { fault: DecodeFault },
}

#[derive(Drop)]
pub enum Advance {
    Goes { next: Next },
    Stops { found: Found },
}

/// What came of a piece.
#[derive(Clone, Copy)]
pub enum Fed {
    /// The value isn't whole yet; all of the piece is taken.
    More,
    /// The value is there. It ends after so many bytes of the piece.
    Done { used: usize },
}
