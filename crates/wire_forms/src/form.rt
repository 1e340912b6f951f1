//! What a form is.

/// What stands in a field.
#[derive(Clone, Copy)]
pub enum Cell {
    /// `int`, read as 32 bits without a sign.
    Whole,
    /// `int`.
    Signed,
    /// `long`.
    Long,
    /// `bytes`.
    Body,
    /// `string`.
    Key,
    /// `Vector<int>`.
    Ids,
    /// `Vector<bytes>`.
    Bodies,
    /// `#`.
    Flags,
    /// `flags.0?true`, where `flags` is the form's first field.
    Final,
    /// `Vector<T>` of the type with this number.
    Many { head: u32 },
    /// The type with this number, boxed.
    One { head: u32 },
    /// `%T`, the form with this number without its word.
    Bare { form: u32 },
    /// `Vector<%T>`.
    ManyBare { form: u32 },
    /// `!X`, a call of any function.
    Query,
}

/// A field of a form.
pub struct Part {
    pub name: &'static str,
    pub cell: Cell,
}

/// A constructor or a function of the protocol.
pub struct Form {
    pub name: &'static str,
    pub function: bool,
    /// The number of its type, or of what a function answers; none where that is what its query answers.
    pub result: Option<u32>,
    pub parts: &'static [Part],
}
