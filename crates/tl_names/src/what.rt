//! What names mean.
use tl_program::BuiltIn;

/// What a name means where a declaration writes it.
#[derive(Clone, Copy)]
pub enum What {
    /// The variable of the declaration at this index.
    Variable { index: u32 },
    /// A built-in bare type, vectors aside.
    Base { built_in: BuiltIn },
    /// `Vector` or `vector`.
    Vector { is_boxed: bool },
    /// The type with this number. Types are numbered from 0, in the order of their first constructors.
    Type { number: u32 },
    /// The first constructor of the name, by its index among the declarations.
    Constructor { index: u32 },
    /// Neither a variable nor built in, and declared by none.
    Unknown,
}
