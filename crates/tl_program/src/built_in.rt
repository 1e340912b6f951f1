//! The types that the language has from the start.
ghost use Rattle.std.specs.Prelude.{◌≡◌};
ghost use Rattle.tl_program.specs.BuiltIns.{boxed_name, built_in, own_name};

/// A type that the language has from the start.
#[derive(Clone, Copy)]
pub enum BuiltIn {
    Int,
    Long,
    Double,
    Str,
    Bytes,
    Vector,
    Int128,
    Int256,
}

impl BuiltIn {
    /// The built-in type of this name.
    pub fn of(name: &[u8]) -> Option<BuiltIn>
        ensures { result ≡ built_in name.now }
    {
        if name == b"int".as_slice() {
            Some(BuiltIn::Int)
        } else if name == b"long".as_slice() {
            Some(BuiltIn::Long)
        } else if name == b"double".as_slice() {
            Some(BuiltIn::Double)
        } else if name == b"string".as_slice() {
            Some(BuiltIn::Str)
        } else if name == b"bytes".as_slice() {
            Some(BuiltIn::Bytes)
        } else if name == b"vector".as_slice() {
            Some(BuiltIn::Vector)
        } else if name == b"int128".as_slice() {
            Some(BuiltIn::Int128)
        } else if name == b"int256".as_slice() {
            Some(BuiltIn::Int256)
        } else {
            None
        }
    }

    /// Its name, with which its line begins.
    pub fn name(self) -> &'static [u8]
        ensures { result.now ≡ own_name self }
    {
        match self {
            BuiltIn::Int => b"int".as_slice(),
            BuiltIn::Long => b"long".as_slice(),
            BuiltIn::Double => b"double".as_slice(),
            BuiltIn::Str => b"string".as_slice(),
            BuiltIn::Bytes => b"bytes".as_slice(),
            BuiltIn::Vector => b"vector".as_slice(),
            BuiltIn::Int128 => b"int128".as_slice(),
            BuiltIn::Int256 => b"int256".as_slice(),
        }
    }
}

/// The boxed type of a line, which stands after its `=`.
pub fn boxed_name(line: BuiltIn) -> &'static [u8]
    ensures { result.now ≡ boxed_name line }
{
    match line {
        BuiltIn::Int => b"Int".as_slice(),
        BuiltIn::Long => b"Long".as_slice(),
        BuiltIn::Double => b"Double".as_slice(),
        BuiltIn::Str => b"String".as_slice(),
        BuiltIn::Bytes => b"Bytes".as_slice(),
        BuiltIn::Vector => b"Vector".as_slice(),
        BuiltIn::Int128 => b"Int128".as_slice(),
        BuiltIn::Int256 => b"Int256".as_slice(),
    }
}
