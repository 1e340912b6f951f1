//! Declarations and types of a schema.
ghost use Rattle.std.specs.Prelude.{◌≡◌, ◌↔◌, ◌<◌, IsTrue, length, map, slice_get, Some};
ghost use Rattle.tl_schema.specs.Seen.{declaration};
ghost use Rattle.tl_names.specs.inner.BareSteps.{MarksEmpty};
ghost use Rattle.tl_schema.specs.CheckedPrograms.{Finds, FindsNumber, IsSchema};
ghost use Rattle.tl_names.specs.BareFields.{TakesNone};
ghost use Rattle.tl_names.specs.Indexes.{types_of};
ghost use Rattle.tl_schema.specs.inner.SchemaParts.{IsSound};

use indexmap::IndexMap;
use std::marker::Model;
use tl_graph::is_marked;
use tl_names::{Index, NameHash, Names};
use tl_numbers::Bytes;

/// A type. From "TL language" (core.telegram.org/mtproto/TL): its boxed and bare types.
pub enum TypeRef {
    /// 32 bits, signed.
    Int,
    /// 64 bits, signed.
    Long,
    /// `#`: 32 bits, unsigned.
    Nat,
    /// Eight bytes.
    Double,
    /// Sixteen bytes.
    Int128,
    /// Thirty-two bytes.
    Int256,
    /// `string`.
    Str,
    /// `bytes`.
    Raw,
    /// `?true`: a flag, which stands after a condition and takes no bytes.
    Flag,
    /// A call of any function.
    Call,
    /// A variable of the declaration, by its index.
    Var { index: u32 },
    Vector { boxed: bool, item: Box<TypeRef> },
    /// One of the constructors of the type with this number. Types are numbered from 0, in the order of their first constructors.
    Boxed { head: u32, args: Vec<TypeRef> },
    /// The constructor at this index among the declarations, without its number.
    Bare { entry: u32, args: Vec<TypeRef> },
}

// By hand, so that each exit of an owner has one call to prove.
impl Drop for TypeRef {
    fn drop(self) {
        match self {
            TypeRef::Int | TypeRef::Long | TypeRef::Nat | TypeRef::Double => {}
            TypeRef::Int128 | TypeRef::Int256 | TypeRef::Str | TypeRef::Raw => {}
            TypeRef::Flag | TypeRef::Call | TypeRef::Var { index: _ } => {}
            TypeRef::Vector { boxed: _, item: _ } => {}
            TypeRef::Boxed { head: _, args: _ } => {}
            TypeRef::Bare { entry: _, args: _ } => {}
        }
    }
}

/// A field of a declaration.
pub struct SchemaField {
    pub name: Bytes,
    /// The index of the `#` field and its bit, from 0, where the field has a condition.
    pub cond: Option<(u32, u32)>,
    /// The index of the variable that the result of the call is, where the field is a call.
    pub var: Option<u32>,
    pub of: TypeRef,
}

// By hand, so that each exit of an owner has one call to prove.
impl Drop for SchemaField {
    fn drop(self) {
        let SchemaField {
            name: _,
            cond: _,
            var: _,
            of: _,
        } = self;
    }
}

/// A declaration: its name, its number, how many variables it has, its fields, and what it constructs or results in.
pub struct Entry {
    pub name: Bytes,
    /// The line of a built-in type has the number 0, but that of `vector` 1cb5c415.
    pub number: u32,
    pub vars: u32,
    pub fields: Vec<SchemaField>,
    /// Whether it is an own function; the line of a built-in type is none.
    pub function: bool,
    /// The number of the type that it constructs; of a function and of a built-in type's line the number of types.
    pub head: u32,
    pub result: TypeRef,
}

// By hand, so that each exit of an owner has one call to prove.
impl Drop for Entry {
    fn drop(self) {
        let Entry {
            name: _,
            number: _,
            vars: _,
            fields: _,
            function: _,
            head: _,
            result: _,
        } = self;
    }
}

/// A schema: a program that passes the checks, and its entries. It keeps the program's text for clauses alone.
pub struct Schema {
    index: Index,
    entries: Vec<Entry>,
    constructors: Names,
    functions: Names,
    numbers: IndexMap<u32, u32, NameHash>,
    marks: Vec<bool>,
}

// By hand, so that each exit of an owner has one call to prove.
impl Drop for Schema {
    fn drop(self) {
        let Schema {
            index: _,
            entries: _,
            constructors: _,
            functions: _,
            numbers: _,
            marks: _,
        } = self;
    }
}

impl Model for Schema {
    ghost use Rattle.std.specs.Prelude.{map};
    ghost use Rattle.tl_schema.specs.Schemas.{Declared};
    ghost use Rattle.tl_schema.specs.Seen.{declaration};
    ghost use Rattle.tl_schema.specs.inner.SchemaCodes.{declared_code};
    ghost use Rattle.tl_schema.specs.inner.SchemaParts.{IsSound};

    ghost Value = { Declared };

    ghost coded = { declared_code };

    ghost view = { λ s. record { program = s.index; decls = map declaration s.entries.items } };

    ghost invariant = { λ s. IsSound (record { program = s.index; decls = map declaration s.entries.items }) s.constructors s.functions s.numbers.entries s.marks.items };
}

impl Schema {
    pub(crate) fn new(
        index: Index,
        entries: Vec<Entry>,
        constructors: Names,
        functions: Names,
        numbers: IndexMap<u32, u32, NameHash>,
        marks: Vec<bool>,
    ) -> Schema
        requires { IsSound (record { program = index; decls = map declaration entries.items }) constructors functions numbers.entries marks.items }
        ensures value { result ≡ record { program = index; decls = map declaration entries.items } }
    {
        Schema {
            index,
            entries,
            constructors,
            functions,
            numbers,
            marks,
        }
    }

    /// The number of declarations.
    pub fn count(&self) -> u32
        ensures count { result ≡ length self.now.decls }
        ensures sound { IsSchema self.now }
    {
        self.entries.len() as u32
    }

    /// The number of types.
    pub fn type_count(&self) -> u32
        ensures { result ≡ length (types_of self.now.program) }
    {
        self.index.type_count()
    }

    /// The hash of its names and numbers.
    pub fn hash(&self) -> NameHash {
        self.index.hash()
    }

    /// The entry of the declaration at an index.
    pub fn entry(&self, i: u32) -> &Entry
        requires { i < length self.now.decls }
        ensures { slice_get self.now.decls i ≡ Some (declaration result.now) }
    {
        &self.entries[i as usize]
    }

    /// The index of the function with this name, or of the constructor; the line of a built-in type is a constructor.
    pub fn find(&self, name: &[u8], function: bool) -> Option<u32>
        ensures { Finds self.now.decls name.now function result }
    {
        if function {
            self.functions.get(name)
        } else {
            self.constructors.get(name)
        }
    }

    /// The index of the declaration with this number, which the lines of built-in types have not.
    pub fn numbered(&self, number: u32) -> Option<u32>
        ensures found { FindsNumber self.now.program number result }
        ensures sound { IsSchema self.now }
    {
        self.numbers.get(&number).copied()
    }

    /// Whether the declaration at an index is a constructor that takes no bytes.
    pub fn takes_none(&self, i: u32) -> bool
        ensures { IsTrue result ↔ TakesNone self.now.program i }
    {
        is_marked(&self.marks, i)
    }

    /// The constructors and the types of its program, by name.
    pub(crate) fn index(&self) -> &Index
        ensures same { result.now ≡ self.now.program }
        ensures sound { IsSchema self.now }
    {
        &self.index
    }

    /// Which constructors take no bytes.
    pub(crate) fn marks(&self) -> &[bool]
        ensures { MarksEmpty self.now.program result.now }
    {
        self.marks.as_slice()
    }
}
