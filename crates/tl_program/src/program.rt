//! What a text declares.
ghost use Rattle.std.specs.Prelude.{◌≡◌};
ghost use Rattle.tl_program.specs.Program.{decl_text};

use crate::tree::TypeTree;
use tl_numbers::Bytes;

/// The condition `F.N?`: the field stands where bit N of the `#` field F is set.
pub struct Cond {
    pub flags: Bytes,
    pub bit: u32,
}

// By hand, so that each exit of an owner has one call to prove.
impl Drop for Cond {
    fn drop(self) {
        let Cond { flags: _, bit: _ } = self;
    }
}

/// What a field holds.
pub enum FieldKind {
    /// `#`.
    Nat,
    /// `?true`, after a condition: a flag of no bytes.
    Flag,
    /// `!X`: a call whose result is X.
    Call { var: Bytes },
    Of { tree: TypeTree },
}

// By hand, so that each exit of an owner has one call to prove.
impl Drop for FieldKind {
    fn drop(self) {
        match self {
            FieldKind::Nat | FieldKind::Flag => {}
            FieldKind::Call { var: _ } => {}
            FieldKind::Of { tree: _ } => {}
        }
    }
}

/// A field of a declaration.
pub struct Field {
    pub name: Bytes,
    pub cond: Option<Cond>,
    pub kind: FieldKind,
}

// By hand, so that each exit of an owner has one call to prove.
impl Drop for Field {
    fn drop(self) {
        let Field {
            name: _,
            cond: _,
            kind: _,
        } = self;
    }
}

/// A declaration of a constructor or a function, or the line of a built-in type.
pub struct Decl {
    pub name: Bytes,
    /// The number that is written.
    pub number: Option<u32>,
    pub vars: Vec<Bytes>,
    pub fields: Vec<Field>,
    pub result: TypeTree,
    pub function: bool,
    pub builtin: bool,
    /// The description, see [`Decl::description`].
    pub text: Bytes,
}

// By hand, so that each exit of an owner has one call to prove.
impl Drop for Decl {
    fn drop(self) {
        let Decl {
            name: _,
            number: _,
            vars: _,
            fields: _,
            result: _,
            function: _,
            builtin: _,
            text: _,
        } = self;
    }
}

impl Decl {
    /// The text on which an unwritten number rests: the declaration without its number, braces, `;`, `>` and flags.
    pub fn description(&self) -> &[u8]
        ensures { result.now ≡ (decl_text self.now).text }
    {
        self.text.as_slice()
    }
}

/// The declarations of a text, in its order.
#[derive(Drop)]
pub struct Program {
    pub decls: Vec<Decl>,
}
