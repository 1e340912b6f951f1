//! Types and declarations with each name resolved.
use crate::what::What;

/// A type with each name resolved.
pub enum Meant {
    Named { what: What, args: Vec<Meant> },
    /// What stands after `%`.
    Percent { meant: Box<Meant> },
    /// `!` alone.
    AnyCall,
}

// By hand, so that each exit of an owner has one call to prove.
impl Drop for Meant {
    fn drop(self) {
        match self {
            Meant::Named { what: _, args: _ } => {}
            Meant::Percent { meant: _ } => {}
            Meant::AnyCall => {}
        }
    }
}

/// The condition of a field.
#[derive(Clone, Copy)]
pub struct MeantCond {
    /// The index of the first field with the name that the condition asks for.
    pub flags: Option<u32>,
    pub bit: u32,
}

/// What a field holds.
pub enum MeantKind {
    /// `#`.
    Nat,
    /// `?true`, after a condition: a flag of no bytes.
    Flag,
    /// A call, by the index of the variable that its result is.
    Call { variable: Option<u32> },
    Of { meant: Meant },
}

// By hand, so that each exit of an owner has one call to prove.
impl Drop for MeantKind {
    fn drop(self) {
        match self {
            MeantKind::Nat | MeantKind::Flag | MeantKind::Call { variable: _ } => {}
            MeantKind::Of { meant: _ } => {}
        }
    }
}

/// A field of a declaration. Its name stands in the program.
pub struct MeantField {
    pub cond: Option<MeantCond>,
    pub kind: MeantKind,
}

// By hand, so that each exit of an owner has one call to prove.
impl Drop for MeantField {
    fn drop(self) {
        let MeantField { cond: _, kind: _ } = self;
    }
}

/// A declaration. Its name and those of its variables stand in the program.
pub struct MeantDecl {
    pub vars: u32,
    pub fields: Vec<MeantField>,
    pub result: Meant,
    pub function: bool,
    pub builtin: bool,
    /// The number of the type that it constructs, if it does.
    pub head: Option<u32>,
}

// By hand, so that each exit of an owner has one call to prove.
impl Drop for MeantDecl {
    fn drop(self) {
        let MeantDecl {
            vars: _,
            fields: _,
            result: _,
            function: _,
            builtin: _,
            head: _,
        } = self;
    }
}
