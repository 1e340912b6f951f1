//! The declarations of a program by name.
ghost use Rattle.std.specs.Prelude.{◌≡◌, ◌∷◌, [], ◌++◌, ◌<◌, ◌≤◌, ◌^◌, ℕ, List, length, slice_get, IfOk, OnOk, None, Some};
ghost use Rattle.tl_program.specs.Program.{DeclText, decl_text, program_text};
ghost use Rattle.tl_names.specs.Constructors.{IsFamily, var_counts};
ghost use Rattle.tl_names.specs.inner.Indexed.{AreNumbered, Changes, IndexesNames, IndexesTypes, one_more};
ghost use Rattle.tl_names.specs.NameIndexes.{index_among};
ghost use Rattle.tl_names.specs.Indexes.{first_numbered, types_of};
ghost use Rattle.tl_names.specs.What.{base_what, constructor_named, declared_what, known_what, type_meant, type_named, unless_variable};
ghost use Rattle.tl_names.specs.Writing.{own_type};

use crate::name_hash::NameHash;
use crate::names::Names;
use crate::what::What;
use crate::writing::{is_constructor, is_type_name, own_type};
use std::alloc::{AllocError, Global};
use std::marker::Model;
use std::snapshot::Snapshot;
use tl_program::{BuiltIn, Decl, Program};

/// The constructors of a type: the index of the first and how many variables it has, whether it is the only one, and whether
/// another has another number of variables.
#[derive(Clone, Copy)]
pub struct Constructors {
    pub first: u32,
    pub vars: usize,
    pub only: bool,
    pub uneven: bool,
}

/// The own constructors and the types of a program, to be found by name. It keeps the program's text for clauses alone.
pub struct Index {
    program: Snapshot<Program>,
    hash: NameHash,
    names: Names,
    types: Names,
    families: Vec<Constructors>,
    vars: Vec<usize>,
}

// By hand, so that each exit of an owner has one call to prove.
impl Drop for Index {
    fn drop(self) {
        let Index {
            program: _,
            hash: _,
            names: _,
            types: _,
            families: _,
            vars: _,
        } = self;
    }
}

impl Model for Index {
    ghost use Rattle.std.specs.Prelude.{List};
    ghost use Rattle.tl_program.specs.Program.{DeclText, program_text};
    ghost use Rattle.tl_names.specs.inner.DeclCodes.{decls_code};

    ghost Value = { List DeclText };

    ghost coded = { decls_code };

    ghost use Rattle.tl_names.specs.inner.Indexed.{IsIndex};

    ghost view = { λ x. program_text x.program.value };

    ghost invariant = { λ x. IsIndex (program_text x.program.value) x.names x.types x.families.items x.vars.items };
}

impl Index {
    /// Goes through a program once.
    pub fn of(alloc: Global, program: &Program) -> Result<Index, AllocError>
        requires { length (program_text program.now) < 2 ^ 32 }
        ensures { IfOk result (λ x. x ≡ program_text program.now) }
    {
        let hash = NameHash::of(program);
        let mut names = Names::new(alloc, hash);
        let mut types = Names::new(alloc, hash);
        let mut families = Vec::new(alloc);
        let mut vars = Vec::new(alloc);
        for (at, decl) in program.decls.iter().enumerate() {
            note_name(alloc, &mut names, decl, at as u32)?;
            note_type(alloc, &mut types, &mut families, decl, at as u32)?;
            vars.push(decl.vars.len())?;
        }
        Ok(Index {
            program: Snapshot::of(program),
            hash,
            names,
            types,
            families,
            vars,
        })
    }

    /// The hash of the program's names and numbers.
    pub fn hash(&self) -> NameHash {
        self.hash
    }

    /// What a name means where a declaration with these variables writes it.
    pub fn what(&self, vars: &Names, name: &[u8]) -> What
        ensures { result ≡ unless_variable (index_among vars.now name.now) (known_what self.now name.now) }
    {
        match vars.get(name) {
            Some(index) => What::Variable { index },
            None => self.known(name),
        }
    }

    // What a name means that no variable has.
    fn known(&self, name: &[u8]) -> What
        ensures { result ≡ known_what self.now name.now }
    {
        match BuiltIn::of(name) {
            Some(built_in) => base_what(built_in),
            None => {
                if name == b"Vector".as_slice() {
                    What::Vector { is_boxed: true }
                } else {
                    self.declared(name)
                }
            }
        }
    }

    // The type that is declared under a name, or the constructor.
    fn declared(&self, name: &[u8]) -> What
        ensures { result ≡ declared_what self.now name.now }
    {
        if is_type_name(name) {
            match self.type_number(name) {
                Some(number) => What::Type { number },
                None => What::Unknown,
            }
        } else {
            match self.constructor(name) {
                Some(index) => What::Constructor { index },
                None => What::Unknown,
            }
        }
    }

    /// The number of the type that a name means, where a constructor makes one.
    pub fn type_meant(&self, what: What) -> Option<u32>
        ensures { result ≡ type_meant self.now what }
    {
        match what {
            What::Type { number } => Some(number),
            What::Vector { is_boxed: true } => self.type_number(b"Vector".as_slice()),
            _ => None,
        }
    }

    /// The index of the first constructor with this name.
    pub fn constructor(&self, name: &[u8]) -> Option<u32>
        ensures { result ≡ constructor_named self.now name.now }
    {
        self.names.get(name)
    }

    /// The number of the type with this name.
    pub fn type_number(&self, name: &[u8]) -> Option<u32>
        ensures { result ≡ type_named self.now name.now }
    {
        self.types.get(name)
    }

    /// The number of types.
    pub fn type_count(&self) -> u32
        ensures { result ≡ length (types_of self.now) }
    {
        self.families.len() as u32
    }

    /// The constructors of the type with this number; none where no type has it.
    pub fn family(&self, number: u32) -> Option<Constructors>
        ensures family { (type : List ℕ) → type_named self.now type ≡ Some number → IsFamily self.now type result }
        ensures none { length (types_of self.now) ≤ number → result ≡ None }
    {
        self.families.get(number as usize).copied()
    }

    /// The number of variables of the declaration at an index; none after the last.
    pub fn var_count(&self, at: u32) -> Option<usize>
        ensures { result ≡ slice_get (var_counts self.now) at }
    {
        self.vars.get(at as usize).copied()
    }

    /// The index of the first constructor of the type with this number; the number of declarations where no type has it.
    pub fn first(&self, number: u32) -> u32
        ensures { result ≡ first_numbered self.now number }
    {
        match self.family(number) {
            Some(constructors) => constructors.first,
            None => self.count(),
        }
    }

    // The number of declarations.
    fn count(&self) -> u32
        ensures { result ≡ length self.now }
    {
        self.vars.len() as u32
    }
}

// A built-in bare type, as what its name means.
fn base_what(built_in: BuiltIn) -> What
    ensures { result ≡ base_what built_in }
{
    match built_in {
        BuiltIn::Vector => What::Vector { is_boxed: false },
        _ => What::Base { built_in },
    }
}

// Notes the name of one more declaration, which stands at this index, after the others.
fn note_name(alloc: Global, names: &mut Names, decl: &Decl, at: u32) -> Result<(), AllocError>
    ensures { OnOk result ((ds : List DeclText) → length ds ≡ at → IndexesNames ds names.old → IndexesNames (ds ++ decl_text decl.now ∷ []) names.new) }
{
    if is_constructor(decl) {
        names.note(alloc, decl.name.as_slice(), at)?;
    }
    Ok(())
}

// Notes the type that one more declaration makes.
fn note_type(
    alloc: Global,
    types: &mut Names,
    families: &mut Vec<Constructors>,
    decl: &Decl,
    at: u32,
) -> Result<(), AllocError>
    requires numbered { AreNumbered types.old families.old.items }
    requires few { length families.old.items ≤ at }
    ensures { OnOk result ((ds : List DeclText) → length ds ≡ at → IndexesTypes ds types.old families.old.items → IndexesTypes (ds ++ decl_text decl.now ∷ []) types.new families.new.items) }
{
    match own_type(decl) {
        Some(name) => add_type(alloc, types, families, name, at, decl.vars.len()),
        None => Ok(()),
    }
}

// The constructors of a type with one more, which has so many variables, at an index after the others.
fn one_more(found: Option<Constructors>, at: u32, vars: usize) -> Constructors
    ensures { result ≡ one_more at vars found }
{
    match found {
        Some(constructors) => Constructors {
            first: constructors.first,
            vars: constructors.vars,
            only: false,
            uneven: constructors.uneven || constructors.vars != vars,
        },
        None => Constructors {
            first: at,
            vars,
            only: true,
            uneven: false,
        },
    }
}

// Adds one more constructor of a type.
fn add_type(
    alloc: Global,
    types: &mut Names,
    families: &mut Vec<Constructors>,
    name: &[u8],
    at: u32,
    vars: usize,
) -> Result<(), AllocError>
    requires numbered { AreNumbered types.old families.old.items }
    requires few { length families.old.items ≤ at }
    ensures { OnOk result (Changes types.old families.old.items types.new families.new.items name.now (one_more at vars)) }
{
    match types.get(name) {
        Some(number) => {
            let known = families[number as usize];
            families[number as usize] = one_more(Some(known), at, vars);
        }
        None => {
            types.note(alloc, name, families.len() as u32)?;
            families.push(one_more(None, at, vars))?;
        }
    }
    Ok(())
}
