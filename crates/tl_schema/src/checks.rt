//! Checks of a program, and the schema that it declares.
ghost use Rattle.std.specs.Prelude.{◌≡◌, ℕ, IfOk, OnOk, map};
ghost use Rattle.tl_program.specs.Program.{HasFewParts, IsWithinLimits, decl_text, program_text};
ghost use Rattle.tl_names.specs.MeantDecls.{meant_decl};
ghost use Rattle.tl_names.specs.MeantViews.{decl_view};
ghost use Rattle.tl_names.specs.inner.BareSteps.{MarksEmpty};
ghost use Rattle.tl_schema.specs.CheckCauses.{Passes, RefusedAt};
ghost use Rattle.tl_schema.specs.CheckedPrograms.{Checks, GivesSchema, IsSchemaOf, RefusesProgram};
ghost use Rattle.tl_schema.specs.declared.fault.CheckCause.{CheckCause};
ghost use Rattle.tl_schema.specs.inner.NamesNoted.{AreEntered, EntersOne, NotesOne};
ghost use Rattle.tl_schema.specs.inner.SchemaParts.{IsSound};
ghost use Rattle.tl_schema.specs.Seen.{declaration};

use crate::by_number::numbers_of;
use crate::entries::entry_of;
use crate::pass_checks::pass_checks;
use crate::{CheckFault, Entry, Schema};
use indexmap::IndexMap;
use std::alloc::{AllocError, Global};
use tl_combinators::{Decl, Program};
use tl_names::{Index, MeantDecl, NameHash, Names, is_function, resolve};

/// The indices of the declarations so far by their names.
#[derive(Drop)]
struct Known {
    constructors: Names,
    functions: Names,
}

/// The entries of the declarations so far, and the indices of their names.
#[derive(Drop)]
struct Entered {
    entries: Vec<Entry>,
    known: Known,
}

/// Checks a program, and makes the schema that it declares.
pub fn check(alloc: Global, program: &Program) -> Result<Schema, CheckFault>
    requires { IsWithinLimits (program_text program.now) }
    // What is answered is so by the definitions.
    ensures checks { Checks (program_text program.now) result }
    // A program that passes gives its schema, and one that is refused is refused at the same declaration for the same cause.
    ensures passes { Passes (program_text program.now) → GivesSchema (program_text program.now) result }
    ensures refuses { (k : ℕ) (cause : CheckCause) → RefusedAt (program_text program.now) k cause → RefusesProgram k cause result }
{
    checked_schema(alloc, program)
}

// The schema that a program declares, if it passes.
fn checked_schema(alloc: Global, program: &Program) -> Result<Schema, CheckFault>
    requires { IsWithinLimits (program_text program.now) }
    ensures { Checks (program_text program.now) result }
{
    let index = Index::of(alloc, program)?;
    let meant = resolve(alloc, &index, program)?;
    let marks = pass_checks(alloc, &index, program, &meant)?;
    let schema = declare(alloc, index, program, &meant, marks)?;
    Ok(schema)
}

// The schema that a program declares which passes the checks.
fn declare(
    alloc: Global,
    index: Index,
    program: &Program,
    meant: &[MeantDecl],
    marks: Vec<bool>,
) -> Result<Schema, AllocError>
    requires same { index ≡ program_text program.now }
    requires limits { IsWithinLimits (program_text program.now) }
    requires resolved { map decl_view meant.now ≡ map (meant_decl (program_text program.now)) (program_text program.now) }
    requires passes { Passes (program_text program.now) }
    requires empty { MarksEmpty (program_text program.now) marks.items }
    ensures { IfOk result (IsSchemaOf (program_text program.now)) }
{
    let entered = entered_of(alloc, &index, program, meant)?;
    let numbers = numbers_of(alloc, index.hash(), program)?;
    Ok(schema_of(index, entered, numbers, marks))
}

fn schema_of(
    index: Index,
    entered: Entered,
    numbers: IndexMap<u32, u32, NameHash>,
    marks: Vec<bool>,
) -> Schema
    requires { IsSound (record { program = index; decls = map declaration entered.entries.items }) entered.known.constructors entered.known.functions numbers.entries marks.items }
    ensures { result ≡ record { program = index; decls = map declaration entered.entries.items } }
{
    let Entered { entries, known } = entered;
    Schema::new(
        index,
        entries,
        known.constructors,
        known.functions,
        numbers,
        marks,
    )
}

// The entries of all declarations.
fn entered_of(
    alloc: Global,
    index: &Index,
    program: &Program,
    meant: &[MeantDecl],
) -> Result<Entered, AllocError>
    requires same { index.now ≡ program_text program.now }
    requires limits { IsWithinLimits (program_text program.now) }
    requires resolved { map decl_view meant.now ≡ map (meant_decl (program_text program.now)) (program_text program.now) }
    ensures { IfOk result (AreEntered (program_text program.now)) }
{
    let mut entered = Entered {
        entries: Vec::new(alloc),
        known: Known {
            constructors: Names::new(alloc, index.hash()),
            functions: Names::new(alloc, index.hash()),
        },
    };
    for (at, decl) in program.decls.iter().enumerate() {
        enter(alloc, &mut entered, index, decl, &meant[at], at as u32)?;
    }
    Ok(entered)
}

// Makes the entry of one declaration more.
fn enter(
    alloc: Global,
    entered: &mut Entered,
    index: &Index,
    decl: &Decl,
    meant: &MeantDecl,
    at: u32,
) -> Result<(), AllocError>
    requires few { HasFewParts (decl_text decl.now) }
    requires same { decl_view meant.now ≡ meant_decl index.now (decl_text decl.now) }
    ensures { OnOk result (EntersOne index.now entered.old entered.new (decl_text decl.now) at) }
{
    entered.entries.push(entry_of(alloc, index, decl, meant)?)?;
    note(alloc, &mut entered.known, decl, at)
}

// Notes the index of a declaration's name.
fn note(alloc: Global, known: &mut Known, decl: &Decl, at: u32) -> Result<(), AllocError>
    ensures { OnOk result (NotesOne known.old known.new (decl_text decl.now) at) }
{
    if is_function(decl) {
        known.functions.note(alloc, decl.name.as_slice(), at)?;
    } else {
        known.constructors.note(alloc, decl.name.as_slice(), at)?;
    }
    Ok(())
}
