//! The checks in their order.
ghost use Rattle.std.specs.Prelude.{◌≡◌, ◌<◌, ◌^◌, Err, IfErr, IfOk, length, map};
ghost use Rattle.tl_program.specs.Program.{program_text};
ghost use Rattle.tl_names.specs.MeantDecls.{meant_decl};
ghost use Rattle.tl_names.specs.MeantViews.{decl_view};
ghost use Rattle.tl_names.specs.inner.BareSteps.{MarksEmpty};
ghost use Rattle.tl_schema.specs.CheckCauses.{Passes, PassesBy, meaning_causes, name_causes, reference_causes};
ghost use Rattle.tl_schema.specs.inner.CheckSteps.{ChecksBy, Found, PassesChecks};
ghost use Rattle.tl_names.specs.inner.Resolved.{AreResolved};

use crate::bad_flag::BadCondition;
use crate::bad_result::OtherResult;
use crate::empty_element::EmptyArgument;
use crate::not_bare::NoBare;
use crate::same_name::first_same_name;
use crate::same_number::first_same_number;
use crate::unknown_type::UnknownName;
use crate::unknown_variable::Misuse;
use crate::wrong_arity::WrongDecl;
use crate::{CheckCause, CheckFault};
use std::alloc::Global;
use tl_combinators::Program;
use tl_graph::{components_of, first_on_cycle};
use tl_names::{Index, MeantDecl, empties, first_that, first_that_writes, references};

// The fault of a declaration that was found, if one was.
fn fault_at(found: Option<u32>, cause: CheckCause) -> Result<(), CheckFault>
    ensures { Found found cause result }
{
    match found {
        Some(decl) => Err(CheckFault::Refused { decl, cause }),
        None => Ok(()),
    }
}

/// Refuses a program for the first cause that any of its declarations has, or marks the constructors that take no bytes.
pub fn pass_checks(
    alloc: Global,
    index: &Index,
    program: &Program,
    meant: &[MeantDecl],
) -> Result<Vec<bool>, CheckFault>
    requires same { index.now ≡ program_text program.now }
    requires resolved { map decl_view meant.now ≡ map (meant_decl (program_text program.now)) (program_text program.now) }
    requires few { length (program_text program.now) < 2 ^ 32 }
    ensures passed { IfOk result (λ marks. Passes (program_text program.now) × MarksEmpty (program_text program.now) marks.items) }
    ensures refused { IfErr result (λ fault. PassesChecks (program_text program.now) (Err fault)) }
{
    pass_names(alloc, index, program, meant)?;
    pass_meanings(alloc, index, program, meant)?;
    pass_references(alloc, index, program, meant)
}

// The checks of names, and of what they are applied to.
fn pass_names(
    alloc: Global,
    index: &Index,
    program: &Program,
    meant: &[MeantDecl],
) -> Result<(), CheckFault>
    requires same { index.now ≡ program_text program.now }
    requires few { length index.now < 2 ^ 32 }
    requires resolved { AreResolved index.now (map decl_view meant.now) }
    ensures { ChecksBy index.now name_causes result }
{
    fault_at(
        first_same_name(alloc, index.hash(), program)?,
        CheckCause::SameName,
    )?;
    fault_at(
        first_that_writes(index, program, meant, &UnknownName),
        CheckCause::UnknownType,
    )?;
    fault_at(
        first_that(index, program, meant, &Misuse),
        CheckCause::UnknownVariable,
    )?;
    fault_at(
        first_that(index, program, meant, &WrongDecl),
        CheckCause::WrongArity,
    )?;
    fault_at(
        first_that(index, program, meant, &OtherResult),
        CheckCause::BadResult,
    )
}

// The checks of what names mean.
fn pass_meanings(
    alloc: Global,
    index: &Index,
    program: &Program,
    meant: &[MeantDecl],
) -> Result<(), CheckFault>
    requires same { index.now ≡ program_text program.now }
    requires few { length index.now < 2 ^ 32 }
    requires resolved { AreResolved index.now (map decl_view meant.now) }
    ensures { ChecksBy index.now meaning_causes result }
{
    fault_at(
        first_that_writes(index, program, meant, &NoBare),
        CheckCause::NotBare,
    )?;
    fault_at(
        first_that(index, program, meant, &BadCondition),
        CheckCause::BadFlag,
    )?;
    fault_at(
        first_same_number(alloc, index.hash(), program)?,
        CheckCause::SameNumber,
    )
}

// The checks of bare references: cycles, whose values would have no end, and arguments that take no bytes.
fn pass_references(
    alloc: Global,
    index: &Index,
    program: &Program,
    meant: &[MeantDecl],
) -> Result<Vec<bool>, CheckFault>
    requires same { index.now ≡ program_text program.now }
    requires few { length index.now < 2 ^ 32 }
    requires resolved { AreResolved index.now (map decl_view meant.now) }
    ensures passed { IfOk result (λ marks. PassesBy index.now reference_causes × MarksEmpty index.now marks.items) }
    ensures refused { IfErr result (λ fault. ChecksBy index.now reference_causes (Err fault)) }
{
    let edges = references(alloc, index, meant)?;
    let found = components_of(alloc, &edges)?;
    let on_cycle = first_on_cycle(alloc, &edges, &found.ranks)?;
    fault_at(on_cycle, CheckCause::BareCycle)?;
    let marks = empties(alloc, index, meant, &found.order)?;
    let test = EmptyArgument {
        marks: marks.as_slice(),
    };
    let applied = first_that_writes(index, program, meant, &test);
    fault_at(applied, CheckCause::EmptyElement)?;
    Ok(marks)
}
