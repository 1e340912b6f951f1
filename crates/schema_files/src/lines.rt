//! The words of lines: names of causes, and their values.
ghost use Rattle.std.specs.Prelude.{◌≡◌, ◌++◌, IfOk, OnOk, string_bytes};
ghost use Rattle.outside.specs.Loading.{RefusesAs};
ghost use Rattle.schema_files.specs.Lines.{cause_text, check_name, form_cause_name, form_name, form_text, input_line, misfit_cause_name, misfit_text, path_text, steps_text, type_cause_name};

use outside::LoadError;
use std::alloc::{AllocError, Global};
use tl_combinators::UnsupportedForm;
use tl_schema::{CheckCause, TypeCause};
use tl_show::FormCause;
use tl_types::{Cause, MisfitCause};

/// A cause of bytes that are no spelling, and its values: the word of an unknown number as eight hexadecimal digits, a count in decimal.
pub fn cause_text(alloc: Global, cause: Cause) -> Result<String, AllocError>
    ensures { IfOk result (λ s. string_bytes s ≡ cause_text cause) }
{
    match cause {
        Cause::TooDeep => String::from_str(alloc, "TooDeep"),
        Cause::Truncated => String::from_str(alloc, "Truncated"),
        Cause::Packed => String::from_str(alloc, "Packed"),
        Cause::UnknownNumber { word } => {
            let digits = hex::encode(alloc, word.to_be_bytes())?;
            format!(in alloc; "UnknownNumber {digits}")
        }
        Cause::BadCount { word } => format!(in alloc; "BadCount {word}"),
        Cause::LongString => String::from_str(alloc, "LongString"),
        Cause::LooseString => String::from_str(alloc, "LooseString"),
        Cause::BadPadding => String::from_str(alloc, "BadPadding"),
    }
}

/// What is told of bytes that begin no spelling: the item at this offset of the input is none.
pub fn cause_error(alloc: Global, place: u64, cause: Cause) -> LoadError
    ensures { RefusesAs (input_line place (cause_text cause)) result }
{
    match cause_text(alloc, cause) {
        Ok(why) => LoadError::placed(alloc, "input", place, why.as_str()),
        Err(_) => LoadError::Memory,
    }
}

/// The name of a form that is left out.
pub fn form_name(form: UnsupportedForm) -> &'static str
    ensures { result.now ≡ form_name form }
{
    match form {
        UnsupportedForm::DependentNumber => "DependentNumber",
        UnsupportedForm::Multiplicity => "Multiplicity",
        UnsupportedForm::Lifecycle => "Lifecycle",
        UnsupportedForm::PartialApplication => "PartialApplication",
        UnsupportedForm::Anonymous => "Anonymous",
        UnsupportedForm::ObjectType => "ObjectType",
        UnsupportedForm::UnnamedField => "UnnamedField",
        UnsupportedForm::CallInConstructor => "CallInConstructor",
        UnsupportedForm::VectorNumber => "VectorNumber",
    }
}

/// The name of what is wrong with a declaration.
pub fn check_name(cause: CheckCause) -> &'static str
    ensures { result.now ≡ check_name cause }
{
    match cause {
        CheckCause::SameName => "SameName",
        CheckCause::UnknownType => "UnknownType",
        CheckCause::UnknownVariable => "UnknownVariable",
        CheckCause::WrongArity => "WrongArity",
        CheckCause::BadResult => "BadResult",
        CheckCause::NotBare => "NotBare",
        CheckCause::BadFlag => "BadFlag",
        CheckCause::SameNumber => "SameNumber",
        CheckCause::BareCycle => "BareCycle",
        CheckCause::EmptyElement => "EmptyElement",
    }
}

/// The name of what is wrong with a type.
pub fn type_cause_name(cause: TypeCause) -> &'static str
    ensures { result.now ≡ type_cause_name cause }
{
    match cause {
        TypeCause::UnknownType => "UnknownType",
        TypeCause::WrongArity => "WrongArity",
        TypeCause::NotBare => "NotBare",
        TypeCause::EmptyElement => "EmptyElement",
    }
}

// The name of a fault of the form.
fn form_cause_name(cause: FormCause) -> &'static str
    ensures { result.now ≡ form_cause_name cause }
{
    match cause {
        FormCause::WrongJson => "WrongJson",
        FormCause::NoSuchName => "NoSuchName",
        FormCause::MissingField => "MissingField",
        FormCause::ExtraField => "ExtraField",
        FormCause::OutOfRange => "OutOfRange",
    }
}

// The name of a misfit.
fn misfit_cause_name(cause: MisfitCause) -> &'static str
    ensures { result.now ≡ misfit_cause_name cause }
{
    match cause {
        MisfitCause::WrongKind => "WrongKind",
        MisfitCause::WrongConstructor => "WrongConstructor",
        MisfitCause::WrongCount => "WrongCount",
        MisfitCause::FlagMismatch => "FlagMismatch",
        MisfitCause::OutOfRange => "OutOfRange",
        MisfitCause::TooDeep => "TooDeep",
    }
}

// The indices of a path with a point between each two, or `-` where there is none.
fn path_text(alloc: Global, path: &[u32]) -> Result<String, AllocError>
    ensures { IfOk result (λ s. string_bytes s ≡ path_text path.now) }
{
    let [first, rest @ ..] = path else {
        return String::from_str(alloc, "-");
    };
    let mut text = format!(in alloc; "{first}")?;
    put_steps(alloc, rest, &mut text)?;
    Ok(text)
}

// Appends these indices, each after a point.
fn put_steps(alloc: Global, steps: &[u32], text: &mut String) -> Result<(), AllocError>
    ensures { OnOk result (string_bytes text.new ≡ string_bytes text.old ++ steps_text steps.now) }
{
    for index in steps {
        let step = format!(in alloc; ".{index}")?;
        text.push_str(step.as_str())?;
    }
    Ok(())
}

/// A fault of the form, and its path.
pub fn form_text(alloc: Global, path: &[u32], cause: FormCause) -> Result<String, AllocError>
    ensures { IfOk result (λ s. string_bytes s ≡ form_text path.now cause) }
{
    let path = path_text(alloc, path)?;
    let name = form_cause_name(cause);
    format!(in alloc; "{name} {path}")
}

/// A misfit, and its path.
pub fn misfit_text(alloc: Global, path: &[u32], cause: MisfitCause) -> Result<String, AllocError>
    ensures { IfOk result (λ s. string_bytes s ≡ misfit_text path.now cause) }
{
    let path = path_text(alloc, path)?;
    let name = misfit_cause_name(cause);
    let text = format!(in alloc; "Misfit {path} {name}")?;
    Ok(text)
}
