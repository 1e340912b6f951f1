//! Values from inputs of JSON.
ghost use Rattle.tl_schema.specs.Seen.{shape};
ghost use Rattle.tl_show.specs.inner.Kept.{AreKeysOf};
ghost use Rattle.tl_types.specs.Fitting.{misfit};
ghost use Rattle.outside.specs.Loading.{RefusesAs};
ghost use Rattle.schema_files.specs.Causes.{Misfit, Unformed};
ghost use Rattle.schema_files.specs.Lines.{json_line};
ghost use Rattle.schema_files.specs.Parts.{ReadsForm, TellsUnfit};
ghost use Rattle.schema_files.specs.inner.Tellings.{TellsNoForm};

use crate::lines::{form_text, misfit_text};
use outside::LoadError;
use std::alloc::Global;
use tl_schema::{Schema, TypeRef};
use tl_show::{FormCause, JsonKeys, JsonTextFault};
use tl_types::{FitFault, MisfitCause, Value, fits};

/// The most bytes that an input of JSON may have.
pub const JSON_BYTES: u32 = 16_777_216;

// What is told of JSON that isn't of the form of a type's values.
fn form_error(alloc: Global, path: &[u32], cause: FormCause) -> LoadError
    ensures { RefusesAs (json_line (Unformed path.now cause)) result }
{
    match form_text(alloc, path, cause) {
        Ok(why) => LoadError::unplaced(alloc, "input", why.as_str()),
        Err(_) => LoadError::Memory,
    }
}

// What is told of JSON of a value that doesn't fit.
fn misfit_error(alloc: Global, path: &[u32], cause: MisfitCause) -> LoadError
    ensures { RefusesAs (json_line (Misfit path.now cause)) result }
{
    match misfit_text(alloc, path, cause) {
        Ok(why) => LoadError::unplaced(alloc, "input", why.as_str()),
        Err(_) => LoadError::Memory,
    }
}

/// What is told of JSON of a value that doesn't fit, or that memory was out.
pub fn fit_error(alloc: Global, fault: &FitFault) -> LoadError
    ensures { TellsUnfit fault.now result }
{
    match fault {
        FitFault::Misfit(misfit) => misfit_error(alloc, &misfit.path, misfit.cause),
        FitFault::Memory => LoadError::Memory,
    }
}

// What is told of a text that is the form of no value.
fn json_error(alloc: Global, fault: &JsonTextFault) -> LoadError
    ensures { TellsNoForm fault.now result }
{
    match fault {
        JsonTextFault::NoJson => LoadError::unplaced(alloc, "input", "Json"),
        JsonTextFault::Form { path, cause } => form_error(alloc, path, *cause),
        JsonTextFault::Memory => LoadError::Memory,
    }
}

/// The value that a text is the form of, whether it fits its type or not, by the keys that were made of the schema.
pub fn form_by(
    alloc: Global,
    keys: &JsonKeys,
    schema: &Schema,
    of: &TypeRef,
    text: &[u8],
) -> Result<Value, LoadError>
    requires made { AreKeysOf schema.now keys.now }
    ensures { ReadsForm schema.now (shape of.now) text.now result }
{
    if text.len() > JSON_BYTES as usize {
        return Err(LoadError::unplaced(alloc, "input", "TooLong"));
    }
    match keys.read(alloc, schema, of, text) {
        Ok(value) => Ok(value),
        Err(fault) => Err(json_error(alloc, &fault)),
    }
}

/// The value that a text is the form of, whether it fits its type or not.
pub fn formed_value(
    alloc: Global,
    schema: &Schema,
    of: &TypeRef,
    text: &[u8],
) -> Result<Value, LoadError>
    ensures { ReadsForm schema.now (shape of.now) text.now result }
{
    match JsonKeys::of(alloc, schema) {
        Ok(keys) => form_by(alloc, &keys, schema, of, text),
        Err(_) => Err(LoadError::Memory),
    }
}
