//! Why no value is read from JSON.
ghost use Rattle.std.specs.Prelude.{◌≡◌};
ghost use Rattle.tl_types.specs.Values.{ValueView};
ghost use Rattle.tl_types.specs.Seen.{view};
ghost use Rattle.tl_show.specs.Reading.{Read, inside, told};
ghost use Rattle.tl_show.specs.inner.FormTells.{IsHere, Tells};

use std::alloc::{AllocError, AllocFailed, Global};
use thiserror::Error;
use tl_types::{FitFault, Misfit, Value};

/// Why JSON isn't of the form of a type's values, its parts aside.
#[derive(Clone, Copy, Debug, Error)]
pub enum FormCause {
    /// It is of another kind, among these a number that isn't whole, and text that isn't hexadecimal digits or not of the type's length.
    #[error("JSON of another kind")]
    WrongJson,
    /// The `_` of a record is missing or names no constructor of the type, or that of a call no function.
    #[error("no such name")]
    NoSuchName,
    /// A field has no key, though it has no condition.
    #[error("a field that is missing")]
    MissingField,
    /// A record or call has a key that is neither `_` nor a field's name.
    #[error("a key that is no field's")]
    ExtraField,
    /// A whole number is past the type.
    #[error("a number that is out of range")]
    OutOfRange,
}

/// Why no value is read from JSON.
#[derive(Debug, Drop, Error)]
pub enum JsonFault {
    /// The JSON isn't of the form of the type's values, for this cause at this part. The path is the way to the part, the outermost step first: a field
    /// by its index in the declaration, an element by its index in the list.
    #[error("{cause}")]
    Form { path: Vec<u32>, cause: FormCause },
    /// The JSON is of the form, and its value doesn't fit the type.
    #[error("a misfit: {}", .0.cause)]
    Misfit(Misfit),
    /// There was no memory for the value, for the keys of the schema's records, for the types of parts, or for the path.
    #[error("out of memory")]
    Memory,
}

/// Why a text is the form of no value.
#[derive(Debug, Drop, Error)]
pub enum JsonTextFault {
    /// The text is no UTF-8, no JSON, or JSON of more than 127 levels.
    #[error("no JSON")]
    NoJson,
    /// It is JSON that isn't of the form of the type's values, for this cause at this part. The path is as that of `JsonFault`.
    #[error("{cause}")]
    Form { path: Vec<u32>, cause: FormCause },
    /// There was no memory for the value, or for what it is read by.
    #[error("out of memory")]
    Memory,
}

// Why JSON isn't of a form, and where.
#[derive(Drop)]
pub enum FormFault {
    Form { path: Vec<u32>, cause: FormCause },
    Memory,
}

impl From<AllocError> for FormFault {
    ghost use Rattle.std.specs.Prelude.{◌≡◌};
    ghost use Rattle.tl_show.specs.declared.fault.FormFault.TheVariants.{Memory};

    ghost from_gives = { λ _ e. e ≡ Memory };

    fn from(_e: AllocError) -> FormFault {
        FormFault::Memory
    }
}

impl<T: Drop> From<AllocFailed<T>> for FormFault {
    ghost use Rattle.std.specs.Prelude.{◌≡◌};
    ghost use Rattle.tl_show.specs.declared.fault.FormFault.TheVariants.{Memory};

    ghost from_gives = { λ _ e. e ≡ Memory };

    fn from(_e: AllocFailed<T>) -> FormFault {
        FormFault::Memory
    }
}

impl From<FormFault> for JsonFault {
    ghost use Rattle.std.specs.Prelude.{◌≡◌};
    ghost use Rattle.tl_show.specs.inner.ReadFaults.{of_form};

    ghost from_gives = { λ f e. e ≡ of_form f };

    fn from(fault: FormFault) -> JsonFault {
        match fault {
            FormFault::Form { path, cause } => JsonFault::Form { path, cause },
            FormFault::Memory => JsonFault::Memory,
        }
    }
}

impl From<FitFault> for JsonFault {
    ghost use Rattle.std.specs.Prelude.{◌≡◌};
    ghost use Rattle.tl_show.specs.inner.ReadFaults.{of_fit};

    ghost from_gives = { λ f e. e ≡ of_fit f };

    fn from(fault: FitFault) -> JsonFault {
        match fault {
            FitFault::Misfit(misfit) => JsonFault::Misfit(misfit),
            FitFault::Memory => JsonFault::Memory,
        }
    }
}

impl From<serde_json::Error> for JsonTextFault {
    ghost use Rattle.tl_show.specs.inner.ReadFaults.{OfJsonError};

    ghost from_gives = { OfJsonError };

    fn from(error: serde_json::Error) -> JsonTextFault {
        if error.is_memory() {
            return JsonTextFault::Memory;
        }
        JsonTextFault::NoJson
    }
}

impl From<FormFault> for JsonTextFault {
    ghost use Rattle.std.specs.Prelude.{◌≡◌};
    ghost use Rattle.tl_show.specs.inner.ReadFaults.{text_fault};

    ghost from_gives = { λ f e. e ≡ text_fault f };

    fn from(fault: FormFault) -> JsonTextFault {
        match fault {
            FormFault::Form { path, cause } => JsonTextFault::Form { path, cause },
            FormFault::Memory => JsonTextFault::Memory,
        }
    }
}

/// A fault that lies in no part.
pub fn refused(alloc: Global, cause: FormCause) -> FormFault
    ensures { IsHere cause result }
{
    let path = Vec::new(alloc);
    FormFault::Form { path, cause }
}

/// What is read of the part at this index, as it is read of the whole.
pub fn at_part(index: usize, part: Result<Value, FormFault>) -> Result<Value, FormFault>
    ensures { (r : Read ValueView) → Tells view r part → Tells view (inside index r) result }
{
    match part {
        Err(FormFault::Form { mut path, cause }) => {
            path.insert(0, told(index))?;
            Err(FormFault::Form { path, cause })
        }
        part => part,
    }
}

// An index as a path has it.
fn told(index: usize) -> u32
    ensures { result ≡ told index }
{
    index.min(u32::MAX as usize) as u32
}
