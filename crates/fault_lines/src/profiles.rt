//! Schemas without the protocol's forms.
ghost use Rattle.std.specs.Prelude.{◌≡◌, IfOk, Some};
ghost use Rattle.fault_lines.specs.Profiled.{MakesProfile};
ghost use Rattle.fault_lines.specs.Profiles.{named_line, profile_line};

use outside::LoadError;
use std::alloc::{AllocError, Global};
use tl_base::Bytes;
use tl_schema::Schema;
use wire_profile::{Profile, ProfileFault};

// The line of a cause and the name that it is about.
fn named_line(alloc: Global, cause: &str, name: &Bytes) -> Result<Vec<u8>, AllocError>
    ensures { IfOk result (λ line. line.items ≡ named_line cause.now name.now) }
{
    let head = format!(in alloc; "tlbox: profile - {cause} ")?;
    let mut line = head.into_bytes();
    line.extend_from_slice(name.as_slice())?;
    line.push(b'\n')?;
    Ok(line)
}

/// The line of a schema that lacks one of the protocol's forms, or has another in its place.
pub fn profile_line(alloc: Global, fault: &ProfileFault) -> Result<Vec<u8>, AllocError>
    ensures { IfOk result (λ line. profile_line fault.now ≡ Some line.items) }
{
    match fault {
        ProfileFault::Missing { name } => named_line(alloc, "Missing", name),
        ProfileFault::Differs { name } => named_line(alloc, "Differs", name),
        ProfileFault::Memory => Err(AllocError),
    }
}

/// The profile that a schema is, or the refusal for the first form that it lacks or has otherwise.
pub fn profile_of<'s>(alloc: Global, schema: &'s Schema) -> Result<Profile<'s>, LoadError>
    ensures { MakesProfile schema.now result }
{
    match Profile::of(alloc, schema) {
        Ok(profile) => Ok(profile),
        Err(fault) => Err(LoadError::of_line(profile_line(alloc, &fault))),
    }
}
