//! What is told of two schemas.
ghost use Rattle.outside.specs.Loading.{RefusesAs};
ghost use Rattle.tl_schema.specs.Formed.{IsFormed};
ghost use Rattle.tl_schema.specs.Seen.{shape};
ghost use Rattle.codec_commands.specs.Layers.{TellsLayers, layers_line};

use crate::lines::{break_text, yes_line};
use outside::LoadError;
use std::alloc::Global;
use tl_layers::{Break, LayerFault, compare};
use tl_schema::{Schema, TypeRef};

/// The line of a yes, or the refusal for the first break.
pub fn verdict_line(
    alloc: Global,
    old: &Schema,
    new: &Schema,
    of: &TypeRef,
) -> Result<Vec<u8>, LoadError>
    requires formed { IsFormed old.now (shape of.now) }
    ensures { TellsLayers old.now new.now (shape of.now) result }
{
    match compare(alloc, old, new, of) {
        Ok(layers) => {
            let line = yes_line(alloc, layers.count())?;
            Ok(line)
        }
        Err(LayerFault::Broken { decl, cause }) => Err(broken(alloc, decl, cause)),
        Err(LayerFault::Memory) => Err(LoadError::Memory),
    }
}

// The refusal of a declaration that breaks.
fn broken(alloc: Global, decl: u32, cause: Break) -> LoadError
    ensures { RefusesAs (layers_line decl cause) result }
{
    match break_text(alloc, cause) {
        Ok(why) => LoadError::of_decl(alloc, "layers", decl, why.as_str()),
        Err(_) => LoadError::Memory,
    }
}
