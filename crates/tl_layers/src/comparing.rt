//! Comparing two schemas.
ghost use Rattle.std.specs.Prelude.{◌≡◌, ◌<◌, ◌^◌, ℕ, IfOk, if◌then◌else◌, length};
ghost use Rattle.std.specs.List.{count_by};
ghost use Rattle.tl_schema.specs.Formed.{IsFormed};
ghost use Rattle.tl_schema.specs.Seen.{shape};
ghost use Rattle.tl_layers.specs.Breaks.{Breaks, IsUnbroken, rank};
ghost use Rattle.tl_layers.specs.Compared.{Agrees, Compares, RefusesFor};
ghost use Rattle.tl_layers.specs.inner.Tables.{NotesOne, TellsAll, earlier};
ghost use Rattle.tl_layers.specs.declared.fault.Break.{Break};

use crate::fault::{Break, LayerFault};
use crate::images::image_of;
use crate::layers::Layers;
use crate::moved::{Moved, moved_of};
use crate::naming::reached_by;
use crate::pairs::Pair;
use std::alloc::{AllocError, Global};
use tl_schema::{Schema, TypeRef};

/// Whether the new schema reads the bytes of plain values of this type of the old one: where they are spelled, or the first break.
pub fn compare<'s>(
    alloc: Global,
    old: &'s Schema,
    new: &'s Schema,
    of: &'s TypeRef,
) -> Result<Layers<'s>, LayerFault>
    requires formed { IsFormed old.now (shape of.now) }
    // What is answered is so by the definitions.
    ensures compares { Compares (record { old = old.now; new = new.now; of = shape of.now }) result }
    // Where nothing breaks the answer is yes, and where something does it is this break.
    ensures agrees { IsUnbroken old.now new.now (shape of.now) → Agrees (record { old = old.now; new = new.now; of = shape of.now }) result }
    ensures refuses { (i : ℕ) (cause : Break) → Breaks old.now new.now (shape of.now) i cause → RefusesFor i cause result }
{
    compared(alloc, old, new, of)
}

fn compared<'s>(
    alloc: Global,
    old: &'s Schema,
    new: &'s Schema,
    of: &'s TypeRef,
) -> Result<Layers<'s>, LayerFault>
    requires formed { IsFormed old.now (shape of.now) }
    ensures compares { Compares (record { old = old.now; new = new.now; of = shape of.now }) result }
{
    let reached = reached_by(alloc, old, of)?;
    let pair = Pair::of(alloc, old, new)?;
    let moved = all_moved(alloc, &pair, &reached)?;
    let image = image_of(of, &pair, alloc)?;
    let count = count_of(&reached);
    Ok(Layers::new(old, new, of, image, moved, count))
}

// Where each declaration that is marked has moved, or their first break.
fn all_moved(alloc: Global, pair: &Pair, marks: &[bool]) -> Result<Vec<Option<Moved>>, LayerFault>
    requires { length marks.now ≡ length pair.now.old.decls }
    ensures { TellsAll pair.now marks.now result }
{
    let mut moved = Vec::new(alloc);
    let mut first: Option<(u32, Break)> = None;
    for i in 0..pair.old_schema().count() {
        first = note(alloc, &mut moved, first, pair, marks[i as usize], i)?;
    }
    match first {
        Some((decl, cause)) => Err(LayerFault::Broken { decl, cause }),
        None => Ok(moved),
    }
}

// Notes where one declaration has moved if it is marked, and tells the first break so far.
fn note(
    alloc: Global,
    moved: &mut Vec<Option<Moved>>,
    first: Option<(u32, Break)>,
    pair: &Pair,
    is_marked: bool,
    i: u32,
) -> Result<Option<(u32, Break)>, AllocError>
    requires { i < length pair.now.old.decls }
    ensures { IfOk result (λ after. NotesOne pair.now is_marked i moved.old.items first moved.new.items after) }
{
    if !is_marked {
        moved.push(None)?;
        return Ok(first);
    }
    match moved_of(alloc, pair, i) {
        Ok(one) => {
            moved.push(Some(one))?;
            Ok(first)
        }
        Err(LayerFault::Broken { cause, .. }) => {
            moved.push(None)?;
            Ok(Some(earlier(first, i, cause)))
        }
        Err(LayerFault::Memory) => Err(AllocError),
    }
}

// Of two breaks that whose cause comes first, and of one cause that which was there.
fn earlier(before: Option<(u32, Break)>, decl: u32, cause: Break) -> (u32, Break)
    ensures { result ≡ earlier before decl cause }
{
    match before {
        Some((other, first)) => {
            if rank(first) <= rank(cause) {
                (other, first)
            } else {
                (decl, cause)
            }
        }
        None => (decl, cause),
    }
}

// The index of a cause in their order.
fn rank(cause: Break) -> u32
    ensures { result ≡ rank cause }
{
    match cause {
        Break::Gone => 0,
        Break::NewNumber => 1,
        Break::NewVars => 2,
        Break::TypeSplit => 3,
        Break::FieldGone { .. } => 4,
        Break::FieldOrder { .. } => 5,
        Break::FieldChanged { .. } => 6,
        Break::FieldAdded { .. } => 7,
    }
}

// How many are marked.
fn count_of(marks: &[bool]) -> u32
    requires { length marks.now < 2 ^ 32 }
    ensures { result ≡ count_by (λ b. b) marks.now }
{
    let mut count = 0u32;
    for mark in marks {
        count += one_if(*mark);
    }
    count
}

fn one_if(is: bool) -> u32
    ensures { result ≡ (if is then 1 else 0) }
{
    if is { 1 } else { 0 }
}
