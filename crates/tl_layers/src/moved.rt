//! Where declarations have moved.
ghost use Rattle.std.specs.Prelude.{◌≡◌, ◌<◌, IfOk, Some, length, map, slice_get};
ghost use Rattle.tl_schema.specs.Seen.{declaration};
ghost use Rattle.tl_types.specs.Parts.{fields_in};
ghost use Rattle.tl_layers.specs.Breaks.{ArePair, IsSplit, field_index};
ghost use Rattle.tl_layers.specs.Counterparts.{counterpart};
ghost use Rattle.tl_layers.specs.inner.FieldBreaks.{IsFirstBreak, IsHeadBreak};
ghost use Rattle.tl_layers.specs.inner.Tables.{TellsMoved};
ghost use Rattle.std.specs.Prelude.{IsTrue, ◌↔◌};

use crate::fault::{Break, LayerFault};
use crate::field_breaks::field_break;
use crate::fields::Fields;
use crate::pairs::Pair;
use std::alloc::{AllocError, Global};
use tl_schema::Entry;

/// The counterpart of a declaration, and for each of its fields the index of the old field of its name.
pub struct Moved {
    pub entry: u32,
    pub from: Vec<Option<u32>>,
}

// By hand, so that each exit of an owner has one call to prove.
impl Drop for Moved {
    fn drop(self) {
        let Moved { entry: _, from: _ } = self;
    }
}

/// Where a declaration has moved, or its first break: the first in their order, at its first field.
pub fn moved_of(alloc: Global, pair: &Pair, i: u32) -> Result<Moved, LayerFault>
    requires { i < length pair.now.old.decls }
    ensures { TellsMoved pair.now i result }
{
    let Some(j) = pair.counterpart(i) else {
        return Err(LayerFault::Broken {
            decl: i,
            cause: Break::Gone,
        });
    };
    let olds = Fields::of(alloc, pair.old_schema(), i)?;
    let news = Fields::of(alloc, pair.new_schema(), j)?;
    match break_of(pair, i, j, &olds, &news) {
        Some(cause) => Err(LayerFault::Broken { decl: i, cause }),
        None => Ok(Moved {
            entry: j,
            from: origins_of(alloc, &olds, &news)?,
        }),
    }
}

// The first break of a declaration that has this counterpart.
fn break_of(pair: &Pair, i: u32, j: u32, olds: &Fields, news: &Fields) -> Option<Break>
    requires here { i < length pair.now.old.decls }
    requires there { j < length pair.now.new.decls }
    requires counterpart { counterpart pair.now.old pair.now.new i ≡ Some j }
    requires olds { olds.now ≡ fields_in (slice_get pair.now.old.decls i) }
    requires news { news.now ≡ fields_in (slice_get pair.now.new.decls j) }
    ensures { IsFirstBreak pair.now i result }
{
    let old = pair.old_schema().entry(i);
    let new = pair.new_schema().entry(j);
    match head_break(pair, old, new) {
        Some(cause) => Some(cause),
        None => field_break(pair, olds, news),
    }
}

// The first break before those of fields.
fn head_break(pair: &Pair, old: &Entry, new: &Entry) -> Option<Break>
    ensures { IsHeadBreak pair.now (declaration old.now) (declaration new.now) result }
{
    if new.number != old.number {
        Some(Break::NewNumber)
    } else if new.vars != old.vars {
        Some(Break::NewVars)
    } else if is_split(pair, old, new) {
        Some(Break::TypeSplit)
    } else {
        None
    }
}

// Whether the new declaration makes another type than the counterpart of the first constructor of the old one's type.
fn is_split(pair: &Pair, old: &Entry, new: &Entry) -> bool
    ensures { IsTrue result ↔ IsSplit pair.now.old pair.now.new (declaration old.now) (declaration new.now) }
{
    if old.function {
        return false;
    }
    match pair.first(old.head) {
        Some(c) => match pair.counterpart(c) {
            Some(a) => new.head != pair.new_schema().entry(a).head,
            None => false,
        },
        None => false,
    }
}

// For each new field the index of the old one of its name.
fn origins_of(alloc: Global, olds: &Fields, news: &Fields) -> Result<Vec<Option<u32>>, AllocError>
    ensures { IfOk result (λ from. from.items ≡ map (λ g. field_index olds.now g.name) news.now) }
{
    let mut from = Vec::new(alloc);
    for m in 0..news.count() {
        from.push(olds.index_of(news.at(m).name.as_slice()))?;
    }
    Ok(from)
}
