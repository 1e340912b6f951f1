//! Two schemas, and what stands in the second for the declarations and types of the first.
ghost use Rattle.std.specs.Prelude.{◌≡◌, ◌<◌, IfOk, IfSome, length, slice_get, true};
ghost use Rattle.tl_schema.specs.CheckedPrograms.{IsSchema};
ghost use Rattle.tl_layers.specs.Counterparts.{counterpart, counterpart_in, entry_image, first_constructor, head_at, head_image, if_own, is_own};
ghost use Rattle.tl_layers.specs.inner.Pairs.{AreFirsts, first_noted};

use std::alloc::{AllocError, Global};
use std::marker::Model;
use tl_schema::Schema;

/// An old schema and a new one. It keeps the number of new declarations, and of each type of the old schema the first constructor, at the end the first declaration that
/// constructs none.
#[derive(Drop)]
pub struct Pair<'s> {
    old: &'s Schema,
    new: &'s Schema,
    count: u32,
    firsts: Vec<Option<u32>>,
}

impl<'s> Model for Pair<'s> {
    ghost use Rattle.tl_layers.specs.inner.Pairs.{IsPair, PairView, pair_code};

    ghost Value = { PairView };

    ghost coded = { pair_code };

    ghost view = { λ p. record { old = p.old.now; new = p.new.now } };

    ghost invariant = { λ p. IsPair (record { old = p.old.now; new = p.new.now }) p.count p.firsts.items };
}

impl<'s> Pair<'s> {
    pub fn of(alloc: Global, old: &'s Schema, new: &'s Schema) -> Result<Pair<'s>, AllocError>
        ensures is { IfOk result (λ p. p ≡ record { old = old.now; new = new.now }) }
        ensures sound { IfOk result (λ _. IsSchema old.now × IsSchema new.now) }
    {
        let count = new.count();
        let firsts = firsts_of(alloc, old)?;
        Ok(Pair {
            old,
            new,
            count,
            firsts,
        })
    }

    pub fn old_schema(&self) -> &Schema
        ensures { result.now ≡ self.now.old }
    {
        self.old
    }

    pub fn new_schema(&self) -> &Schema
        ensures { result.now ≡ self.now.new }
    {
        self.new
    }

    /// The counterpart of a declaration; none past the last.
    pub fn counterpart(&self, i: u32) -> Option<u32>
        ensures is { result ≡ counterpart self.now.old self.now.new i }
        ensures within { IfSome result (λ j. j < length self.now.new.decls) }
    {
        counterpart(self.old, self.new, i)
    }

    /// The first constructor of a type.
    pub fn first(&self, head: u32) -> Option<u32>
        ensures { result ≡ first_constructor self.now.old head }
    {
        match self.firsts.get(head as usize) {
            Some(first) => *first,
            None => None,
        }
    }

    /// The counterpart of a declaration, or the number of new declarations.
    pub fn entry_image(&self, i: u32) -> u32
        ensures { result ≡ entry_image self.now.old self.now.new i }
    {
        self.counterpart(i).unwrap_or(self.count)
    }

    /// The number of a type's image.
    pub fn head_image(&self, head: u32) -> u32
        ensures { result ≡ head_image self.now.old self.now.new head }
    {
        let first = self.first(head);
        head_at(self.new, counterpart_in(self.old, self.new, first))
    }
}

// The counterpart of a declaration; none past the last.
fn counterpart(old: &Schema, new: &Schema, i: u32) -> Option<u32>
    ensures is { result ≡ counterpart old.now new.now i }
    ensures within { IfSome result (λ j. j < length new.now.decls) }
{
    if i < old.count() {
        let entry = old.entry(i);
        own_of(new, new.find(entry.name.as_slice(), entry.function))
    } else {
        None
    }
}

// The counterpart of a declaration, if there is this one.
fn counterpart_in(old: &Schema, new: &Schema, first: Option<u32>) -> Option<u32>
    ensures { result ≡ counterpart_in old.now new.now first }
{
    match first {
        Some(i) => counterpart(old, new, i),
        None => None,
    }
}

// The index, if the declaration there is no line of a built-in type.
fn own_of(new: &Schema, found: Option<u32>) -> Option<u32>
    ensures is { result ≡ if_own new.now found }
    ensures within { IfSome result (λ j. j < length new.now.decls) }
{
    match found {
        Some(j) => { if is_own(new, j) { Some(j) } else { None } }
        None => None,
    }
}

// Whether the declaration is there and is a function or constructs a type.
fn is_own(new: &Schema, j: u32) -> bool
    ensures is { result ≡ is_own new.now (slice_get new.now.decls j) }
    ensures within { result ≡ true → j < length new.now.decls }
{
    j < new.count() && (new.entry(j).function || new.entry(j).head < new.type_count())
}

// The number of the type that a declaration constructs; the number of types where it constructs none, or isn't there.
fn head_at(schema: &Schema, j: Option<u32>) -> u32
    ensures { result ≡ head_at schema.now j }
{
    match j {
        Some(j) => {
            if j < schema.count() {
                schema.entry(j).head
            } else {
                schema.type_count()
            }
        }
        None => schema.type_count(),
    }
}

// The first constructor of each type, and the first declaration that constructs none.
fn firsts_of(alloc: Global, schema: &Schema) -> Result<Vec<Option<u32>>, AllocError>
    ensures firsts { IfOk result (λ firsts. AreFirsts schema.now firsts.items) }
    ensures sound { IfOk result (λ _. IsSchema schema.now) }
{
    let mut firsts = vec![in alloc; None; schema.type_count() as usize + 1]?;
    for i in 0..schema.count() {
        note_first(&mut firsts, schema.entry(i).head, i);
    }
    Ok(firsts)
}

// Notes a declaration, if none was noted for what it constructs.
fn note_first(firsts: &mut Vec<Option<u32>>, head: u32, i: u32)
    ensures { firsts.new.items ≡ first_noted firsts.old.items head i }
{
    let head = head as usize;
    if head < firsts.len() && firsts[head].is_none() {
        firsts[head] = Some(i);
    }
}
