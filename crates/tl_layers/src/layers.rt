//! Two schemas, and a type of the first that reaches nothing that breaks.
ghost use Rattle.std.specs.Prelude.{◌≡◌, ℕ, List, IfOk};
ghost use Rattle.tl_schema.specs.Seen.{shape};
ghost use Rattle.tl_types.specs.Seen.{view};
ghost use Rattle.tl_types.specs.Spelling.{Spells};
ghost use Rattle.tl_layers.specs.Reached.{Reached};
ghost use Rattle.tl_layers.specs.Counterparts.{image};
ghost use Rattle.tl_layers.specs.Lifted.{lifted};
ghost use Rattle.tl_layers.specs.Plain.{IsPlain};
ghost use Rattle.tl_layers.specs.Compared.{IsCount, IsCounterpart};
ghost use Rattle.tl_layers.specs.LayerLaws.{AreLayers};
ghost use Rattle.tl_layers.specs.inner.Tables.{IsMade};

use crate::lifting::lift_value;
use crate::moved::Moved;
use std::alloc::{AllocError, Global};
use std::marker::Model;
use tl_schema::{Schema, TypeRef};
use tl_types::Value;

/// Two schemas, and a type of the old one whose bytes the new one reads.
pub struct Layers<'s> {
    old: &'s Schema,
    new: &'s Schema,
    of: &'s TypeRef,
    image: TypeRef,
    moved: Vec<Option<Moved>>,
    count: u32,
}

// By hand, so that each exit of an owner has one call to prove.
impl Drop for Layers<'_> {
    fn drop(self) {
        let Layers {
            old: _,
            new: _,
            of: _,
            image: _,
            moved: _,
            count: _,
        } = self;
    }
}

impl<'s> Model for Layers<'s> {
    ghost use Rattle.tl_schema.specs.Seen.{shape};
    ghost use Rattle.tl_layers.specs.Compared.{LayersView};
    ghost use Rattle.tl_layers.specs.inner.LayersCodes.{layers_code};
    ghost use Rattle.tl_layers.specs.inner.Tables.{IsMade};

    ghost Value = { LayersView };

    ghost coded = { layers_code };

    ghost view = { λ l. record { old = l.old.now; new = l.new.now; of = shape l.of.now } };

    ghost invariant = { λ l. IsMade (record { old = l.old.now; new = l.new.now; of = shape l.of.now }) (shape l.image) l.moved.items l.count };
}

impl<'s> Layers<'s> {
    pub(crate) fn new(
        old: &'s Schema,
        new: &'s Schema,
        of: &'s TypeRef,
        image: TypeRef,
        moved: Vec<Option<Moved>>,
        count: u32,
    ) -> Layers<'s>
        requires { IsMade (record { old = old.now; new = new.now; of = shape of.now }) (shape image) moved.items count }
        ensures { result ≡ record { old = old.now; new = new.now; of = shape of.now } }
    {
        Layers {
            old,
            new,
            of,
            image,
            moved,
            count,
        }
    }

    /// The number of declarations that the type reaches.
    pub fn count(&self) -> u32
        ensures count { IsCount (Reached self.now.old self.now.of) result }
        ensures sound { AreLayers self.now.old self.now.new self.now.of }
    {
        self.count
    }

    /// The image of the type: the type of the new schema whose values its bytes spell.
    pub fn image(&self) -> &TypeRef
        ensures { shape result.now ≡ image self.now.old self.now.new self.now.of }
    {
        &self.image
    }

    /// The counterpart of a declaration; none where it isn't reached.
    pub fn entry(&self, old: u32) -> Option<u32>
        ensures { IsCounterpart self.now old result }
    {
        match self.moved.get(old as usize) {
            Some(Some(moved)) => Some(moved.entry),
            Some(None) => None,
            None => None,
        }
    }

    /// A value of the type, lifted.
    pub fn lift(&self, alloc: Global, value: &Value) -> Result<Value, AllocError>
        ensures lifts { (b : List ℕ) → Spells self.now.old self.now.of (view value.now) b → IfOk result (λ v. view v ≡ lifted self.now.old self.now.new (view value.now)) }
        // The bytes of a plain value spell it.
        ensures spelled { (b : List ℕ) → IsPlain self.now.old (view value.now) → Spells self.now.old self.now.of (view value.now) b → IfOk result (λ v. Spells self.now.new (image self.now.old self.now.new self.now.of) (view v) b) }
    {
        lift_value(value, &self.moved, alloc)
    }
}
