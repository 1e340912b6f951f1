//! The sixth check: what stands after `%`.
ghost use Rattle.std.specs.Prelude.{◌↔◌, IsTrue};
ghost use Rattle.tl_names.specs.MeantViews.{meant_view};
ghost use Rattle.tl_schema.specs.NotBare.{HasBare};
ghost use Rattle.tl_names.specs.inner.Resolved.{ForType};
ghost use Rattle.tl_schema.specs.inner.WhatSteps.{HasForm};

use tl_names::{Index, Meant, TypeTest, What};

/// Whether a type is `%` before one with no bare form, which `Vector` and each type with exactly one constructor have.
/// From "TL language" (core.telegram.org/mtproto/TL), its bare types.
#[derive(Clone, Copy)]
pub struct NoBare;

impl TypeTest for NoBare {
    ghost use Rattle.tl_schema.specs.NotBare.{HasNoBare};

    ghost holds = { λ s ds. HasNoBare ds };

    fn passes(&self, index: &Index, meant: &Meant) -> bool {
        match meant {
            Meant::Named { .. } => false,
            Meant::Percent { meant } => !has_bare(index, meant),
            Meant::AnyCall => false,
        }
    }
}

fn has_bare(index: &Index, meant: &Meant) -> bool
    ensures { ForType index.now (meant_view meant.now) (λ d t. IsTrue result ↔ HasBare index.now d t) }
{
    match meant {
        Meant::Named { what, .. } => is_bare_what(index, *what),
        Meant::Percent { .. } => false,
        Meant::AnyCall => false,
    }
}

// Whether a name that means this has a bare form.
fn is_bare_what(index: &Index, what: What) -> bool
    ensures { HasForm index.now what result }
{
    match what {
        What::Vector { is_boxed } => is_boxed,
        What::Type { number } => match index.family(number) {
            Some(constructors) => constructors.only,
            None => false,
        },
        _ => false,
    }
}
