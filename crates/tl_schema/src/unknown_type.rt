//! The second check: each name of a type has a declaration.
ghost use Rattle.std.specs.Prelude.{◌≡◌};
ghost use Rattle.tl_schema.specs.inner.WhatSteps.{is_unknown};

use tl_names::{Index, Meant, TypeTest, What};

/// Whether a type begins with an unknown name: no variable, not built in, and declared by none.
/// From "TL language" (core.telegram.org/mtproto/TL): a type has constructors, and a constructor is declared.
#[derive(Clone, Copy)]
pub struct UnknownName;

impl TypeTest for UnknownName {
    ghost use Rattle.tl_schema.specs.UnknownType.{BeginsUnknown};

    ghost holds = { λ s ds. BeginsUnknown ds };

    fn passes(&self, _index: &Index, meant: &Meant) -> bool {
        match meant {
            Meant::Named { what, .. } => is_unknown(*what),
            Meant::Percent { .. } => false,
            Meant::AnyCall => false,
        }
    }
}

// Whether this is no meaning.
fn is_unknown(what: What) -> bool
    ensures { result ≡ is_unknown what }
{
    match what {
        What::Unknown => true,
        _ => false,
    }
}
