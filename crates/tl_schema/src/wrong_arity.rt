//! The fourth check: numbers of arguments and of variables.
ghost use Rattle.std.specs.Prelude.{◌↔◌, IsTrue};
ghost use Rattle.tl_names.specs.MeantViews.{decl_view};
ghost use Rattle.tl_names.specs.inner.Resolved.{ForDecl, ForName};
ghost use Rattle.tl_schema.specs.inner.WhatSteps.{HasVars};
ghost use Rattle.tl_schema.specs.WrongArity.{ConstructsUneven, IsMisapplied};

use tl_combinators::Decl;
use tl_names::{DeclTest, Index, Meant, MeantDecl, TypeTest, What, writes};

/// Whether a declaration applies a name to another number of types than the name has variables, or is a constructor of a type
/// whose constructors have different numbers of variables ("TL language", core.telegram.org/mtproto/TL).
#[derive(Clone, Copy)]
pub struct WrongDecl;

impl DeclTest for WrongDecl {
    ghost use Rattle.tl_schema.specs.WrongArity.{IsWrong};

    ghost holds = { λ s ds. IsWrong ds };

    fn passes(&self, index: &Index, _decl: &Decl, meant: &MeantDecl) -> bool {
        writes(index, meant, &Application) || constructs_uneven(index, meant)
    }
}

/// Whether a type is a name, applied to a wrong number of types.
#[derive(Clone, Copy)]
pub struct Application;

impl TypeTest for Application {
    ghost use Rattle.tl_schema.specs.WrongArity.{Misapplies};

    ghost holds = { λ s ds. Misapplies ds };

    fn passes(&self, index: &Index, meant: &Meant) -> bool {
        match meant {
            Meant::Named { what, args } => is_misapplied(index, *what, args.len()),
            Meant::Percent { .. } => false,
            Meant::AnyCall => false,
        }
    }
}

// Whether a name that means this is applied to a wrong number of types.
fn is_misapplied(index: &Index, what: What, count: usize) -> bool
    ensures { ForName index.now what (λ d name. IsTrue result ↔ IsMisapplied index.now d name count) }
{
    match arity(index, what) {
        Some(arity) => count != arity,
        None => false,
    }
}

// The number of variables of a name that means this.
fn arity(index: &Index, what: What) -> Option<usize>
    ensures { HasVars index.now what result }
{
    match what {
        What::Variable { .. } | What::Base { .. } => Some(0),
        What::Vector { .. } => Some(1),
        What::Type { number } => match index.family(number) {
            Some(constructors) => Some(constructors.vars),
            None => None,
        },
        What::Constructor { index: at } => index.var_count(at),
        What::Unknown => None,
    }
}

// Whether two constructors of the declaration's type have different numbers of variables.
fn constructs_uneven(index: &Index, decl: &MeantDecl) -> bool
    ensures { ForDecl index.now (decl_view decl.now) (λ d. IsTrue result ↔ ConstructsUneven index.now d) }
{
    match decl.head {
        Some(number) => match index.family(number) {
            Some(constructors) => constructors.uneven,
            None => false,
        },
        None => false,
    }
}
