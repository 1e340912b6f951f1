//! The tenth check: arguments that take no bytes.
ghost use Rattle.std.specs.Prelude.{◌↔◌, IsTrue, map};
ghost use Rattle.tl_program.specs.Trees.{trees_of};
ghost use Rattle.tl_names.specs.MeantViews.{meant_view};
ghost use Rattle.tl_schema.specs.inner.MarkedSteps.{HasMarkedArg, IsMarkedBare};
ghost use Rattle.tl_names.specs.inner.Resolved.{ForType, ForTypes};

use tl_graph::is_marked;
use tl_names::{Index, Meant, TypeTest, bare_of};

/// Whether a type applies a name to a bare constructor that is marked.
#[derive(Clone, Copy)]
pub struct EmptyArgument<'t> {
    pub marks: &'t [bool],
}

impl<'t> TypeTest for EmptyArgument<'t> {
    ghost use Rattle.tl_schema.specs.inner.MarkedSteps.{AppliesToMarked};

    ghost holds = { λ s ds. AppliesToMarked ds s.marks.now };

    fn passes(&self, index: &Index, meant: &Meant) -> bool {
        match meant {
            Meant::Named { args, .. } => has_marked(index, self.marks, args),
            Meant::Percent { .. } => false,
            Meant::AnyCall => false,
        }
    }
}

// Whether one of the types is a bare constructor that is marked.
fn has_marked(index: &Index, marks: &[bool], meants: &[Meant]) -> bool
    ensures { ForTypes index.now (map meant_view meants.now) (λ d ts. IsTrue result ↔ HasMarkedArg index.now marks.now d (trees_of ts)) }
{
    for meant in meants {
        if is_marked_bare(index, marks, meant) {
            return true;
        }
    }
    false
}

fn is_marked_bare(index: &Index, marks: &[bool], meant: &Meant) -> bool
    ensures { ForType index.now (meant_view meant.now) (λ d t. IsTrue result ↔ IsMarkedBare index.now marks.now d t) }
{
    match bare_of(index, meant) {
        Some(j) => is_marked(marks, j),
        None => false,
    }
}
