//! The first declaration that passes a test.
ghost use Rattle.std.specs.Prelude.{◌≡◌, ◌<◌, ◌^◌, ◌↔◌, IsTrue, List, length, map};
ghost use Rattle.tl_program.specs.Program.{DeclText, decl_text, program_text};
ghost use Rattle.tl_graph.specs.Firsts.{First};
ghost use Rattle.tl_names.specs.MeantDecls.{meant_decl};
ghost use Rattle.tl_names.specs.MeantViews.{decl_view};
ghost use Rattle.tl_names.specs.Parts.{SomeWritten};
ghost use Rattle.tl_names.specs.inner.Resolved.{AreResolved};
ghost use Rattle.tl_names.specs.Writing.{DeclarationHas};

use crate::index::Index;
use crate::meant::MeantDecl;
use crate::parts::{TypeTest, writes};
use tl_program::{Decl, Program};

/// A test of declarations.
pub trait DeclTest {
    /// The declarations that pass, in a program.
    ghost holds: { Self → List DeclText → DeclText → Type 0 };

    /// Whether a declaration passes, which is given as it is written and with its names resolved.
    fn passes(&self, index: &Index, decl: &Decl, meant: &MeantDecl) -> bool
        ensures { decl_view meant.now ≡ meant_decl index.now (decl_text decl.now) → IsTrue result ↔ holds self.now index.now (decl_text decl.now) };
}

/// The first declaration that passes.
pub fn first_that<T: DeclTest>(
    index: &Index,
    program: &Program,
    meant: &[MeantDecl],
    test: &T,
) -> Option<u32>
    requires same { index.now ≡ program_text program.now }
    requires few { length index.now < 2 ^ 32 }
    requires resolved { AreResolved index.now (map decl_view meant.now) }
    ensures { First (DeclarationHas (T.holds test.now index.now) index.now) result }
{
    for (at, decl) in program.decls.iter().enumerate() {
        if test.passes(index, decl, &meant[at]) {
            return Some(at as u32);
        }
    }
    None
}

/// The first declaration that writes a type which passes.
pub fn first_that_writes<T: TypeTest>(
    index: &Index,
    program: &Program,
    meant: &[MeantDecl],
    test: &T,
) -> Option<u32>
    requires same { index.now ≡ program_text program.now }
    requires few { length index.now < 2 ^ 32 }
    requires resolved { AreResolved index.now (map decl_view meant.now) }
    ensures { First (DeclarationHas (SomeWritten (T.holds test.now index.now)) index.now) result }
{
    first_that(index, program, meant, &Writer { test })
}

// Whether a declaration writes a type that passes.
#[derive(Drop)]
struct Writer<'t, T: TypeTest> {
    test: &'t T,
}

impl<'t, T: TypeTest> DeclTest for Writer<'t, T> {
    ghost use Rattle.tl_names.specs.Parts.{SomeWritten};

    ghost holds = { λ s ds. SomeWritten (T.holds s.test.now ds) };

    fn passes(&self, index: &Index, _decl: &Decl, meant: &MeantDecl) -> bool {
        writes(index, meant, self.test)
    }
}
