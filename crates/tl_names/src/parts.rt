//! Parts of types that pass a test.
ghost use Rattle.std.specs.Prelude.{◌↔◌, IsTrue, List, map};
ghost use Rattle.tl_program.specs.Trees.{Tree, trees_of};
ghost use Rattle.tl_program.specs.Program.{DeclText};
ghost use Rattle.tl_names.specs.MeantViews.{decl_view, field_view, kind_view, meant_view};
ghost use Rattle.tl_names.specs.Parts.{SomePart, SomePartOfOne, SomeHeld, SomeInFields, SomeWritten};
ghost use Rattle.tl_names.specs.inner.Resolved.{ForDecl, ForFields, ForKind, ForType, ForTypes};

use crate::index::Index;
use crate::meant::{Meant, MeantDecl, MeantField, MeantKind};

/// A test of types.
pub trait TypeTest {
    /// The types that pass, where a declaration of a program writes them.
    ghost holds: { Self → List DeclText → DeclText → Tree → Type 0 };

    /// Whether the type itself passes.
    fn passes(&self, index: &Index, meant: &Meant) -> bool
        ensures { ForType index.now (meant_view meant.now) (λ d t. IsTrue result ↔ holds self.now index.now d t) };
}

/// Whether a type or a part of it passes.
#[cycle(parts)]
pub fn has_part<T: TypeTest>(index: &Index, meant: &Meant, test: &T) -> bool
    ensures { ForType index.now (meant_view meant.now) (λ d t. IsTrue result ↔ SomePart (T.holds test.now index.now d) t) }
{
    if test.passes(index, meant) {
        return true;
    }
    match meant {
        Meant::Named { args, .. } => is_in_one(index, args, test),
        Meant::Percent { meant } => has_part(index, meant, test),
        Meant::AnyCall => false,
    }
}

// Whether one of the types or a part of it passes.
#[cycle(parts)]
fn is_in_one<T: TypeTest>(index: &Index, meants: &[Meant], test: &T) -> bool
    ensures { ForTypes index.now (map meant_view meants.now) (λ d ts. IsTrue result ↔ SomePartOfOne (T.holds test.now index.now d) (trees_of ts)) }
{
    for meant in meants {
        if has_part(index, meant, test) {
            return true;
        }
    }
    false
}

// Whether the type that a field holds or a part of it passes.
fn is_held<T: TypeTest>(index: &Index, kind: &MeantKind, test: &T) -> bool
    ensures { ForKind index.now (kind_view kind.now) (λ d k. IsTrue result ↔ SomeHeld (T.holds test.now index.now d) k) }
{
    match kind {
        MeantKind::Of { meant } => has_part(index, meant, test),
        MeantKind::Nat => false,
        MeantKind::Flag => false,
        MeantKind::Call { .. } => false,
    }
}

/// Whether a type that one of the fields holds or a part of it passes.
pub fn is_in_fields<T: TypeTest>(index: &Index, fields: &[MeantField], test: &T) -> bool
    ensures { ForFields index.now (map field_view fields.now) (λ d fs. IsTrue result ↔ SomeInFields (T.holds test.now index.now d) fs) }
{
    for field in fields {
        if is_held(index, &field.kind, test) {
            return true;
        }
    }
    false
}

/// Whether a declaration writes a type that passes.
pub fn writes<T: TypeTest>(index: &Index, decl: &MeantDecl, test: &T) -> bool
    ensures { ForDecl index.now (decl_view decl.now) (λ d. IsTrue result ↔ SomeWritten (T.holds test.now index.now) d) }
{
    if decl.builtin {
        return false;
    }
    is_in_fields(index, &decl.fields, test) || has_part(index, &decl.result, test)
}
