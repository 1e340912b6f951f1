//! The seventh check: conditions.
ghost use Rattle.std.specs.Prelude.{◌≤◌, ◌↔◌, IsTrue, length};
ghost use Rattle.tl_program.specs.Program.{cond_texts, decl_text, field_text};
ghost use Rattle.tl_schema.specs.BadFlag.{HasBadCondition, IsBadCondition, IsFlagsBefore};
ghost use Rattle.tl_schema.specs.inner.ConditionSteps.{IsFlags};

use tl_combinators::{Cond, Decl, Field, FieldKind};
use tl_names::{DeclTest, Index, MeantDecl};

/// The highest bit of a `#` field.
const LAST_BIT: u32 = 31;

/// Whether a declaration has a condition on no earlier `#` field, or on a bit above 31.
#[derive(Clone, Copy)]
pub struct BadCondition;

impl DeclTest for BadCondition {
    ghost use Rattle.tl_schema.specs.BadFlag.{HasBadCondition};

    ghost holds = { λ s ds. HasBadCondition };

    fn passes(&self, _index: &Index, decl: &Decl, _meant: &MeantDecl) -> bool {
        has_bad_condition(decl)
    }
}

fn has_bad_condition(decl: &Decl) -> bool
    ensures { IsTrue result ↔ HasBadCondition (decl_text decl.now) }
{
    for (i, field) in decl.fields.iter().enumerate() {
        if is_bad_condition(decl, i, &field.cond) {
            return true;
        }
    }
    false
}

// Whether the condition of field i is wrong.
fn is_bad_condition(decl: &Decl, i: usize, cond: &Option<Cond>) -> bool
    requires { i ≤ length (decl_text decl.now).fields }
    ensures { IsTrue result ↔ IsBadCondition (decl_text decl.now) i (cond_texts cond.now) }
{
    match cond {
        None => false,
        Some(cond) => cond.bit > LAST_BIT || !has_flags_before(decl, i, cond.flags.as_slice()),
    }
}

// Whether a field before field i is `#`, of this name.
fn has_flags_before(decl: &Decl, i: usize, flags: &[u8]) -> bool
    requires { i ≤ length (decl_text decl.now).fields }
    ensures { IsTrue result ↔ IsFlagsBefore (decl_text decl.now) i flags.now }
{
    for field in &decl.fields[..i] {
        if is_flags(field, flags) {
            return true;
        }
    }
    false
}

fn is_flags(field: &Field, flags: &[u8]) -> bool
    ensures { IsTrue result ↔ IsFlags (field_text field.now) flags.now }
{
    match field.kind {
        FieldKind::Nat => field.name.as_slice() == flags,
        FieldKind::Flag => false,
        FieldKind::Call { .. } => false,
        FieldKind::Of { .. } => false,
    }
}
