//! The third check: variables of functions, and calls.
ghost use Rattle.std.specs.Prelude.{◌≡◌, bytes_eq, flat_map, map, not};
ghost use Rattle.std.specs.List.{count_by, list_any};
ghost use Rattle.tl_program.specs.Program.{decl_text, field_text, kind_text};
ghost use Rattle.tl_schema.specs.inner.WhatSteps.{means_variable};
ghost use Rattle.tl_schema.specs.UnknownVariable.{called_by};
ghost use Rattle.tl_schema.specs.inner.VariableSteps.{calls_another, leaves_uncalled};
ghost use Rattle.tl_names.specs.Writing.{is_variable};

use tl_combinators::{Decl, Field, FieldKind};
use tl_names::{DeclTest, Index, Meant, MeantDecl, TypeTest, What, is_in_fields, is_variable};

/// Whether a declaration calls a name that is no variable, or is a function with a variable that doesn't stand in
/// exactly one field `!X`, or in the type of another.
#[derive(Clone, Copy)]
pub struct Misuse;

impl DeclTest for Misuse {
    ghost use Rattle.tl_schema.specs.inner.WhatSteps.{means_variable};
    ghost use Rattle.tl_schema.specs.UnknownVariable.{MisusesVariable};

    ghost holds = { λ s ds. MisusesVariable };

    fn passes(&self, index: &Index, decl: &Decl, meant: &MeantDecl) -> bool {
        if calls_another(decl) {
            return true;
        }
        if !decl.function {
            return false;
        }
        if leaves_uncalled(decl) {
            return true;
        }
        is_in_fields(index, &meant.fields, &VariableName)
    }
}

// Whether a type is a variable, applied to some types or none.
#[derive(Clone, Copy)]
struct VariableName;

impl TypeTest for VariableName {
    ghost use Rattle.tl_schema.specs.inner.WhatSteps.{means_variable};
    ghost use Rattle.tl_schema.specs.UnknownVariable.{NamesVariable};

    ghost holds = { λ s ds. NamesVariable };

    fn passes(&self, _index: &Index, meant: &Meant) -> bool {
        match meant {
            Meant::Named { what, .. } => means_variable(*what),
            Meant::Percent { .. } => false,
            Meant::AnyCall => false,
        }
    }
}

// Whether a name that means this is a variable.
fn means_variable(what: What) -> bool
    ensures { result ≡ means_variable what }
{
    match what {
        What::Variable { .. } => true,
        _ => false,
    }
}

// Whether `!` stands before a name that is no variable.
fn calls_another(decl: &Decl) -> bool
    ensures { result ≡ calls_another (decl_text decl.now) }
{
    decl.fields
        .iter()
        .any(|field| calls_another_by(&field.kind, decl))
}

fn calls_another_by(kind: &FieldKind, decl: &Decl) -> bool
    ensures { result ≡ list_any (λ name. not (is_variable (decl_text decl.now) name)) (called_by (kind_text kind.now)) }
{
    match kind {
        FieldKind::Nat => false,
        FieldKind::Flag => false,
        FieldKind::Call { var } => !is_variable(decl, var.as_slice()),
        FieldKind::Of { .. } => false,
    }
}

// Whether a variable doesn't stand in exactly one field `!X`.
fn leaves_uncalled(decl: &Decl) -> bool
    ensures { result ≡ leaves_uncalled (decl_text decl.now) }
{
    decl.vars
        .iter()
        .any(|var| call_count(&decl.fields, var.as_slice()) != 1)
}

// How often `!` stands before the name.
fn call_count(fields: &[Field], name: &[u8]) -> usize
    ensures { result ≡ count_by (bytes_eq name.now) (flat_map (λ f. called_by f.kind) (map field_text fields.now)) }
{
    fields
        .iter()
        .filter(|field| calls_name(&field.kind, name))
        .count()
}

fn calls_name(kind: &FieldKind, name: &[u8]) -> bool
    ensures { result ≡ list_any (bytes_eq name.now) (called_by (kind_text kind.now)) }
{
    match kind {
        FieldKind::Nat => false,
        FieldKind::Flag => false,
        FieldKind::Call { var } => name == var.as_slice(),
        FieldKind::Of { .. } => false,
    }
}
