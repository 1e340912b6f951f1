//! What a declaration writes: constructors, variables and the names of types.
ghost use Rattle.std.specs.Prelude.{◌≡◌, ◌==◌, ◌+◌, ◌<◌, drop, length, position};
ghost use Rattle.std.specs.Option.{option_map};
ghost use Rattle.tl_program.specs.Program.{decl_text};
ghost use Rattle.tl_names.specs.Writing.{is_constructor, is_function, is_type_name, is_variable, last_word, own_type, result_head};

use tl_program::{Decl, TypeTree};

/// Whether a declaration is a constructor, and no line of a built-in type.
pub fn is_constructor(decl: &Decl) -> bool
    ensures { result ≡ is_constructor (decl_text decl.now) }
{
    !decl.function && !decl.builtin
}

/// Whether a declaration is a function, and no line of a built-in type.
pub fn is_function(decl: &Decl) -> bool
    ensures { result ≡ is_function (decl_text decl.now) }
{
    decl.function && !decl.builtin
}

/// Whether a name is a variable of the declaration.
pub fn is_variable(decl: &Decl, name: &[u8]) -> bool
    ensures { result ≡ is_variable (decl_text decl.now) name.now }
{
    decl.vars.iter().any(|var| name == var.as_slice())
}

/// The name of the type that a declaration's result begins with.
pub fn result_head(decl: &Decl) -> Option<&[u8]>
    ensures { option_map (λ name. name.now) result ≡ result_head (decl_text decl.now) }
{
    match &decl.result {
        TypeTree::Named { name, .. } => {
            if is_type_name(name.as_slice()) && !is_variable(decl, name.as_slice()) {
                Some(name.as_slice())
            } else {
                None
            }
        }
        TypeTree::Percent { .. } => None,
        TypeTree::AnyCall => None,
    }
}

/// The name of the type that a declaration makes, where it is a constructor and no line of a built-in type.
pub fn own_type(decl: &Decl) -> Option<&[u8]>
    ensures { option_map (λ name. name.now) result ≡ own_type (decl_text decl.now) }
{
    if is_constructor(decl) {
        result_head(decl)
    } else {
        None
    }
}

// The index of the first `.` of a name.
fn first_dot(name: &[u8]) -> Option<usize>
    ensures { result ≡ position (λ b. b == 46) name.now }
{
    name.iter().position(|b| *b == b'.')
}

// What stands after an index of a name.
fn after(name: &[u8], at: usize) -> &[u8]
    requires { at < length name.now }
    ensures { result.now ≡ drop (at + 1) name.now }
{
    &name[at + 1..]
}

// What stands after the last `.` of a name.
fn last_word(name: &[u8]) -> &[u8]
    ensures { result.now ≡ last_word name.now }
{
    let mut rest = name;
    while let Some(at) = first_dot(rest) {
        rest = after(rest, at);
    }
    rest
}

/// Whether a name is a type's.
pub fn is_type_name(name: &[u8]) -> bool
    ensures { result ≡ is_type_name name.now }
{
    match last_word(name) {
        [first, ..] => first.is_ascii_uppercase(),
        [] => false,
    }
}
