//! The first check: names.
ghost use Rattle.std.specs.Prelude.{◌≡◌, ◌<◌, ◌^◌, ◌+◌, ◌↔◌, ℕ, IsTrue, IfOk, OnOk, Some, length, slice_get};
ghost use Rattle.tl_program.specs.Program.{decl_text, program_text};
ghost use Rattle.tl_program.specs.Trees.{view};
ghost use Rattle.tl_graph.specs.Firsts.{First};
ghost use Rattle.tl_names.specs.NameLists.{IsRepeat};
ghost use Rattle.tl_schema.specs.SameName.{SameName, part_names};
ghost use Rattle.tl_schema.specs.inner.SameNameSteps.{AddsName, IsOf, MakesVector, NotesName, is_noted};

use std::alloc::{AllocError, Global};
use tl_combinators::{Decl, Program, TypeTree};
use tl_names::{NameHash, Names, is_variable};

/// The names of the declarations so far.
#[derive(Drop)]
struct Known {
    constructors: Names,
    functions: Names,
}

/// The first declaration with a name that is taken: an earlier constructor or function has its name, two of its
/// variables and fields have one name, or it constructs `Vector`.
pub fn first_same_name(
    alloc: Global,
    hash: NameHash,
    program: &Program,
) -> Result<Option<u32>, AllocError>
    requires { length (program_text program.now) < 2 ^ 32 }
    ensures { IfOk result (First (SameName (program_text program.now))) }
{
    let mut known = Known {
        constructors: Names::new(alloc, hash),
        functions: Names::new(alloc, hash),
    };
    for (k, decl) in program.decls.iter().enumerate() {
        let is_old = add_name(alloc, &mut known, decl)?;
        let is_repeated = repeats_part(alloc, hash, decl)?;
        if is_old || is_repeated || makes_vector(decl) {
            return Ok(Some(k as u32));
        }
    }
    Ok(None)
}

// Adds a name, and gives whether it was known.
fn add(alloc: Global, names: &mut Names, name: &[u8]) -> Result<bool, AllocError>
    ensures known { IfOk result (λ is_old. is_old ≡ is_noted names.old name.now) }
    ensures added { OnOk result (NotesName names.old names.new name.now) }
{
    let is_new = names.note(alloc, name, 0)?;
    Ok(!is_new)
}

// Adds the name of a declaration, and gives whether it was known.
fn add_name(alloc: Global, known: &mut Known, decl: &Decl) -> Result<bool, AllocError>
    ensures { IfOk result (AddsName known.old known.new (decl_text decl.now)) }
{
    if decl.function {
        add(alloc, &mut known.functions, decl.name.as_slice())
    } else {
        add(alloc, &mut known.constructors, decl.name.as_slice())
    }
}

// The name of a variable or, after them, of a field.
fn part_name(decl: &Decl, i: usize) -> &[u8]
    requires { i < length (part_names (decl_text decl.now)) }
    ensures { slice_get (part_names (decl_text decl.now)) i ≡ Some result.now }
{
    let count = decl.vars.len();
    if i < count {
        decl.vars[i].as_slice()
    } else {
        decl.fields[i - count].name.as_slice()
    }
}

// The most variables and fields whose names are compared pair by pair; more are noted in a map.
const FEW_PARTS: usize = 32;

// Whether two variables or fields have one name.
fn repeats_part(alloc: Global, hash: NameHash, decl: &Decl) -> Result<bool, AllocError>
    ensures { IfOk result (λ b. IsTrue b ↔ ((i : ℕ) × IsRepeat (part_names (decl_text decl.now)) i)) }
{
    if decl.vars.len() + decl.fields.len() <= FEW_PARTS {
        Ok(repeats_one_of_few(decl))
    } else {
        repeats_one_of_many(alloc, hash, decl)
    }
}

// Whether an earlier variable or field has the name of this one.
fn is_repeat(decl: &Decl, i: usize) -> bool
    requires { i < length (part_names (decl_text decl.now)) }
    ensures { IsTrue result ↔ IsRepeat (part_names (decl_text decl.now)) i }
{
    let name = part_name(decl, i);
    for j in 0..i {
        if part_name(decl, j) == name {
            return true;
        }
    }
    false
}

fn repeats_one_of_few(decl: &Decl) -> bool
    ensures { IsTrue result ↔ ((i : ℕ) × IsRepeat (part_names (decl_text decl.now)) i) }
{
    for i in 0..decl.vars.len() + decl.fields.len() {
        if is_repeat(decl, i) {
            return true;
        }
    }
    false
}

fn repeats_one_of_many(alloc: Global, hash: NameHash, decl: &Decl) -> Result<bool, AllocError>
    ensures { IfOk result (λ b. IsTrue b ↔ ((i : ℕ) × IsRepeat (part_names (decl_text decl.now)) i)) }
{
    let mut names = Names::new(alloc, hash);
    for i in 0..decl.vars.len() + decl.fields.len() {
        let is_old = add(alloc, &mut names, part_name(decl, i))?;
        if is_old {
            return Ok(true);
        }
    }
    Ok(false)
}

// Whether a declaration is a constructor of `Vector`.
fn makes_vector(decl: &Decl) -> bool
    ensures { IsTrue result ↔ MakesVector (decl_text decl.now) }
{
    let name = b"Vector".as_slice();
    !decl.function && !decl.builtin && !is_variable(decl, name) && is_of(&decl.result, name)
}

// Whether a type is the name, applied to some types or none.
fn is_of(tree: &TypeTree, name: &[u8]) -> bool
    ensures { IsTrue result ↔ IsOf name.now (view tree.now) }
{
    match tree {
        TypeTree::Named { name: head, .. } => head.as_slice() == name,
        TypeTree::Percent { .. } => false,
        TypeTree::AnyCall => false,
    }
}
