//! Types by their texts.
ghost use Rattle.std.specs.Prelude.{IfOk};
ghost use Rattle.tl_program.specs.Trees.{view};
ghost use Rattle.tl_schema.specs.Seen.{shape};
ghost use Rattle.tl_schema.specs.Formed.{IsFormed};
ghost use Rattle.tl_schema.specs.AskedTypes.{GivesType, IsTypeText, NamesType, RefusesType, TypeTextRefused};
ghost use Rattle.tl_schema.specs.Types.{Shape};
ghost use Rattle.tl_schema.specs.declared.fault.TypeFault.{TypeFault};
ghost use Rattle.tl_names.specs.inner.BareSteps.{MarksEmpty};
ghost use Rattle.tl_schema.specs.inner.TypeSteps.{ChecksType};

use crate::pass_type::pass_type;
use crate::terms::type_term;
use crate::{Schema, TypeFault, TypeRef};
use std::alloc::Global;
use tl_combinators::{TypeTree, parse_type};
use tl_lexer::lex;
use tl_names::{Index, resolve_type};

/// The type that a text names: a closed type of the schema, or `!` for a call of any of its functions.
pub fn type_of(alloc: Global, schema: &Schema, text: &[u8]) -> Result<TypeRef, TypeFault>
    // What is answered is so by the definitions.
    ensures names { NamesType schema.now.program text.now result }
    ensures formed { IfOk result (λ t. IsFormed schema.now (shape t)) }
    // A text that is a type gives this type, and one that is refused is refused for the same fault.
    ensures gives { (s : Shape) → IsTypeText schema.now.program text.now s → GivesType s result }
    ensures refuses { (fault : TypeFault) → TypeTextRefused schema.now.program text.now fault → RefusesType fault result }
{
    named_type(alloc, schema, text)
}

// The type that a text names, if it has no fault.
fn named_type(alloc: Global, schema: &Schema, text: &[u8]) -> Result<TypeRef, TypeFault>
    ensures names { NamesType schema.now.program text.now result }
    ensures formed { IfOk result (λ t. IsFormed schema.now (shape t)) }
{
    let tokens = lex(alloc, text)?;
    let tree = parse_type(alloc, text, &tokens)?;
    checked_type(alloc, schema.index(), schema.marks(), &tree)
}

// The type, where it has none of the causes that a type alone can have.
fn checked_type(
    alloc: Global,
    index: &Index,
    marks: &[bool],
    tree: &TypeTree,
) -> Result<TypeRef, TypeFault>
    requires { MarksEmpty index.now marks.now }
    ensures { ChecksType index.now (view tree.now) result }
{
    let meant = resolve_type(alloc, index, tree)?;
    pass_type(index, marks, &meant)?;
    let term = type_term(alloc, index, &meant)?;
    Ok(term)
}
