//! What the variables of a type stand for.
ghost use Rattle.std.specs.Prelude.{◌≡◌};
ghost use Rattle.tl_schema.specs.Closing.{closed};
ghost use Rattle.tl_schema.specs.Seen.{shape};
ghost use Rattle.tl_show.specs.inner.Scopes.{IsSettled, shapes_in, shapes_of};

use tl_schema::TypeRef;

/// What the variables of a declaration stand for: the arguments of a type, whose own variables stand for what an outer scope says. It borrows, so that no type is made.
#[derive(Clone, Copy)]
pub struct Scope<'a> {
    pub args: &'a [TypeRef],
    pub outer: Option<&'a Scope<'a>>,
}

/// What a type stands for that may be a variable, with the scope of its own variables.
pub fn resolved<'a>(
    of: &'a TypeRef,
    scope: Option<&'a Scope<'a>>,
) -> (&'a TypeRef, Option<&'a Scope<'a>>)
    ensures same { closed (shapes_in result.1) (shape result.0.now) ≡ closed (shapes_in scope.entry) (shape of.now) }
    ensures settled { IsSettled (shapes_in result.1) (shape result.0.now) }
{
    match scope {
        Some(inner) => resolved_in(inner, of),
        None => (of, None),
    }
}

// Likewise, in a scope.
fn resolved_in<'a>(scope: &'a Scope<'a>, of: &'a TypeRef) -> (&'a TypeRef, Option<&'a Scope<'a>>)
    ensures same { closed (shapes_in result.1) (shape result.0.now) ≡ closed (shapes_of scope.now) (shape of.now) }
    ensures settled { IsSettled (shapes_in result.1) (shape result.0.now) }
{
    let TypeRef::Var { index } = of else {
        return (of, Some(scope));
    };
    let Some(arg) = scope.args.get(*index as usize) else {
        return (of, Some(scope));
    };
    match scope.outer {
        Some(outer) => resolved_in(outer, arg),
        None => (arg, None),
    }
}
