//! The form of each declaration.
ghost use Rattle.std.specs.Prelude.{IfOk};
ghost use Rattle.wire_profile.specs.Profiles.{IsProfile};
ghost use Rattle.wire_profile.specs.inner.Insides.{IsTable};

use crate::finding::form_at;
use crate::layout::Layout;
use std::alloc::{AllocError, Global};

/// The form of each declaration of the schema; `NO_FORM` where it is that of none.
pub fn table_of(alloc: Global, layout: &Layout) -> Result<Vec<u32>, AllocError>
    requires { IsProfile layout.now }
    ensures { IfOk result (λ t. IsTable layout.now t.items) }
{
    let mut table = Vec::new(alloc);
    for i in 0..layout.schema.count() {
        table.push(form_at(&layout.indexes, i))?;
    }
    Ok(table)
}
