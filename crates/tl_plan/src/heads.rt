//! The constructors of each type, and the functions.
ghost use Rattle.std.specs.Prelude.{◌≡◌, IfOk, OnOk, [], ◌∷◌, ◌++◌, if◌then◌else◌, get_or, length, replicate};
ghost use Rattle.tl_names.specs.Indexes.{types_of};
ghost use Rattle.tl_schema.specs.CheckedPrograms.{IsSchema};
ghost use Rattle.tl_plan.specs.inner.Walks.{AreHeads, lists_of, noted};

use std::alloc::{AllocError, Global};
use tl_schema::Schema;

/// For each type with a number the indices of its constructors, and those of all functions, each list ascending.
#[derive(Drop)]
pub struct Heads {
    pub constructors: Vec<Vec<u32>>,
    pub functions: Vec<u32>,
}

impl Heads {
    pub fn of(alloc: Global, schema: &Schema) -> Result<Heads, AllocError>
        ensures heads { IfOk result (λ h. AreHeads schema.now (lists_of h.constructors.items) h.functions.items) }
        ensures count { IfOk result (λ h. length h.constructors.items ≡ length (types_of schema.now.program)) }
        ensures sound { IsSchema schema.now }
    {
        let count = schema.count();
        let mut constructors = no_lists(alloc, schema.type_count())?;
        let mut functions = Vec::new(alloc);
        for i in 0..count {
            let entry = schema.entry(i);
            note(&mut constructors, entry.head, i)?;
            add_if(&mut functions, entry.function, i)?;
        }
        Ok(Heads {
            constructors,
            functions,
        })
    }

    /// The constructors of a type; none past the last type.
    pub fn constructors(&self, head: u32) -> &[u32]
        ensures { result.now ≡ get_or (lists_of self.now.constructors.items) head [] }
    {
        match self.constructors.get(head as usize) {
            Some(entries) => entries,
            None => &[],
        }
    }
}

fn no_lists(alloc: Global, count: u32) -> Result<Vec<Vec<u32>>, AllocError>
    ensures { IfOk result (λ lists. lists_of lists.items ≡ replicate count []) }
{
    let mut lists = Vec::new(alloc);
    for _ in 0..count {
        lists.push(Vec::new(alloc))?;
    }
    Ok(lists)
}

// Adds a declaration to the list of a type, if there is such a type.
fn note(lists: &mut Vec<Vec<u32>>, head: u32, i: u32) -> Result<(), AllocError>
    ensures { OnOk result (lists_of lists.new.items ≡ noted (lists_of lists.old.items) head i) }
{
    let head = head as usize;
    if head < lists.len() {
        lists[head].push(i)?;
    }
    Ok(())
}

// Adds a declaration to a list, if it is one of those.
fn add_if(list: &mut Vec<u32>, is: bool, i: u32) -> Result<(), AllocError>
    ensures { OnOk result (list.new.items ≡ (if is then list.old.items ++ i ∷ [] else list.old.items)) }
{
    if is {
        list.push(i)?;
    }
    Ok(())
}
