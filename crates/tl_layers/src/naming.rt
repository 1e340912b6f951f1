//! Which declarations a type reaches, by paths of a graph: its nodes are the declarations, the types, one for calls and one for the type.
ghost use Rattle.std.specs.Prelude.{◌≡◌, ◌↔◌, ◌+◌, ◌++◌, ◌<◌, ◌^◌, ℕ, IfOk, OnOk, length, map};
ghost use Rattle.tl_graph.specs.Needs.{IsMarked};
ghost use Rattle.tl_graph.specs.Paths.{edges_in};
ghost use Rattle.tl_schema.specs.CheckedPrograms.{IsSchema};
ghost use Rattle.tl_schema.specs.Formed.{IsFormed};
ghost use Rattle.tl_schema.specs.Seen.{shape, slot};
ghost use Rattle.tl_schema.specs.Types.{shapes_of};
ghost use Rattle.tl_layers.specs.Reached.{Reached};
ghost use Rattle.tl_layers.specs.inner.Graphs.{all_lists, declaration_lists, entry_node, nodes_in, nodes_of, nodes_of_each, type_node, type_total};
ghost use Rattle.tl_layers.specs.inner.Edges.{AreEdges};

use std::alloc::{AllocError, Global};
use tl_graph::reached_from;
use tl_plan::Heads;
use tl_schema::{Schema, SchemaField, TypeRef};

/// Marks exactly the declarations that the type reaches. A schema of so many declarations and types that their sum passes 32 bits is out of memory.
pub fn reached_by(alloc: Global, schema: &Schema, of: &TypeRef) -> Result<Vec<bool>, AllocError>
    requires { IsFormed schema.now (shape of.now) }
    ensures count { IfOk result (λ marks. length marks.items ≡ length schema.now.decls) }
    ensures marks { IfOk result (λ marks. (i : ℕ) → IsMarked marks.items i ↔ Reached schema.now (shape of.now) i) }
{
    let root = root_of(schema.count(), schema.type_count())?;
    let edges = edges_of(alloc, schema, of, root)?;
    let mut marks = reached_from(alloc, &edges, root)?;
    marks.truncate(schema.count() as usize);
    Ok(marks)
}

// The node of the type that is asked for.
fn root_of(count: u32, types: u32) -> Result<u32, AllocError>
    ensures { IfOk result (λ root. root ≡ count + types + 1) }
{
    let root = count as u64 + types as u64 + 1;
    if root > u32::MAX as u64 {
        return Err(AllocError);
    }
    Ok(root as u32)
}

// The graph.
fn edges_of(
    alloc: Global,
    schema: &Schema,
    of: &TypeRef,
    root: u32,
) -> Result<Vec<Vec<u32>>, AllocError>
    requires { root ≡ length schema.now.decls + type_total schema.now + 1 }
    ensures { IfOk result (λ edges. AreEdges schema.now (shape of.now) (edges_in edges.items)) }
{
    let heads = Heads::of(alloc, schema)?;
    let mut edges = declaration_lists(alloc, schema)?;
    let Heads {
        constructors,
        functions,
    } = heads;
    add_lists(&mut edges, constructors)?;
    edges.push(functions)?;
    let mut nodes = Vec::new(alloc);
    name_nodes(of, schema.count(), schema.type_count(), &mut nodes)?;
    edges.push(nodes)?;
    Ok(edges)
}

// The lists of the declarations.
fn declaration_lists(alloc: Global, schema: &Schema) -> Result<Vec<Vec<u32>>, AllocError>
    requires { length schema.now.decls + type_total schema.now < 2 ^ 32 }
    ensures { IfOk result (λ edges. edges_in edges.items ≡ declaration_lists schema.now) }
{
    let count = schema.count();
    let types = schema.type_count();
    let mut edges = Vec::new(alloc);
    for i in 0..count {
        edges.push(field_nodes(alloc, &schema.entry(i).fields, count, types)?)?;
    }
    Ok(edges)
}

// Appends lists.
fn add_lists(edges: &mut Vec<Vec<u32>>, lists: Vec<Vec<u32>>) -> Result<(), AllocError>
    ensures { OnOk result (edges_in edges.new.items ≡ edges_in edges.old.items ++ edges_in lists.items) }
{
    for list in lists {
        edges.push(list)?;
    }
    Ok(())
}

// The nodes that the types of fields name.
fn field_nodes(
    alloc: Global,
    fields: &[SchemaField],
    count: u32,
    types: u32,
) -> Result<Vec<u32>, AllocError>
    requires { count + types < 2 ^ 32 }
    ensures { IfOk result (λ nodes. nodes.items ≡ nodes_in count types (map slot fields.now)) }
{
    let mut nodes = Vec::new(alloc);
    for field in fields {
        name_nodes(&field.of, count, types, &mut nodes)?;
    }
    Ok(nodes)
}

// Adds the nodes that a type names.
#[cycle(nodes)]
fn name_nodes(of: &TypeRef, count: u32, types: u32, nodes: &mut Vec<u32>) -> Result<(), AllocError>
    requires few { count + types < 2 ^ 32 }
    ensures { OnOk result (nodes.new.items ≡ nodes.old.items ++ nodes_of count types (shape of.now)) }
{
    match of {
        TypeRef::Call => {
            nodes.push(count + types)?;
            Ok(())
        }
        TypeRef::Vector { item, .. } => name_nodes(item, count, types, nodes),
        TypeRef::Boxed { head, args } => {
            add_type(nodes, *head, count, types)?;
            name_all(args, count, types, nodes)
        }
        TypeRef::Bare { entry, args } => {
            add_entry(nodes, *entry, count)?;
            name_all(args, count, types, nodes)
        }
        _ => Ok(()),
    }
}

// Adds the nodes that these types name.
#[cycle(nodes)]
fn name_all(
    all: &Vec<TypeRef>,
    count: u32,
    types: u32,
    nodes: &mut Vec<u32>,
) -> Result<(), AllocError>
    requires few { count + types < 2 ^ 32 }
    ensures { OnOk result (nodes.new.items ≡ nodes.old.items ++ nodes_of_each count types (shapes_of (map shape all.now.items))) }
{
    for of in all {
        name_nodes(of, count, types, nodes)?;
    }
    Ok(())
}

// Adds the node of a type.
fn add_type(nodes: &mut Vec<u32>, head: u32, count: u32, types: u32) -> Result<(), AllocError>
    requires few { count + types < 2 ^ 32 }
    ensures { OnOk result (nodes.new.items ≡ nodes.old.items ++ type_node count types head) }
{
    if head < types {
        nodes.push(count + head)?;
    }
    Ok(())
}

// Adds the node of a declaration.
fn add_entry(nodes: &mut Vec<u32>, entry: u32, count: u32) -> Result<(), AllocError>
    ensures { OnOk result (nodes.new.items ≡ nodes.old.items ++ entry_node count entry) }
{
    if entry < count {
        nodes.push(entry)?;
    }
    Ok(())
}
