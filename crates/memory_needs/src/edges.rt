//! The graph of a program: which nodes and bodies come next to each.

ghost use Rattle.std.specs.Prelude.{◌≡◌, ◌≤◌, ◌<◌, ◌+◌, ◌++◌, ◌∷◌, ◌^◌, [], IfOk, OnOk};
ghost use Rattle.scj_tree.specs.Parts.{ids_of};
ghost use Rattle.scj_tree.specs.Shape.{optional};
ghost use Rattle.scj_model.specs.Code.{code_of};
ghost use Rattle.memory_needs.specs.Reach.{run_parts};
ghost use Rattle.memory_needs.specs.Edges.{count, edges_of_node, edges_of_vertex, parts_of, runs_entered, runs_here, vertex_behind, vertices_behind};
ghost use Rattle.memory_needs.specs.Sites.{IsTable};

use crate::code::Code;
use scj_base::{Memory, NodeId};
use scj_tree::{Node, Parts, parts_of};
use std::alloc::Global;

/// The most nodes of which each has a vertex, and its body another one.
const MOST_NODES: usize = 2_147_483_648;

/// The parts of a node that run where it does.
#[tactic(auto, unfolding(crate::specs::Reach::run_parts))]
pub fn run_parts_of(node: &Node) -> Parts<'_>
    ensures { ids_of result ≡ run_parts node.now }
{
    match node {
        Node::Class { .. } => Parts::Nothing,
        _ => parts_of(node),
    }
}

/// Notes a node.
fn note(row: &mut Vec<u32>, node: NodeId) -> Result<(), Memory>
    ensures { OnOk result (row.new.items ≡ row.old.items ++ node ∷ []) }
{
    row.push(node.number() as u32)?;
    Ok(())
}

/// Notes a node, if there is one.
fn note_optional(row: &mut Vec<u32>, node: Option<NodeId>) -> Result<(), Memory>
    ensures { OnOk result (row.new.items ≡ row.old.items ++ optional node) }
{
    match node {
        Some(node) => note(row, node),
        None => Ok(()),
    }
}

/// Notes nodes.
fn note_all(row: &mut Vec<u32>, nodes: &[NodeId]) -> Result<(), Memory>
    ensures { OnOk result (row.new.items ≡ row.old.items ++ nodes.now) }
{
    let mut rest = nodes;
    while let [node, others @ ..] = rest {
        note(row, *node)?;
        rest = others;
    }
    Ok(())
}

/// Notes the parts of a node.
fn note_parts(row: &mut Vec<u32>, parts: &Parts<'_>) -> Result<(), Memory>
    ensures { OnOk result (row.new.items ≡ row.old.items ++ ids_of parts.now) }
{
    match parts {
        Parts::Nothing => Ok(()),
        Parts::One(child) => note(row, *child),
        Parts::Two(first, second) => {
            note(row, *first)?;
            note(row, *second)
        }
        Parts::Four(first, second, third, fourth) => {
            note_optional(row, *first)?;
            note_optional(row, *second)?;
            note_optional(row, *third)?;
            note_optional(row, *fourth)
        }
        Parts::Listed(first, second, list) => {
            note_optional(row, *first)?;
            note_optional(row, *second)?;
            note_all(row, list)
        }
    }
}

/// Notes the vertex of a body, if its node is one of so many.
fn note_body(row: &mut Vec<u32>, count: usize, node: NodeId) -> Result<(), Memory>
    requires { count ≤ 2 ^ 31 }
    ensures { OnOk result (row.new.items ≡ row.old.items ++ vertex_behind count node) }
{
    let number = node.number();
    if number < count {
        row.push((count + number) as u32)?;
    }
    Ok(())
}

/// Notes the vertices of bodies.
#[tactic(auto, unfolding(crate::specs::Edges::vertices_behind))]
fn note_bodies(row: &mut Vec<u32>, count: usize, nodes: &[NodeId]) -> Result<(), Memory>
    requires { count ≤ 2 ^ 31 }
    ensures { OnOk result (row.new.items ≡ row.old.items ++ vertices_behind count nodes.now) }
{
    let mut rest = nodes;
    while let [node, others @ ..] = rest {
        note_body(row, count, *node)?;
        rest = others;
    }
    Ok(())
}

/// Notes the parts of the node of a number.
#[tactic(auto, unfolding(crate::specs::Edges::parts_of))]
fn note_parts_of(row: &mut Vec<u32>, code: &Code<'_>, id: NodeId) -> Result<(), Memory>
    ensures { OnOk result (row.new.items ≡ row.old.items ++ parts_of (code_of code.now) id) }
{
    match code.node(id) {
        Some(node) => note_parts(row, &run_parts_of(node)),
        None => Ok(()),
    }
}

/// The edges out of a node, by what it runs.
#[tactic(auto, using(crate::proofs::EdgeLists::edges_are))]
fn edges_of(
    alloc: Global,
    code: &Code<'_>,
    id: NodeId,
    here: &[NodeId],
    entered: &[NodeId],
) -> Result<Vec<u32>, Memory>
    requires here { here.now ≡ runs_here (code_of code.now) id }
    requires entered { entered.now ≡ runs_entered (code_of code.now) id }
    requires few { count (code_of code.now) ≤ 2 ^ 31 }
    ensures { IfOk result (λ row. row.items ≡ edges_of_node (code_of code.now) id) }
{
    let count = code.count();
    let mut row = Vec::new(alloc);
    note_parts_of(&mut row, code, id)?;
    note_bodies(&mut row, count, here)?;
    note_bodies(&mut row, count, entered)?;
    Ok(row)
}

/// The edges out of a vertex, by what each node runs.
#[tactic(auto, unfolding(crate::specs::Edges::edges_of_vertex))]
fn edges_of_vertex(
    alloc: Global,
    code: &Code<'_>,
    vertex: usize,
    here: &[Vec<NodeId>],
    entered: &[Vec<NodeId>],
) -> Result<Vec<u32>, Memory>
    requires here { IsTable (runs_here (code_of code.now)) (count (code_of code.now)) here.now }
    requires entered { IsTable (runs_entered (code_of code.now)) (count (code_of code.now)) entered.now }
    requires few { count (code_of code.now) ≤ 2 ^ 31 }
    requires vertex { vertex < count (code_of code.now) + count (code_of code.now) }
    ensures { IfOk result (λ row. row.items ≡ edges_of_vertex (code_of code.now) vertex) }
{
    let count = code.count();
    if vertex < count {
        return edges_of(
            alloc,
            code,
            NodeId::at(vertex as u32),
            here[vertex].as_slice(),
            entered[vertex].as_slice(),
        );
    }
    let mut row = Vec::new(alloc);
    row.push((vertex - count) as u32)?;
    Ok(row)
}

/// The edges out of all vertices.
#[tactic(auto, using(crate::proofs::Tables::table_none, crate::proofs::Tables::table_more))]
pub fn all_edges(
    alloc: Global,
    code: &Code<'_>,
    here: &[Vec<NodeId>],
    entered: &[Vec<NodeId>],
) -> Result<Vec<Vec<u32>>, Memory>
    requires here { IsTable (runs_here (code_of code.now)) (count (code_of code.now)) here.now }
    requires entered { IsTable (runs_entered (code_of code.now)) (count (code_of code.now)) entered.now }
    ensures few { OnOk result (count (code_of code.now) ≤ 2 ^ 31) }
    ensures table { IfOk result (λ table. IsTable (edges_of_vertex (code_of code.now))
        (count (code_of code.now) + count (code_of code.now)) table.items) }
{
    let count = code.count();
    if count > MOST_NODES {
        return Err(Memory);
    }
    let mut table = Vec::new(alloc);
    for vertex in 0..count + count {
        table.push(edges_of_vertex(alloc, code, vertex, here, entered)?)?;
    }
    Ok(table)
}
