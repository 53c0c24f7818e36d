//! Fields, as far as they are asked for by their nodes.

ghost use Rattle.std.specs.Prelude.{◌≡◌, filter, filter_map, IfOk};
ghost use Rattle.object_layout.specs.Fields.{kind_at, static_at, is_static_at, is_instance_at};

use crate::parts::{kind_of_type, literal_written};
use node_views::{field_type, is_field, is_static_field};
use scj_base::{Memory, NodeId};
use scj_rules::SlotKind;
use scj_tree::Program;
use std::alloc::Global;

/// A static field (JLS 8.3.1.1).
#[derive(Clone, Copy, Debug)]
pub struct StaticField {
    /// Its node.
    pub node: NodeId,
    /// What it holds.
    pub kind: SlotKind,
    /// The node of the literal with which it is declared.
    pub literal: Option<NodeId>,
}

/// What the field at a node holds.
#[tactic(auto, using(crate::proofs::FieldLemmas::kind_there, crate::proofs::FieldLemmas::kind_missing))]
fn kind_at(program: &Program, id: NodeId) -> Option<SlotKind>
    ensures { result ≡ kind_at program.now.nodes id }
{
    match field_type(program, id) {
        Some(declared_type) => Some(kind_of_type(&declared_type)),
        None => None,
    }
}

/// The static field at a node.
#[tactic(auto, using(crate::proofs::FieldLemmas::static_there, crate::proofs::FieldLemmas::static_missing))]
fn static_at(program: &Program, id: NodeId) -> Option<StaticField>
    ensures { result ≡ static_at program.now.nodes id }
{
    if !is_static_field(program, id) {
        return None;
    }
    match field_type(program, id) {
        Some(declared_type) => Some(StaticField {
            node: id,
            kind: kind_of_type(&declared_type),
            literal: literal_written(program, id),
        }),
        None => None,
    }
}

/// Whether a node declares a field that is not static.
#[tactic(auto, using(crate::proofs::FieldLemmas::instance_tested))]
fn is_instance_field(program: &Program, id: NodeId) -> bool
    ensures { result ≡ is_instance_at program.now.nodes id }
{
    is_field(program, id) && !is_static_field(program, id)
}

/// What the fields at these nodes hold.
pub fn kinds_at(alloc: Global, program: &Program, ids: &[NodeId]) -> Result<Vec<SlotKind>, Memory>
    ensures { IfOk result (λ kinds. kinds.items ≡ filter_map (kind_at program.now.nodes) ids.now) }
{
    let mut kinds = Vec::new(alloc);
    let mut others = ids;
    while let [id, rest @ ..] = others {
        if let Some(kind) = kind_at(program, *id) {
            kinds.push(kind)?;
        }
        others = rest;
    }
    Ok(kinds)
}

/// The static fields at these nodes.
pub fn statics_at(
    alloc: Global,
    program: &Program,
    ids: &[NodeId],
) -> Result<Vec<StaticField>, Memory>
    ensures { IfOk result (λ statics. statics.items ≡ filter_map (static_at program.now.nodes) ids.now) }
{
    let mut statics = Vec::new(alloc);
    let mut others = ids;
    while let [id, rest @ ..] = others {
        if let Some(row) = static_at(program, *id) {
            statics.push(row)?;
        }
        others = rest;
    }
    Ok(statics)
}

/// Those of these nodes that declare static fields.
pub fn static_nodes(alloc: Global, program: &Program, ids: &[NodeId]) -> Result<Vec<NodeId>, Memory>
    ensures { IfOk result (λ nodes. nodes.items ≡ filter (is_static_at program.now.nodes) ids.now) }
{
    let mut nodes = Vec::new(alloc);
    let mut others = ids;
    while let [id, rest @ ..] = others {
        if is_static_field(program, *id) {
            nodes.push(*id)?;
        }
        others = rest;
    }
    Ok(nodes)
}

/// Those of these nodes that declare fields which are not static.
pub fn instance_nodes(
    alloc: Global,
    program: &Program,
    ids: &[NodeId],
) -> Result<Vec<NodeId>, Memory>
    ensures { IfOk result (λ nodes. nodes.items ≡ filter (is_instance_at program.now.nodes) ids.now) }
{
    let mut nodes = Vec::new(alloc);
    let mut others = ids;
    while let [id, rest @ ..] = others {
        if is_instance_field(program, *id) {
            nodes.push(*id)?;
        }
        others = rest;
    }
    Ok(nodes)
}
