//! What is found of a program once, for all its handler classes.

ghost use Rattle.std.specs.Prelude.{IfOk};
ghost use Rattle.scj_model.specs.Code.{code_of};
ghost use Rattle.memory_needs.specs.ProgramTables.{AreTablesOf};

use crate::code::Code;
use crate::edges::all_edges;
use crate::needs::needs;
use crate::points::all_points;
use crate::shown::{Shown, all_shown};
use crate::sites::{all_run_entered, all_run_here};
use directed_graphs::{Order, in_order};
use scj_base::{Memory, NodeId};
use std::alloc::Global;

/// Tables of nodes and vertices.
#[derive(Drop)]
pub struct Tables {
    /// The bodies that each node runs in its own area.
    pub here: Vec<Vec<NodeId>>,
    /// The bodies that each node runs in the area that it enters.
    pub entered: Vec<Vec<NodeId>>,
    /// The edges out of each vertex.
    pub edges: Vec<Vec<u32>>,
    /// The vertices in an order, and of each whether it leads to itself.
    pub order: Order,
    /// What each node needs.
    pub needs: Vec<u64>,
    /// What each node shows.
    pub shown: Vec<Option<Shown>>,
    /// The numbers of the nodes that show something, or whose body leads to itself.
    pub points: Vec<NodeId>,
}

/// The tables of a program.
pub fn tables_of(alloc: Global, code: &Code<'_>) -> Result<Tables, Memory>
    ensures { IfOk result (AreTablesOf (code_of code.now)) }
{
    code.children_first();
    let here = all_run_here(alloc, code)?;
    let entered = all_run_entered(alloc, code)?;
    let edges = all_edges(alloc, code, here.as_slice(), entered.as_slice())?;
    let order = in_order(alloc, edges.as_slice())?;
    let needs = needs(alloc, code, here.as_slice(), order.vertices.as_slice())?;
    let shown = all_shown(alloc, code, needs.as_slice(), entered.as_slice())?;
    let points = all_points(alloc, code, order.loops.as_slice(), shown.as_slice())?;
    Ok(Tables {
        here,
        entered,
        edges,
        order,
        needs,
        shown,
        points,
    })
}
