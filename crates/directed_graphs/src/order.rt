//! Which vertices lead to themselves, and an order of all of them in which each other one stands behind those to which it
//! has an edge: by the path-based algorithm for strong components.

ghost use Rattle.std.specs.Prelude.{◌≡◌, ◌<◌, ◌≤◌, ◌+◌, ◌-◌, ◌^◌, ℕ, IfOk, OnOk, IfSome, All, List, [], length, slice_get, Option, Some};
ghost use Rattle.directed_graphs.specs.Graphs.{EdgesStay, AreInOrder, rows_of};
ghost use Rattle.directed_graphs.specs.Walks.{group_of, mark_of, IsWalk, IsFollowing, walk_of, entered, IsMerged, IsClosed, GoesOn, Advances, Ends};
ghost use Rattle.directed_graphs.specs.declared.order.Mark.TheVariants.{Unseen as unseen};

use crate::reach::successors_of;
use scj_base::Memory;
use std::alloc::Global;

/// Where a vertex is.
#[derive(Clone, Copy, Debug)]
pub enum Mark {
    /// It hasn't been come to.
    Unseen,
    /// At this place of the path.
    OnPath { index: usize },
    /// All has been followed from it.
    Done,
}

/// Vertices on the path each of which is reached from each, as far as the next group.
#[derive(Clone, Copy, Debug)]
pub struct Group {
    /// The place of its first vertex on the path.
    pub vertex: usize,
    /// The place of its first edge among those that are still to be followed.
    pub edge: usize,
    /// Whether an edge between its vertices was followed.
    pub loops: bool,
}

/// What has been found on the way.
#[derive(Drop)]
pub struct Search {
    pub marks: Vec<Mark>,
    pub path: Vec<u32>,
    pub edges: Vec<u32>,
    pub groups: Vec<Group>,
    pub order: Vec<u32>,
    pub loops: Vec<bool>,
}

/// All vertices in an order.
#[derive(Drop)]
pub struct Order {
    /// The vertices; one that doesn't lead to itself stands behind all to which it has an edge.
    pub vertices: Vec<u32>,
    /// Of each vertex whether it leads to itself.
    pub loops: Vec<bool>,
}

/// A vertex that hasn't been come to is the last group now, with all its edges to be followed.
fn enter(search: &mut Search, rows: &[Vec<u32>], vertex: u32) -> Result<(), Memory>
    requires vertex { vertex < length rows.now }
    requires whole { length search.old.marks.items ≡ length rows.now }
    ensures { OnOk result (walk_of search.new ≡ entered (rows_of rows.now) (walk_of search.old) vertex) }
{
    let index = search.path.len();
    let group = Group {
        vertex: index,
        edge: search.edges.len(),
        loops: false,
    };
    search.groups.push(group)?;
    search.marks[vertex as usize] = Mark::OnPath { index };
    search.path.push(vertex)?;
    search.edges.extend_from_slice(successors_of(rows, vertex))?;
    Ok(())
}

/// How many groups begin at a place of the path or before it, as long as they rise.
fn groups_upto(groups: &[Group], index: usize) -> usize
    ensures within { result ≤ length groups.now }
    ensures behind { (k : ℕ) (g : Group) → slice_get groups.now k ≡ Some g → result ≤ k → index < g.vertex }
    ensures last { 0 < result → IfSome (slice_get groups.now (result - 1)) (λ g. g.vertex ≤ index) }
{
    let mut count = groups.len();
    while count > 0 && groups[count - 1].vertex > index {
        count -= 1;
    }
    count
}

/// The groups from the one on in which a place of the path stands become one, in which an edge leads back.
fn merge(search: &mut Search, index: usize)
    requires { 0 < group_of (walk_of search.old) index }
    ensures { IsMerged (walk_of search.old) index (walk_of search.new) }
{
    let count = groups_upto(search.groups.as_slice(), index);
    search.groups.truncate(count);
    if count > 0 {
        search.groups[count - 1].loops = true;
    }
}

/// The vertices of the last group, from which all has been followed, are listed.
fn close(search: &mut Search, group: Group) -> Result<(), Memory>
    requires begins { group.vertex ≤ length search.old.path.items }
    requires marks { All (λ v. v < length search.old.marks.items) search.old.path.items }
    requires loops { length search.old.loops.items ≡ length search.old.marks.items }
    ensures { OnOk result (IsClosed group (walk_of search.old) (walk_of search.new)) }
{
    for index in group.vertex..search.path.len() {
        let vertex = search.path[index];
        search.marks[vertex as usize] = Mark::Done;
        search.loops[vertex as usize] = group.loops;
        search.order.push(vertex)?;
    }
    search.path.truncate(group.vertex);
    Ok(())
}

/// The edge to a vertex is followed.
fn follow(search: &mut Search, rows: &[Vec<u32>], vertex: u32) -> Result<(), Memory>
    requires following { IsFollowing (rows_of rows.now) (walk_of search.old) vertex }
    requires stay { EdgesStay (rows_of rows.now) }
    ensures { OnOk result (GoesOn (rows_of rows.now) (walk_of search.old) (walk_of search.new)) }
{
    match search.marks[vertex as usize] {
        Mark::Unseen => enter(search, rows, vertex),
        Mark::OnPath { index } => {
            merge(search, index);
            Ok(())
        }
        Mark::Done => Ok(()),
    }
}

/// One step: an edge of the last group is followed, or the group is closed.
fn step(search: &mut Search, rows: &[Vec<u32>]) -> Result<(), Memory>
    requires walk { IsWalk (rows_of rows.now) (walk_of search.old) }
    requires stay { EdgesStay (rows_of rows.now) }
    requires some { 0 < length search.old.groups.items }
    ensures { OnOk result (Advances (rows_of rows.now) (walk_of search.old) (walk_of search.new)) }
{
    let group = search.groups[search.groups.len() - 1];
    if search.edges.len() <= group.edge {
        search.groups.pop();
        return close(search, group);
    }
    match search.edges.pop() {
        Some(vertex) => follow(search, rows, vertex),
        None => Ok(()),
    }
}

/// Walks on until no group is left on the path.
fn walk_on(search: &mut Search, rows: &[Vec<u32>]) -> Result<(), Memory>
    requires walk { IsWalk (rows_of rows.now) (walk_of search.old) }
    requires stay { EdgesStay (rows_of rows.now) }
    ensures { OnOk result (Ends (rows_of rows.now) (walk_of search.old) (walk_of search.new)) }
{
    while !search.groups.is_empty() {
        step(search, rows)?;
    }
    Ok(())
}

/// Walks on from a vertex, unless it has been come to.
fn visit(search: &mut Search, rows: &[Vec<u32>], root: u32) -> Result<(), Memory>
    requires walk { IsWalk (rows_of rows.now) (walk_of search.old) }
    requires none { search.old.groups.items ≡ [] }
    requires stay { EdgesStay (rows_of rows.now) }
    requires there { root < length rows.now }
    ensures ends { OnOk result (Ends (rows_of rows.now) (walk_of search.old) (walk_of search.new)) }
    ensures seen { OnOk result (mark_of (walk_of search.new) root ≡ unseen → ⊥) }
{
    match search.marks[root as usize] {
        Mark::Unseen => {
            enter(search, rows, root)?;
            walk_on(search, rows)
        }
        _ => Ok(()),
    }
}

/// Which vertices lead to themselves, and an order of all.
pub fn in_order(alloc: Global, rows: &[Vec<u32>]) -> Result<Order, Memory>
    requires stay { EdgesStay (rows_of rows.now) }
    requires few { length rows.now ≤ 2 ^ 32 }
    ensures { IfOk result (λ o. AreInOrder (rows_of rows.now) o.vertices.items o.loops.items) }
{
    let mut search = Search {
        marks: vec![in alloc; Mark::Unseen; rows.len()]?,
        path: Vec::new(alloc),
        edges: Vec::new(alloc),
        groups: Vec::new(alloc),
        order: Vec::new(alloc),
        loops: vec![in alloc; false; rows.len()]?,
    };
    for root in 0..rows.len() {
        visit(&mut search, rows, root as u32)?;
    }
    Ok(Order {
        vertices: search.order,
        loops: search.loops,
    })
}
