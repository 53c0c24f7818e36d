//! What is reached from a vertex.

ghost use Rattle.std.specs.Prelude.{◌≡◌, ◌<◌, ℕ, IfOk, OnOk, length, map, Contains};
ghost use Rattle.directed_graphs.specs.Graphs.{IsReachOf, AreNoted, IsLonger, rows_of, successors};

use scj_base::Memory;
use std::alloc::Global;

/// Notes a vertex, unless it is noted or there is none of this number.
fn note(marks: &mut Vec<bool>, found: &mut Vec<u32>, vertex: u32) -> Result<(), Memory>
    requires noted { AreNoted marks.old.items found.old.items }
    ensures whole { OnOk result (length marks.new.items ≡ length marks.old.items) }
    ensures noted { OnOk result (AreNoted marks.new.items found.new.items) }
    ensures there { OnOk result (vertex < length marks.old.items → Contains found.new.items vertex) }
    ensures longer { OnOk result (IsLonger found.old.items (λ v. v ≡ vertex) found.new.items) }
{
    let index = vertex as usize;
    if index < marks.len() && !marks[index] {
        marks[index] = true;
        found.push(vertex)?;
    }
    Ok(())
}

/// Notes vertices.
fn note_all(marks: &mut Vec<bool>, found: &mut Vec<u32>, vertices: &[u32]) -> Result<(), Memory>
    requires noted { AreNoted marks.old.items found.old.items }
    ensures whole { OnOk result (length marks.new.items ≡ length marks.old.items) }
    ensures noted { OnOk result (AreNoted marks.new.items found.new.items) }
    ensures there { OnOk result ((v : ℕ) → Contains vertices.now v → v < length marks.old.items →
        Contains found.new.items v) }
    ensures longer { OnOk result (IsLonger found.old.items (Contains vertices.now) found.new.items) }
{
    for index in 0..vertices.len() {
        note(marks, found, vertices[index])?;
    }
    Ok(())
}

/// The vertices to which one has an edge.
#[tactic(auto, using(crate::proofs::Rows::row_is))]
pub fn successors_of(rows: &[Vec<u32>], vertex: u32) -> &[u32]
    requires { vertex < length rows.now }
    ensures { result.now ≡ successors (rows_of rows.now) vertex }
{
    rows[vertex as usize].as_slice()
}

/// Which vertices are reached from one.
pub fn reached(alloc: Global, rows: &[Vec<u32>], from: u32) -> Result<Vec<bool>, Memory>
    requires { from < length rows.now }
    ensures { IfOk result (λ marks. IsReachOf (rows_of rows.now) from marks.items) }
{
    let mut marks = vec![in alloc; false; rows.len()]?;
    let mut found = Vec::new(alloc);
    note(&mut marks, &mut found, from)?;
    for index in 0..rows.len() {
        if index >= found.len() {
            return Ok(marks);
        }
        let vertex = found[index];
        note_all(&mut marks, &mut found, successors_of(rows, vertex))?;
    }
    Ok(marks)
}
