//! The guards of a program: the `if`s whose first part may store a subject in a field of the other.

ghost use Rattle.std.specs.Prelude.{◌≡◌, ◌∷◌, ◌+◌, ◌<◌, ◌==◌, ◌&&◌, ℕ, [], false, IfOk, length, None, slice_get};
ghost use Rattle.std.specs.HashMap.{get, hash_map_len};
ghost use Rattle.scj_tree.specs.Recursion.{lookup};
ghost use Rattle.scj_rules.specs.Words.{holds};
ghost use Rattle.scj_rules.specs.Contexts.{declarations_of, parent_in};
ghost use Rattle.scj_rules.specs.Guards.{asked_at, ifs_around, is_first_part, is_guarded, is_subject};
ghost use Rattle.program_facts.specs.Reported.{declared, types};
ghost use Rattle.runs_in_check.specs.Guards.{guards_both, ifs_at, left_by, left_from, row_in, AreGuards};

use crate::parents::parents_of;
use crate::subjects::{are_subjects, asked_at, assigned_at, is_first_part, is_subject};
use program_facts::{At, ProgramFacts};
use scj_base::{Memory, NodeId};
use scj_rules::{Guard, Subject, Ty};
use scj_tree::{Program, row_or};
use std::alloc::Global;
use std::collections::HashMap;

/// The guards of a program, by the places of their `if`s, and the parents of its nodes, where there are guards. Few nodes
/// are guards, so no row stands for each node.
#[derive(Drop)]
pub struct Guards {
    pub rows: HashMap<usize, Guard>,
    pub parents: Vec<Option<NodeId>>,
}

/// Whether some `if` asks whether two objects lie in one area. In most programs none does.
fn is_any_asked<'a>(facts: &'a ProgramFacts<'a>, types: &'a [Option<Ty>]) -> bool
    ensures { result ≡ false → (number : ℕ) →
        asked_at (declarations_of facts.now) (lookup None types.now) number ≡ None }
{
    let program = facts.program();
    for index in 0..program.len() {
        let id = NodeId::at(index as u32);
        let at = At {
            facts,
            types,
            scopes: &[],
            id,
        };
        if asked_at(&at).is_some() {
            return true;
        }
    }
    false
}

/// What each `if` asks.
#[tactic(auto, using(crate::proofs::Walks::none_below, crate::proofs::Walks::one_below))]
fn asked<'a>(
    alloc: Global,
    facts: &'a ProgramFacts<'a>,
    types: &'a [Option<Ty>],
) -> Result<HashMap<usize, Guard>, Memory>
    ensures { IfOk result (λ rows. (number : ℕ) →
        get ◌==◌ rows number ≡ asked_at (declarations_of facts.now) (lookup None types.now) number) }
{
    // The proof wants the type named that a guard holds.
    let _subject: Option<Subject> = None;
    let program = facts.program();
    let mut rows = HashMap::new(alloc);
    for index in 0..program.len() {
        let id = NodeId::at(index as u32);
        let at = At {
            facts,
            types,
            scopes: &[],
            id,
        };
        if let Some(guard) = asked_at(&at) {
            rows.insert(index, guard)?;
        }
    }
    Ok(rows)
}

/// Whether the row of an `if` has a guard of the subject.
fn is_asked_of(rows: &HashMap<usize, Guard>, number: NodeId, x: &Subject) -> bool
    ensures { result ≡ holds (get ◌==◌ rows.now number) (λ g. is_subject g x.now) }
{
    match rows.get(&number.number()) {
        Some(guard) => is_subject(guard, x),
        None => false,
    }
}

/// Undoes a guard, if there is one of the subject.
fn undo_one(rows: &mut HashMap<usize, Guard>, number: NodeId, x: &Subject)
    ensures { (other : ℕ) → get ◌==◌ rows.new other
        ≡ left_by x.now (number ∷ []) other (get ◌==◌ rows.old other) }
{
    if is_asked_of(rows, number, x) {
        rows.remove(&number.number());
    }
}

/// Undoes the guard of which a part of a parent is the first, if there is one of the subject.
fn undo_at(
    rows: &mut HashMap<usize, Guard>,
    program: &Program,
    parent: NodeId,
    part: NodeId,
    x: &Subject,
)
    ensures { (number : ℕ) → get ◌==◌ rows.new number
        ≡ left_by x.now (ifs_at program.now.nodes parent part) number (get ◌==◌ rows.old number) }
{
    if is_first_part(program, parent, part) {
        undo_one(rows, parent, x);
    }
}

/// Undoes the guards of a subject around a node, which assigns to it.
fn undo(
    rows: &mut HashMap<usize, Guard>,
    program: &Program,
    parents: &[Option<NodeId>],
    id: NodeId,
    x: &Subject,
)
    requires { (n : ℕ) → lookup None parents.now n ≡ parent_in program.now.nodes n }
    ensures { (number : ℕ) → get ◌==◌ rows.new number
        ≡ left_by x.now (ifs_around program.now.nodes id) number (get ◌==◌ rows.old number) }
{
    let mut part = id;
    let mut left = program.len();
    while left > 0 {
        let Some(parent) = row_or(parents, None, part) else {
            return;
        };
        undo_at(rows, program, parent, part, x);
        part = parent;
        left -= 1;
    }
}

/// Undoes the guards that a node undoes.
fn undo_by(
    rows: &mut HashMap<usize, Guard>,
    facts: &ProgramFacts<'_>,
    parents: &[Option<NodeId>],
    id: NodeId,
)
    requires parents { (n : ℕ) → lookup None parents.now n ≡ parent_in facts.now.nodes n }
    requires within { id < length facts.now.nodes }
    ensures { let p = declarations_of facts.now in (number : ℕ) →
        left_from p (id + 1) number (get ◌==◌ rows.new number)
        ≡ left_from p id number (get ◌==◌ rows.old number) }
{
    match &assigned_at(facts, id) {
        Some(x) => undo(rows, facts.program(), parents, id, x),
        None => {}
    }
}

/// Undoes the guards that some node undoes.
fn undo_all(rows: &mut HashMap<usize, Guard>, facts: &ProgramFacts<'_>, parents: &[Option<NodeId>])
    requires { (n : ℕ) → lookup None parents.now n ≡ parent_in facts.now.nodes n }
    ensures { (number : ℕ) → get ◌==◌ rows.new number
        ≡ left_from (declarations_of facts.now) 0 number (get ◌==◌ rows.old number) }
{
    let program = facts.program();
    for index in 0..program.len() {
        let id = NodeId::at(index as u32);
        undo_by(rows, facts, parents, id);
    }
}

/// The guards of a program, by the types of its nodes.
pub fn guards_of<'a>(
    alloc: Global,
    facts: &'a ProgramFacts<'a>,
    types: &'a [Option<Ty>],
) -> Result<Guards, Memory>
    ensures { IfOk result (AreGuards (declarations_of facts.now) (lookup None types.now)) }
{
    if !is_any_asked(facts, types) {
        let rows = HashMap::new(alloc);
        let parents = Vec::new(alloc);
        return Ok(Guards { rows, parents });
    }
    let mut rows = asked(alloc, facts, types)?;
    let parents = parents_of(alloc, facts.program())?;
    undo_all(&mut rows, facts, &parents);
    Ok(Guards { rows, parents })
}

/// Whether a part of a parent is the first one of a guard of two subjects.
fn guards_part(
    guards: &Guards,
    program: &Program,
    parent: NodeId,
    part: NodeId,
    x: &Subject,
    y: &Subject,
) -> bool
    ensures { result ≡ (holds (slice_get program.now.nodes parent) (is_first_part part)
        && guards_both (row_in guards.now) x.now y.now parent) }
{
    if !is_first_part(program, parent, part) {
        return false;
    }
    match guards.rows.get(&parent.number()) {
        Some(guard) => are_subjects(x, y, guard),
        None => false,
    }
}

/// Whether there are no guards.
fn is_without(guards: &Guards) -> bool
    ensures { result ≡ (hash_map_len guards.now.rows == 0) }
{
    guards.rows.len() == 0
}

/// Whether a node stands in the first part of a guard of two subjects.
pub fn is_guarded(guards: &Guards, at: &At<'_>, x: &Subject, y: &Subject) -> bool
    requires { AreGuards (declared at.now) (types at.now) guards.now }
    ensures { result ≡ is_guarded (declared at.now) (types at.now) at.now.id x.now y.now }
{
    if is_without(guards) {
        return false;
    }
    let program = at.facts.program();
    let mut part = at.id;
    let mut left = program.len();
    while left > 0 {
        let Some(parent) = row_or(&guards.parents, None, part) else {
            return false;
        };
        if guards_part(guards, program, parent, part, x, y) {
            return true;
        }
        part = parent;
        left -= 1;
    }
    false
}
