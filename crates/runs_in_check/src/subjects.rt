//! The subjects of guards: what an `if` asks of them, and what assigns to them.

ghost use Rattle.std.specs.Prelude.{◌≡◌, ◌==◌, slice_get};
ghost use Rattle.scj_rules.specs.Words.{holds};
ghost use Rattle.scj_rules.specs.Contexts.{declarations_of};
ghost use Rattle.scj_rules.specs.Definitions.{read};
ghost use Rattle.scj_rules.specs.Guards.{subject_at, are_same_subject, are_subjects, asked_at, asked_by, assigned_at, guard_of, is_first_part, is_subject};
ghost use Rattle.scj_rules.specs.Types.{called_builtin};
ghost use Rattle.scj_builtins.specs.Framework.{managed_memory_alloc_in_same};
ghost use Rattle.program_facts.specs.Reported.{declared, types};

use crate::calls::called_builtin;
use program_facts::{At, NameMeaning, ProgramFacts};
use scj_base::ids::MANAGED_MEMORY_ALLOC_IN_SAME;
use scj_base::{Name, NodeId};
use scj_rules::{Guard, Subject};
use scj_tree::{Node, Program};
use type_rules::names;

/// The subject that a node is, if it is one.
#[tactic(auto, unfolding(scj_rules::specs::Guards::subject_of, scj_rules::specs::Guards::subject_of_meaning, program_facts::specs::Meanings::meant, scj_rules::specs::Contexts::declarations_of))]
pub fn subject_at(facts: &ProgramFacts<'_>, id: NodeId) -> Option<Subject>
    ensures { result ≡ subject_at (declarations_of facts.now) id }
{
    match facts.program().get(id)? {
        Node::This { .. } => Some(Subject::This),
        Node::SimpleName { name, .. } => match names::meaning(facts, id, name.get()) {
            NameMeaning::Variable(variable) => Some(Subject::Variable(variable)),
            _ => None,
        },
        _ => None,
    }
}

/// Whether two subjects are the same.
#[tactic(auto, unfolding(scj_rules::specs::Guards::are_same_subject))]
fn are_same_subject(x: &Subject, y: &Subject) -> bool
    ensures { result ≡ are_same_subject x.now y.now }
{
    match (x, y) {
        (Subject::This, Subject::This) => true,
        (Subject::Variable(x), Subject::Variable(y)) => *x == *y,
        _ => false,
    }
}

/// Whether a subject is one of a guard's.
pub fn is_subject(guard: &Guard, x: &Subject) -> bool
    ensures { result ≡ is_subject guard.now x.now }
{
    are_same_subject(x, &guard.first) || are_same_subject(x, &guard.second)
}

/// Whether two subjects are those of a guard, in either order.
pub fn are_subjects(x: &Subject, y: &Subject, guard: &Guard) -> bool
    ensures { result ≡ are_subjects x.now y.now guard.now }
{
    (are_same_subject(x, &guard.first) && are_same_subject(y, &guard.second))
        || (are_same_subject(y, &guard.first) && are_same_subject(x, &guard.second))
}

/// Whether a call is one of `ManagedMemory.allocInSame`.
fn asks(at: &At<'_>, name: &Name, object: &Option<NodeId>) -> bool
    ensures { result ≡ holds (called_builtin (declared at.now) (types at.now) at.now.id object.now name.now)
        (λ number. number == managed_memory_alloc_in_same) }
{
    match called_builtin(at, name, object) {
        Some(number) => number == MANAGED_MEMORY_ALLOC_IN_SAME,
        None => false,
    }
}

/// The guard of two nodes, if both are subjects.
fn guard_of(facts: &ProgramFacts<'_>, first: NodeId, second: NodeId) -> Option<Guard>
    ensures { let p = declarations_of facts.now in result ≡ guard_of (subject_at p first) (subject_at p second) }
{
    let first = subject_at(facts, first)?;
    let second = subject_at(facts, second)?;
    Some(Guard { first, second })
}

/// The subjects of which a condition asks whether their objects lie in one area.
#[tactic(auto, unfolding(scj_rules::specs::Guards::asked_by, scj_rules::specs::Contexts::declarations_of))]
fn asked_by(at: &At<'_>) -> Option<Guard>
    ensures { let p = declared at.now in
        result ≡ read p.nodes (asked_by p (types at.now) at.now.id) at.now.id }
{
    match at.facts.program().get(at.id)? {
        Node::Call {
            name,
            object,
            arguments,
            ..
        } => match arguments.items() {
            [first, second] => {
                if asks(at, name.get(), object) {
                    guard_of(at.facts, *first, *second)
                } else {
                    None
                }
            }
            _ => None,
        },
        _ => None,
    }
}

/// The same of the condition of an `if`.
#[tactic(auto, unfolding(scj_rules::specs::Guards::condition_of, scj_rules::specs::Contexts::declarations_of))]
pub fn asked_at(at: &At<'_>) -> Option<Guard>
    ensures { result ≡ asked_at (declared at.now) (types at.now) at.now.id }
{
    match at.facts.program().get(at.id)? {
        Node::If { condition, .. } => asked_by(&At {
            facts: at.facts,
            types: at.types,
            scopes: at.scopes,
            id: *condition,
        }),
        _ => None,
    }
}

/// The subject to which a node assigns, if it does.
#[tactic(auto, unfolding(scj_rules::specs::Guards::assigned_by, scj_rules::specs::Contexts::declarations_of))]
pub fn assigned_at(facts: &ProgramFacts<'_>, id: NodeId) -> Option<Subject>
    ensures { result ≡ assigned_at (declarations_of facts.now) id }
{
    match facts.program().get(id)? {
        Node::Assign { target, .. } => subject_at(facts, *target),
        _ => None,
    }
}

/// Whether a part is the first one of an `if`.
#[tactic(auto, unfolding(scj_rules::specs::Guards::is_first_part))]
pub fn is_first_part(program: &Program, parent: NodeId, part: NodeId) -> bool
    ensures { result ≡ holds (slice_get program.now.nodes parent) (is_first_part part) }
{
    matches!(program.get(parent), Some(Node::If { then_part, .. }) if *then_part == part)
}
