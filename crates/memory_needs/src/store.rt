//! How large a store excludes that one is full.

ghost use Rattle.std.specs.Prelude.{◌≡◌, ◌<◌, Contains, IfSome, length, if◌then◌else◌};
ghost use Rattle.scj_tree.specs.Heights.{highest};
ghost use Rattle.scj_rules.specs.Bodies.{size_of};
ghost use Rattle.scj_model.specs.Code.{code_of};
ghost use Rattle.memory_needs.specs.Causes.{storage};
ghost use Rattle.memory_needs.specs.Formed.{IsFormed};
ghost use Rattle.memory_needs.specs.Rows.{handler_classes, immortal_bytes, is_concrete_handler, is_concrete_mission, mission_bytes, release_bytes, rounded_or_0, store_needed};
ghost use Rattle.memory_needs.specs.Stores.{class_room};
ghost use Rattle.memory_needs.specs.WellFormed.{IsWellFormed};

use crate::class_answers::handler_node;
use crate::code::Code;
use crate::needs::number_literal;
use crate::rooms::rounded_up;
use crate::rows::is_concrete_handler;
use crate::storage::storage_node;
use scj_base::ClassId;
use scj_base::ids::MISSION;
use scj_tree::row_or;

/// The most jobs that are started at once.
const MOST_STARTED: u64 = 28;

/// Bytes in whole words, and 0 where there are none.
fn rounded_or_0(bytes: Option<u32>) -> u64
    ensures { result ≡ rounded_or_0 bytes }
{
    match bytes {
        Some(bytes) => rounded_up(bytes),
        None => 0,
    }
}

/// The storage of a handler class, where it is a number.
#[tactic(auto, using(op_list::proofs::CodeLemmas::nodes_are), unfolding(crate::specs::Causes::storage))]
fn storage(code: &Code<'_>, class: ClassId) -> Option<u32>
    requires { IsFormed (code_of code.now).program class }
    ensures { result ≡ storage (code_of code.now).program class }
{
    match storage_node(code, class) {
        Some(number) => number_literal(code.program(), number),
        None => None,
    }
}

/// The Room of a handler class.
#[tactic(auto, using(crate::proofs::Stores::room_reported))]
fn class_room(code: &Code<'_>, rooms: &[u64], class: ClassId) -> u64
    requires formed { IsWellFormed (code_of code.now) }
    requires listed { Contains (handler_classes (code_of code.now).program) class }
    ensures { result ≡ class_room (code_of code.now) rooms.now class }
{
    row_or(rooms, 0, handler_node(code, class))
}

/// What a release of a handler class may have open.
#[tactic(auto, using(crate::proofs::Forms::stored_formed))]
fn release_bytes(code: &Code<'_>, rooms: &[u64], class: ClassId) -> Option<u64>
    requires formed { IsWellFormed (code_of code.now) }
    requires listed { Contains (handler_classes (code_of code.now).program) class }
    ensures { IfSome result (λ n. n ≡ release_bytes (code_of code.now).program
        (class_room (code_of code.now) rooms.now) class) }
{
    rounded_or_0(storage(code, class)).checked_add(class_room(code, rooms, class))
}

/// The same of any class: 0 of one that is no concrete handler class.
#[tactic(auto, using(crate::proofs::RowLists::class_listed))]
fn release_of(code: &Code<'_>, rooms: &[u64], class: ClassId) -> Option<u64>
    requires formed { IsWellFormed (code_of code.now) }
    requires there { class < length (code_of code.now).program.classes }
    ensures { IfSome result (λ n. n ≡ (if is_concrete_handler (code_of code.now).program class
        then release_bytes (code_of code.now).program (class_room (code_of code.now) rooms.now) class
        else 0)) }
{
    if is_concrete_handler(code, class) {
        return release_bytes(code, rooms, class);
    }
    Some(0)
}

/// The greatest that a release of a handler class may have open.
#[tactic(auto, using(crate::proofs::RowLists::highest_none, crate::proofs::RowLists::highest_next, crate::proofs::RowLists::highest_all, crate::proofs::SiteLemmas::classes_are), unfolding(crate::specs::Rows::handler_classes))]
fn most_release(code: &Code<'_>, rooms: &[u64]) -> Option<u64>
    requires { IsWellFormed (code_of code.now) }
    ensures { IfSome result (λ n. n ≡ highest
        (release_bytes (code_of code.now).program (class_room (code_of code.now) rooms.now))
        (handler_classes (code_of code.now).program)) }
{
    let mut most = 0;
    for number in 0..code.classes().class_count() {
        most = most.max(release_of(code, rooms, ClassId::at(number))?);
    }
    Some(most)
}

/// Whether a class is a concrete mission class.
#[tactic(auto, unfolding(scj_model::specs::Code::code_of))]
fn is_concrete_mission(code: &Code<'_>, class: ClassId) -> bool
    ensures { result ≡ is_concrete_mission (code_of code.now).program class }
{
    code.is_concrete(class) && code.classes().is_under(class, MISSION)
}

/// The bytes of the memory of a concrete mission class; 0 of any other class.
#[tactic(auto, unfolding(scj_model::specs::Code::code_of))]
fn mission_of(code: &Code<'_>, class: ClassId) -> u64
    ensures { result ≡ (if is_concrete_mission (code_of code.now).program class
        then rounded_or_0 (size_of (code_of code.now).program class) else 0) }
{
    if is_concrete_mission(code, class) {
        return rounded_or_0(code.layout().size_of(class));
    }
    0
}

/// The greatest memory of a concrete mission class.
#[tactic(auto, using(crate::proofs::RowLists::highest_none, crate::proofs::RowLists::highest_next, crate::proofs::RowLists::highest_all, crate::proofs::SiteLemmas::classes_are), unfolding(crate::specs::Rows::mission_bytes))]
fn mission_bytes(code: &Code<'_>) -> u64
    ensures { result ≡ mission_bytes (code_of code.now).program }
{
    let mut most = 0;
    for number in 0..code.classes().class_count() {
        most = most.max(mission_of(code, ClassId::at(number)));
    }
    most
}

/// The bytes of immortal memory.
#[tactic(auto, unfolding(scj_model::specs::Code::code_of))]
fn immortal_bytes(code: &Code<'_>) -> u64
    ensures { result ≡ immortal_bytes (code_of code.now).program }
{
    match code.layout().safelet() {
        Some(safelet) => rounded_or_0(code.layout().size_of(safelet)),
        None => 0,
    }
}

/// The bytes of the store that is needed. None where that is no number of 64 bits.
#[tactic(auto, unfolding(crate::specs::Rows::store_needed))]
pub fn store_needed(code: &Code<'_>, rooms: &[u64]) -> Option<u64>
    requires { IsWellFormed (code_of code.now) }
    ensures { IfSome result (λ n. n ≡ store_needed (code_of code.now).program
        (class_room (code_of code.now) rooms.now)) }
{
    let releases = most_release(code, rooms)?.checked_mul(MOST_STARTED)?;
    immortal_bytes(code).checked_add(mission_bytes(code).checked_add(releases)?)
}
