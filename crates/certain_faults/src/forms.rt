//! The certain faults of forms, by what is known of their numbers.

ghost use Rattle.std.specs.Prelude.{◌≡◌};
ghost use Rattle.scj_tree.specs.Recursion.{lookup};
ghost use Rattle.certain_faults.specs.declared.known.Left.TheVariants.{Forgets as forgets};
ghost use Rattle.certain_faults.specs.Faults.{is_wrong_time, is_known_time, times_fault, storage_fault, priority_fault, periodic_fault, parameters_fault, aperiodic_fault, form_fault, super_fault};

use crate::known::{Known, Left};
use crate::nodes::left_at;
use crate::numbers::{is_negative, is_no_nanoseconds, known_number};
use scj_base::ids::PERIODIC_EVENT_HANDLER;
use scj_base::{ClassId, NodeId, RunFault, Value};
use scj_rules::{Binding, has_form, is_user_class};
use value_operators::framework_numbers::is_priority;

/// Whether a time is wrong by a number that is known.
#[tactic(auto, unfolding(crate::specs::Faults::is_wrong_time))]
fn is_wrong_time(ms: Known, ns: Known) -> bool
    ensures { result ≡ is_wrong_time ms ns }
{
    is_negative(ms) || is_no_nanoseconds(ns)
}

/// Whether both numbers of a time are known.
#[tactic(auto, unfolding(crate::specs::Faults::is_known_time))]
fn is_known_time(ms: Known, ns: Known) -> bool
    ensures { result ≡ is_known_time ms ns }
{
    known_number(ms).is_some() && known_number(ns).is_some()
}

/// The milliseconds and nanoseconds of a start and of a period.
#[derive(Clone, Copy)]
struct Times {
    sms: Known,
    sns: Known,
    pms: Known,
    pns: Known,
}

/// The fault of a start and a period, and that of what follows them where they are known to be right.
#[tactic(auto, unfolding(crate::specs::Faults::times_fault))]
fn times_fault(times: Times, next: Option<RunFault>) -> Option<RunFault>
    ensures { result ≡ times_fault times.sms times.sns times.pms times.pns next }
{
    if is_wrong_time(times.sms, times.sns) {
        return Some(RunFault::BadPeriod);
    }
    if is_wrong_time(times.pms, times.pns) {
        return Some(RunFault::BadPeriod);
    }
    if is_known_time(times.sms, times.sns) && is_known_time(times.pms, times.pns) {
        return next;
    }
    None
}

/// The fault of a storage.
#[tactic(auto, unfolding(crate::specs::Faults::storage_fault))]
fn storage_fault(storage: Known) -> Option<RunFault>
    ensures { result ≡ storage_fault storage }
{
    if is_negative(storage) {
        Some(RunFault::NegativeSize)
    } else {
        None
    }
}

/// The fault of a priority, and that of what follows it where it is known to be one.
#[tactic(auto, unfolding(crate::specs::Faults::priority_fault, crate::specs::Faults::is_known))]
fn priority_fault(priority: Known, next: Option<RunFault>) -> Option<RunFault>
    ensures { result ≡ priority_fault priority next }
{
    match priority {
        Known::Exactly(Value::Int(number)) => {
            if is_priority(number) {
                next
            } else {
                Some(RunFault::BadPriority)
            }
        }
        _ => None,
    }
}

/// The fault of a periodic handler's form.
#[tactic(auto, unfolding(crate::specs::Faults::periodic_fault))]
fn periodic_fault(priority: Left, times: Left, storage: Left) -> Option<RunFault>
    ensures { result ≡ periodic_fault priority times storage }
{
    match (priority, times, storage) {
        (Left::One(priority), Left::Four(sms, sns, pms, pns), Left::One(storage)) => {
            let times = Times { sms, sns, pms, pns };
            priority_fault(priority, times_fault(times, storage_fault(storage)))
        }
        _ => None,
    }
}

/// The fault of a sequencer's form.
#[tactic(auto, unfolding(crate::specs::Faults::parameters_fault))]
fn parameters_fault(priority: Left, storage: Left) -> Option<RunFault>
    ensures { result ≡ parameters_fault priority storage }
{
    match (priority, storage) {
        (Left::One(priority), Left::One(storage)) => {
            priority_fault(priority, storage_fault(storage))
        }
        _ => None,
    }
}

/// The fault of an aperiodic handler's form.
#[tactic(auto, unfolding(crate::specs::Faults::aperiodic_fault))]
fn aperiodic_fault(priority: Left, releases: Left, storage: Left) -> Option<RunFault>
    ensures { result ≡ aperiodic_fault priority releases storage }
{
    match releases {
        Left::Zero => parameters_fault(priority, storage),
        _ => None,
    }
}

/// The fault of a form.
#[tactic(auto, unfolding(crate::specs::Faults::form_fault))]
fn form_fault(rows: &[Left], superclass: ClassId, arguments: &[NodeId]) -> Option<RunFault>
    ensures { result ≡ form_fault (lookup forgets rows.now) superclass arguments.now }
{
    match arguments {
        [priority, times, storage] if superclass == PERIODIC_EVENT_HANDLER => periodic_fault(
            left_at(rows, *priority),
            left_at(rows, *times),
            left_at(rows, *storage),
        ),
        [priority, releases, storage] => aperiodic_fault(
            left_at(rows, *priority),
            left_at(rows, *releases),
            left_at(rows, *storage),
        ),
        [priority, storage] if superclass != PERIODIC_EVENT_HANDLER => {
            parameters_fault(left_at(rows, *priority), left_at(rows, *storage))
        }
        _ => None,
    }
}

/// The fault of a super part.
#[tactic(auto, unfolding(crate::specs::Faults::super_fault))]
pub fn super_fault(rows: &[Left], arguments: &[NodeId], binding: Binding) -> Option<RunFault>
    ensures { result ≡ super_fault (lookup forgets rows.now) arguments.now binding }
{
    let Binding::Class(superclass) = binding else {
        return None;
    };
    if is_user_class(superclass) {
        return None;
    }
    if has_form(superclass) {
        return form_fault(rows, superclass, arguments);
    }
    None
}
