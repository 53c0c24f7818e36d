//! The registry: the handlers of a mission, in the order in which they were registered (JSR 302: ManagedEventHandler).

ghost use Rattle.std.specs.Prelude.{◌≡◌, ◌+◌, ◌==◌, ◌&&◌, position, option_map, IfOk};
ghost use Rattle.scj_model.specs.declared.handlers.HandlerRow.{HandlerRow as Row};
ghost use Rattle.scj_model.specs.Code.{code_of};
ghost use Rattle.scj_model.specs.Registry.{aperiodic_of, handler_number, handler_row, has_period, hidden_number, is_aperiodic, kind_by, new_row};

use op_list::OpList;
use region_heap::Object;
use scj_base::{ClassId, Memory, Ref};
use scj_model::{HandlerKind, HandlerRow};

/// The number of the handler at a place of the registry: the numbers begin with 1.
fn number_at(index: Option<usize>) -> Result<Option<u8>, Memory>
    ensures { IfOk result (λ number. number ≡ option_map (λ k. k + 1) index) }
{
    match index {
        Some(k) => {
            if k < 255 {
                Ok(Some(k as u8 + 1))
            } else {
                Err(Memory)
            }
        }
        None => Ok(None),
    }
}

/// Whether a row is that of a handler object.
fn is_at(row: &HandlerRow, at: Ref) -> bool
    ensures { result ≡ (row.now.at == at) }
{
    row.at == at
}

/// The place of a handler object.
fn index_of(registry: &[HandlerRow], at: Ref) -> Option<usize>
    ensures { result ≡ position (λ (row : Row). row.at == at) registry.now }
{
    let mut rest = registry;
    let mut index: usize = 0;
    while let [row, others @ ..] = rest {
        if is_at(row, at) {
            return Some(index);
        }
        index += 1;
        rest = others;
    }
    None
}

/// Whether a handler of this kind is aperiodic.
fn is_aperiodic(kind: HandlerKind) -> bool
    ensures { result ≡ is_aperiodic kind }
{
    match kind {
        HandlerKind::Periodic => false,
        HandlerKind::OneShot => false,
        HandlerKind::Aperiodic => true,
    }
}

/// Whether a handler is an aperiodic one of exactly this class.
fn is_aperiodic_of(row: &HandlerRow, class: ClassId) -> bool
    ensures { result ≡ (is_aperiodic row.now.kind && (row.now.class == class)) }
{
    is_aperiodic(row.kind) && row.class == class
}

/// The place of the first aperiodic handler of exactly this class.
fn index_of_aperiodic(registry: &[HandlerRow], class: ClassId) -> Option<usize>
    ensures { result ≡ position (λ (row : Row). is_aperiodic row.kind && (row.class == class)) registry.now }
{
    let mut rest = registry;
    let mut index: usize = 0;
    while let [row, others @ ..] = rest {
        if is_aperiodic_of(row, class) {
            return Some(index);
        }
        index += 1;
        rest = others;
    }
    None
}

/// The number of a handler object, if it is registered.
#[tactic(auto, unfolding(scj_model::specs::Registry::handler_number))]
pub(crate) fn handler_number(registry: &[HandlerRow], at: Ref) -> Result<Option<u8>, Memory>
    ensures { IfOk result (λ number. number ≡ handler_number registry.now at) }
{
    number_at(index_of(registry, at))
}

/// The number of the first aperiodic handler of exactly this class.
#[tactic(auto, unfolding(scj_model::specs::Registry::aperiodic_of))]
pub fn aperiodic_of(registry: &[HandlerRow], class: ClassId) -> Result<Option<u8>, Memory>
    ensures { IfOk result (λ number. number ≡ aperiodic_of registry.now class) }
{
    number_at(index_of_aperiodic(registry, class))
}

/// The row of a handler's number.
pub(crate) fn handler_row(registry: &[HandlerRow], handler: u8) -> Option<HandlerRow>
    ensures { result ≡ handler_row registry.now handler }
{
    if handler == 0 {
        return None;
    }
    registry.get(handler as usize - 1).copied()
}

/// The hidden field of a handler object at a slot, and 0 where it has no such field.
#[tactic(auto, unfolding(scj_model::specs::Registry::hidden_number, scj_model::specs::Code::code_of))]
fn hidden_number(code: &OpList<'_>, object: &Object<'_>, slot: u32) -> u64
    ensures { result ≡ hidden_number (code_of code.now.program).program object.now slot }
{
    if slot < code.code().layout().hidden(object.class()) {
        object.number_at(slot as usize)
    } else {
        0
    }
}

/// Whether a handler of the class has a period.
#[tactic(auto, unfolding(scj_model::specs::Registry::has_period, scj_model::specs::Code::code_of))]
fn has_period(code: &OpList<'_>, class: ClassId) -> bool
    ensures { result ≡ has_period (code_of code.now.program).program class }
{
    3 < code.code().layout().hidden(class)
}

/// The kind of a handler that has a period of so many units, or has none.
#[tactic(auto, unfolding(scj_model::specs::Registry::kind_by))]
fn kind_by(has_period: bool, period: u64) -> HandlerKind
    ensures { result ≡ kind_by has_period period }
{
    if !has_period {
        return HandlerKind::Aperiodic;
    }
    if period == 0 {
        HandlerKind::OneShot
    } else {
        HandlerKind::Periodic
    }
}

/// The row of a handler object.
pub(crate) fn new_row(code: &OpList<'_>, at: Ref, object: &Object<'_>) -> Result<HandlerRow, Memory>
    ensures { IfOk result (λ row. row ≡ new_row (code_of code.now.program).program at object.now) }
{
    let priority = hidden_number(code, object, 0);
    if priority > 255 {
        return Err(Memory);
    }
    let period = hidden_number(code, object, 3);
    Ok(HandlerRow {
        at,
        class: object.class(),
        priority: priority as u8,
        start: hidden_number(code, object, 2),
        period,
        bytes: hidden_number(code, object, 1),
        kind: kind_by(has_period(code, object.class()), period),
    })
}
