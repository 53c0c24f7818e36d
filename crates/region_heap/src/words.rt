//! Words and what they tell.

ghost use Rattle.std.specs.Prelude.{◌≡◌, ◌<◌, ◌^◌, IfOk, OnErr, IsTrue, pos, unsigned_abs};
ghost use Rattle.scj_base.specs.declared.values.Value.TheVariants.{Int};
ghost use Rattle.scj_model.specs.Registry.{number_in};
ghost use Rattle.region_heap.specs.Words.{area_in, ceiling_in, class_in, count_in, is_wide, value_in, wide_limit};

use scj_base::{AreaId, ClassId, Memory, Ref, Value};

/// What divides the two halves of a header word.
const HALF: u64 = 0x1_0000_0000;

/// Numbers that a slot holds besides ints are smaller than this.
pub(crate) const WIDE_LIMIT: u64 = 2_305_843_009_213_693_952;

/// A slot holds a number that is no int.
#[derive(Clone, Copy, Debug, PartialEq, Eq)]
pub struct WideNumberError;

impl From<WideNumberError> for Memory {
    fn from(_error: WideNumberError) -> Memory {
        Memory
    }
}

/// The word of a value.
#[tactic(auto, unfolding(crate::specs::Words::value_in))]
pub(crate) fn word_of(value: Value) -> u64
    ensures { value_in result ≡ value }
{
    match value {
        Value::Int(number) => ((number as i64 + 2_147_483_648) as u64) * 8 + 1,
        Value::At(r) => r.number() as u64 * 8 + 2,
        Value::Bool(true) => 11,
        Value::Bool(false) => 3,
        Value::Null => 0,
    }
}

/// The word of a number that may be no int.
#[tactic(auto, unfolding(crate::specs::Words::value_in))]
pub(crate) fn word_of_number(number: u64) -> u64
    requires { number < wide_limit }
    ensures { value_in result ≡ Int (pos number) }
{
    number * 8 + 4
}

/// The value of a word.
#[tactic(auto, unfolding(crate::specs::Words::value_in, crate::specs::Words::is_wide))]
pub(crate) fn value_of(word: u64) -> Result<Value, WideNumberError>
    ensures value { IfOk result (λ value. value ≡ value_in word) }
    ensures wide { OnErr result (IsTrue (is_wide (value_in word))) }
{
    let payload = word / 8;
    match word % 8 {
        1 => Ok(Value::Int(((payload % HALF) as i64 - 2_147_483_648) as i32)),
        2 => Ok(Value::At(Ref::at((payload % HALF) as u32))),
        3 => Ok(Value::Bool(payload % 2 == 1)),
        4 => {
            if payload < 2_147_483_648 {
                Ok(Value::Int(payload as i32))
            } else {
                Err(WideNumberError)
            }
        }
        _ => Ok(Value::Null),
    }
}

/// The number that a word tells: of an int its absolute value, and 0 where it tells none.
#[tactic(auto, unfolding(crate::specs::Words::value_in, scj_model::specs::Registry::number_in))]
pub(crate) fn number_of(word: u64) -> u64
    ensures { result ≡ number_in (value_in word) }
{
    let payload = word / 8;
    match word % 8 {
        1 => {
            let number = ((payload % HALF) as i64 - 2_147_483_648) as i32;
            u64::from(number.unsigned_abs())
        }
        4 => payload,
        _ => 0,
    }
}

/// The first word of an object.
#[tactic(auto, unfolding(crate::specs::Words::class_in, crate::specs::Words::area_in))]
pub(crate) fn first_word(class: ClassId, area: AreaId) -> u64
    ensures class { class_in result ≡ class }
    ensures area { area_in result ≡ area }
{
    class.number() as u64 + area.number() as u64 * HALF
}

/// The second word of an object.
#[tactic(auto, unfolding(crate::specs::Words::count_in, crate::specs::Words::ceiling_in))]
pub(crate) fn second_word(count: usize, ceiling: u8) -> u64
    requires { count < 2 ^ 32 }
    ensures count { count_in result ≡ count }
    ensures ceiling { ceiling_in result ≡ ceiling }
{
    count as u64 + ceiling as u64 * HALF
}

/// The class that a first word tells.
#[tactic(auto, unfolding(crate::specs::Words::class_in))]
pub(crate) fn class_in(word: u64) -> ClassId
    ensures { result ≡ class_in word }
{
    ClassId::at((word % HALF) as u32)
}

/// The area that a first word tells.
#[tactic(auto, unfolding(crate::specs::Words::area_in))]
pub(crate) fn area_in(word: u64) -> AreaId
    ensures { result ≡ area_in word }
{
    AreaId::at((word / HALF) as u32)
}

/// How many slots a second word tells.
#[tactic(auto, unfolding(crate::specs::Words::count_in))]
pub(crate) fn count_in(word: u64) -> usize
    ensures { result ≡ count_in word }
{
    (word % HALF) as usize
}

/// The ceiling that a second word tells.
#[tactic(auto, unfolding(crate::specs::Words::ceiling_in))]
pub(crate) fn ceiling_in(word: u64) -> u8
    ensures { result ≡ ceiling_in word }
{
    (word / HALF % 256) as u8
}
