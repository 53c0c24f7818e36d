//! The operators that give an int of two ints.

ghost use Rattle.std.specs.Prelude.{◌≡◌, Bool, false, ◌&&◌, [], ◌∷◌, ℤ, pos, int_rem, option_map};
ghost use Rattle.std.specs.Ordering.{int_eq};
ghost use Rattle.std.specs.Int.{w32, int_wrapping_div, int_shl, int_shr};
ghost use Rattle.scj_base.specs.Vocabulary.{sign_slash, sign_percent};
ghost use Rattle.scj_rules.specs.Words.{is_among};
ghost use Rattle.scj_model.specs.Arithmetic.{entry, int_operators, comparisons, shift_count, shift_right_unsigned};

use scj_base::vocabulary;

/// The quotient without its fraction; the least int by -1 is itself.
fn quotient(x: i32, y: i32) -> i32
    requires { int_eq y (pos 0) ≡ false }
    ensures { result ≡ int_wrapping_div w32 x y }
{
    x.wrapping_div(y)
}

/// What a division leaves, with the sign of `x`.
fn remainder(x: i32, y: i32) -> i32
    requires { int_eq y (pos 0) ≡ false }
    ensures { result ≡ int_rem x y }
{
    x.wrapping_rem(y)
}

/// The bits move to the left, by as many places as the five lowest bits of `y` say.
fn shifted_left(x: i32, y: i32) -> i32
    ensures { result ≡ int_shl w32 x (shift_count y) }
{
    x.wrapping_shl(y.cast_unsigned())
}

/// The bits move to the right, and the sign stays.
fn shifted_right(x: i32, y: i32) -> i32
    ensures { result ≡ int_shr x (shift_count y) }
{
    x.wrapping_shr(y.cast_unsigned())
}

/// The bits move to the right, and zeros follow.
fn shifted_right_unsigned(x: i32, y: i32) -> i32
    ensures { result ≡ shift_right_unsigned x (shift_count y) }
{
    x.cast_unsigned()
        .wrapping_shr(y.cast_unsigned())
        .cast_signed()
}

/// What the operator gives of two ints, if that is an int.
#[tactic(auto, unfolding(scj_model::specs::Arithmetic::entry, scj_model::specs::Arithmetic::int_operators, scj_rules::specs::Words::along))]
pub fn int_of(operator: u8, x: i32, y: i32) -> Option<i32>
    requires { (is_among operator (sign_slash ∷ sign_percent ∷ []) && int_eq y (pos 0)) ≡ false }
    ensures { result ≡ option_map (λ (f : ℤ → ℤ → ℤ). f x y) (entry int_operators operator) }
{
    match operator {
        vocabulary::PLUS => Some(x.wrapping_add(y)),
        vocabulary::MINUS => Some(x.wrapping_sub(y)),
        vocabulary::STAR => Some(x.wrapping_mul(y)),
        vocabulary::SLASH => Some(quotient(x, y)),
        vocabulary::PERCENT => Some(remainder(x, y)),
        vocabulary::AND => Some(x & y),
        vocabulary::OR => Some(x | y),
        vocabulary::XOR => Some(x ^ y),
        vocabulary::SHIFT_LEFT => Some(shifted_left(x, y)),
        vocabulary::SHIFT_RIGHT => Some(shifted_right(x, y)),
        vocabulary::SHIFT_RIGHT_UNSIGNED => Some(shifted_right_unsigned(x, y)),
        _ => None,
    }
}

/// How two ints compare, if the operator compares.
#[tactic(auto, unfolding(scj_model::specs::Arithmetic::entry, scj_model::specs::Arithmetic::comparisons, scj_rules::specs::Words::along))]
pub fn comparison(operator: u8, x: i32, y: i32) -> Option<bool>
    ensures { result ≡ option_map (λ (f : ℤ → ℤ → Bool). f x y) (entry comparisons operator) }
{
    match operator {
        vocabulary::LESS => Some(x < y),
        vocabulary::GREATER => Some(x > y),
        vocabulary::LESS_EQUAL => Some(x <= y),
        vocabulary::GREATER_EQUAL => Some(x >= y),
        _ => None,
    }
}
