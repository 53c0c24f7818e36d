//! The size that is given with `--size`.

ghost use Rattle.std.specs.Prelude.{◌≡◌, ◌≤◌, ◌*◌, ◌+◌, [], ◌∷◌, IfSome};
ghost use Rattle.command_line.specs.Sizes.{IsSize, digit_of, first_digit, number_of, size_of, with_digit};

/// The number that a decimal digit is.
#[tactic(auto, unfolding(crate::specs::Sizes::digit_of))]
fn digit_of(b: u8) -> Option<u32>
    ensures value { result ≡ digit_of b }
    ensures bound { IfSome result (λ d. d ≤ 9) }
{
    if b >= 48 && b <= 57 {
        Some(u32::from(b - 48))
    } else {
        None
    }
}

/// The same of a number's first digit, which isn't 0.
#[tactic(auto, unfolding(crate::specs::Sizes::first_digit))]
fn first_digit(b: u8) -> Option<u32>
    ensures value { result ≡ first_digit b }
    ensures bound { IfSome result (λ d. d ≤ 9) }
{
    if b == 48 {
        return None;
    }
    digit_of(b)
}

/// A number with a further digit behind it.
#[tactic(auto, unfolding(crate::specs::Sizes::with_digit))]
fn with_digit(n: u32, b: u8) -> Option<u32>
    requires { n ≤ 99 }
    ensures value { result ≡ with_digit n b }
    ensures bound { IfSome result (λ m. m ≤ 10 * n + 9) }
{
    let digit = digit_of(b)?;
    Some(10 * n + digit)
}

/// The number that two digits are.
#[tactic(auto, unfolding(crate::specs::Sizes::number_of))]
fn two_digits(a: u8, b: u8) -> Option<u32>
    ensures value { result ≡ number_of (a ∷ b ∷ []) }
    ensures bound { IfSome result (λ n. n ≤ 99) }
{
    let tens = first_digit(a)?;
    with_digit(tens, b)
}

/// The number that one, two or three digits are.
#[tactic(auto, unfolding(crate::specs::Sizes::number_of))]
fn number_of(text: &[u8]) -> Option<u32>
    ensures { result ≡ number_of text.now }
{
    match text {
        [a] => first_digit(*a),
        [a, b] => two_digits(*a, *b),
        [a, b, c] => {
            let tens = two_digits(*a, *b)?;
            with_digit(tens, *c)
        }
        _ => None,
    }
}

/// The size that a text is.
#[tactic(auto, unfolding(crate::specs::Sizes::size_of))]
pub(crate) fn size_of(text: &[u8]) -> Option<u32>
    ensures value { result ≡ size_of text.now }
    ensures size { IfSome result IsSize }
{
    let size = number_of(text)?;
    if 1 <= size && size <= 250 {
        Some(size)
    } else {
        None
    }
}
