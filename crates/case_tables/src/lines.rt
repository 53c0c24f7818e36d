//! The bytes that a line of a table stands for.

ghost use Rattle.std.specs.Prelude.{◌≡◌, ◌≤◌, ◌++◌, ◌∷◌, length, IfOk};
ghost use Rattle.case_tables.specs.Lines.{text_bytes, line_bytes, digit_of};

use std::alloc::AllocError;

/// Adds what a line stands for to a source.
#[tactic(auto, unfolding(crate::specs::Lines::line_bytes))]
pub fn add_line(source: &mut Vec<u8>, line: &[u8]) -> Result<(), AllocError>
    ensures { IfOk result (λ _. source.new.items ≡ source.old.items ++ line_bytes line.now) }
{
    match line {
        [front @ .., b'\\'] => add_text(source, front)?,
        _ => {
            add_text(source, line)?;
            source.push(b'\n')?;
        }
    }
    Ok(())
}

/// Adds what a text stands for, in which `\xNN` is one byte.
#[tactic(auto, unfolding(crate::specs::Lines::text_bytes))]
pub fn add_text(source: &mut Vec<u8>, text: &[u8]) -> Result<(), AllocError>
    ensures { IfOk result (λ _. source.new.items ≡ source.old.items ++ text_bytes text.now) }
{
    let mut rest = text;
    while let [first, others @ ..] = rest {
        let (byte, behind) = first_byte(*first, others);
        source.push(byte)?;
        rest = behind;
    }
    Ok(())
}

// The byte that stands first, and what is behind it.
#[tactic(auto, unfolding(crate::specs::Lines::text_bytes))]
fn first_byte(first: u8, others: &[u8]) -> (u8, &[u8])
    ensures shorter { length result.1.now ≤ length others.now }
    ensures bytes { text_bytes (first ∷ others.now) ≡ result.0 ∷ text_bytes result.1.now }
{
    match others {
        [b'x', high, low, behind @ ..] if first == b'\\' => {
            (digit(*high) * 16 + digit(*low), behind)
        }
        _ => (first, others),
    }
}

fn digit(byte: u8) -> u8
    ensures value { result ≡ digit_of byte }
    ensures small { result ≤ 15 }
{
    match byte {
        b'0'..=b'9' => byte - b'0',
        b'a'..=b'f' => byte - b'a' + 10,
        _ => 0,
    }
}
