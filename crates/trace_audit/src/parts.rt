//! The parts of a line: what stands before a byte and behind it, numbers and names.

ghost use Rattle.std.specs.Prelude.{◌≡◌, ◌≤◌, ◌+◌, ◌*◌, ◌-◌, length, MatchOption, Some, None};
ghost use Rattle.std.specs.List.{list_all, prefix_len};
ghost use Rattle.scj_base.specs.Lexeme.{is_digit as digit, is_text_byte as text_byte};
ghost use Rattle.trace_audit.specs.Parts.{behind_last, is_fault_name as fault_name, is_file_byte as file_byte, is_file_name as file_name, is_other, is_value as value_written, number_of, number_within, parted, parted_at_last, with_digit, with_digits};

use scj_base::RunFault;

/// The faults of a run.
const FAULTS: [RunFault; 15] = [
    RunFault::NullPointer,
    RunFault::ArrayIndex,
    RunFault::NegativeSize,
    RunFault::DivideByZero,
    RunFault::ClassCast,
    RunFault::MemoryFull,
    RunFault::StoreFull,
    RunFault::ScopedCycle,
    RunFault::CeilingViolation,
    RunFault::BadPriority,
    RunFault::BadPeriod,
    RunFault::BadPort,
    RunFault::NotInitializing,
    RunFault::TooManyHandlers,
    RunFault::DepthFull,
];

/// How many bytes come before the first of a byte.
pub fn len_before(byte: u8, bytes: &[u8]) -> usize
    ensures value { result ≡ prefix_len (is_other byte) bytes.now }
    ensures bound { result ≤ length bytes.now }
{
    bytes.iter().take_while(|b| **b != byte).count()
}

/// How many bytes stand behind the last of a byte.
fn len_behind(byte: u8, bytes: &[u8]) -> usize
    ensures value { result ≡ behind_last byte bytes.now }
    ensures bound { result ≤ length bytes.now }
{
    bytes.iter().rev().take_while(|b| **b != byte).count()
}

/// What stands before the first of a byte and behind it.
#[tactic(auto, unfolding(crate::specs::Parts::parted))]
pub fn parted(byte: u8, bytes: &[u8]) -> Option<(&[u8], &[u8])>
    ensures { MatchOption result (parted byte bytes.now ≡ None) (λ parts. parted byte bytes.now ≡ Some (record { front = parts.0.now; back = parts.1.now })) }
{
    let (front, rest) = bytes.split_at(len_before(byte, bytes));
    match rest {
        [_, back @ ..] => Some((front, back)),
        [] => None,
    }
}

/// What stands before the last of a byte and behind it.
#[tactic(auto, unfolding(crate::specs::Parts::parted_at_last))]
pub fn parted_at_last(byte: u8, bytes: &[u8]) -> Option<(&[u8], &[u8])>
    ensures { MatchOption result (parted_at_last byte bytes.now ≡ None) (λ parts. parted_at_last byte bytes.now ≡ Some (record { front = parts.0.now; back = parts.1.now })) }
{
    let behind = len_behind(byte, bytes);
    if behind == bytes.len() {
        return None;
    }
    let (front, rest) = bytes.split_at(bytes.len() - (behind + 1));
    match rest {
        [_, back @ ..] => Some((front, back)),
        [] => None,
    }
}

/// The number with one more digit, where it has 64 bits.
#[tactic(auto, unfolding(scj_base::specs::Lexeme::is_digit))]
fn with_digit(n: u64, byte: u8) -> Option<u64>
    ensures { result ≡ with_digit n byte }
{
    if !byte.is_ascii_digit() {
        return None;
    }
    n.checked_mul(10)?.checked_add((byte - b'0') as u64)
}

/// The number with these digits behind it.
#[tactic(auto, unfolding(crate::specs::Parts::with_digits))]
fn with_digits(first: u64, bytes: &[u8]) -> Option<u64>
    ensures { result ≡ with_digits first bytes.now }
{
    let mut n = first;
    let mut rest = bytes;
    while let [byte, others @ ..] = rest {
        n = with_digit(n, *byte)?;
        rest = others;
    }
    Some(n)
}

/// The number that the bytes write in decimal.
#[tactic(auto, unfolding(crate::specs::Parts::number_of))]
pub fn number_of(bytes: &[u8]) -> Option<u64>
    ensures { result ≡ number_of bytes.now }
{
    match bytes {
        [] => None,
        [byte] => with_digit(0, *byte),
        [b'0', ..] => None,
        _ => with_digits(0, bytes),
    }
}

/// The same, where it lies between two others.
pub fn number_within(least: u64, most: u64, bytes: &[u8]) -> Option<u64>
    ensures value { result ≡ number_within least most bytes.now }
    ensures bounds { MatchOption result (Unit {0}) (λ n. (least ≤ n) × (n ≤ most)) }
{
    let n = number_of(bytes)?;
    if least <= n && n <= most {
        Some(n)
    } else {
        None
    }
}

/// Whether the bytes write a value of 32 bits.
pub fn is_value(bytes: &[u8]) -> bool
    ensures { result ≡ value_written bytes.now }
{
    match bytes {
        [] => false,
        [b'-', digits @ ..] => number_within(1, 2_147_483_648, digits).is_some(),
        _ => number_within(0, 2_147_483_647, bytes).is_some(),
    }
}

/// Whether all bytes may stand in a text.
#[tactic(auto, unfolding(scj_base::specs::Lexeme::is_text_byte))]
pub fn is_text(bytes: &[u8]) -> bool
    ensures { result ≡ list_all text_byte bytes.now }
{
    bytes
        .iter()
        .all(|b| b' ' <= *b && *b <= b'~' && *b != b'"' && *b != b'\\')
}

/// Whether a byte may stand in the name of a file.
fn is_file_byte(byte: u8) -> bool
    ensures { result ≡ file_byte byte }
{
    b' ' <= byte && byte != 127
}

/// Whether all bytes may stand in the name of a file.
fn are_file_bytes(bytes: &[u8]) -> bool
    ensures { result ≡ list_all file_byte bytes.now }
{
    bytes.iter().all(|b| is_file_byte(*b))
}

/// Whether the bytes are the name of a file.
pub fn is_file_name(bytes: &[u8]) -> bool
    ensures { result ≡ file_name bytes.now }
{
    match bytes {
        [] => false,
        [first, others @ ..] => is_file_byte(*first) && are_file_bytes(others),
    }
}

/// Whether the bytes are the name of a fault.
pub fn is_fault_name(bytes: &[u8]) -> bool
    ensures { result ≡ fault_name bytes.now }
{
    FAULTS.iter().any(|fault| bytes == fault.text().as_bytes())
}
