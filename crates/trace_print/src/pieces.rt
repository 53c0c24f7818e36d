//! Pieces of a line, each put behind what is there, in room that is there.

ghost use Rattle.std.specs.Prelude.{◌≡◌, ◌+◌, ◌≤◌, ◌++◌, length, decimal, vec_len, vec_capacity};
ghost use Rattle.std.specs.Fmt.{signed_decimal};
ghost use Rattle.scj_model.specs.TraceText.{number};

use itoa::Buffer;

/// Puts bytes.
pub fn put_bytes(line: &mut Vec<u8>, bytes: &[u8])
    requires { vec_len line.old + length bytes.now ≤ vec_capacity line.old }
    ensures text { line.new.items ≡ line.old.items ++ bytes.now }
    ensures len { vec_len line.new ≡ vec_len line.old + length bytes.now }
    ensures room { vec_capacity line.old ≤ vec_capacity line.new }
{
    line.extend_from_slice(bytes).unwrap();
}

/// Puts a number in decimal.
pub fn put_decimal(line: &mut Vec<u8>, n: u64)
    requires { vec_len line.old + 20 ≤ vec_capacity line.old }
    ensures text { line.new.items ≡ line.old.items ++ decimal n }
    ensures len { vec_len line.new ≤ vec_len line.old + 20 }
    ensures room { vec_capacity line.old ≤ vec_capacity line.new }
{
    let mut buffer = Buffer::new();
    put_bytes(line, buffer.format(n).as_bytes());
}

/// Puts a number that may be negative, in decimal.
pub fn put_signed(line: &mut Vec<u8>, n: i32)
    requires { vec_len line.old + 11 ≤ vec_capacity line.old }
    ensures text { line.new.items ≡ line.old.items ++ signed_decimal n }
    ensures len { vec_len line.new ≤ vec_len line.old + 11 }
    ensures room { vec_capacity line.old ≤ vec_capacity line.new }
{
    let mut buffer = Buffer::new();
    put_bytes(line, buffer.format(n).as_bytes());
}

/// Puts a blank and a number.
pub fn put_number(line: &mut Vec<u8>, n: u64)
    requires { vec_len line.old + 21 ≤ vec_capacity line.old }
    ensures text { line.new.items ≡ line.old.items ++ number n }
    ensures len { vec_len line.new ≤ vec_len line.old + 21 }
    ensures room { vec_capacity line.old ≤ vec_capacity line.new }
{
    put_bytes(line, b" ");
    put_decimal(line, n);
}
