//! How a key is printed in a line that tells of it.

ghost use Rattle.std.specs.Prelude.{◌≡◌, ◌++◌, codes, take, IfOk};
ghost use Rattle.scj_cli.specs.Keys.{most_shown, shown_byte, shown_key};

use std::alloc::{AllocError, Global};

/// The most bytes of a key that are printed.
const MOST_SHOWN: usize = 256;

/// A line with this front that tells of a key.
pub fn key_line(alloc: Global, front: &[u8], key: &[u8]) -> Result<Vec<u8>, AllocError>
    ensures { IfOk result (λ line. line.items ≡ front.now ++ (shown_key key.now ++ codes "\n")) }
{
    let mut line = front.to_vec(alloc)?;
    let shown = shown_key(alloc, key)?;
    line.extend_from_slice(&shown)?;
    line.push(b'\n')?;
    Ok(line)
}

/// A key as it is printed.
#[tactic(auto, unfolding(crate::specs::Keys::shown_key))]
fn shown_key(alloc: Global, key: &[u8]) -> Result<Vec<u8>, AllocError>
    ensures { IfOk result (λ shown. shown.items ≡ shown_key key.now) }
{
    let mut shown = Vec::new(alloc);
    for byte in shown_part(key) {
        shown.push(shown_byte(*byte))?;
    }
    Ok(shown)
}

/// The bytes of a key that are printed.
fn shown_part(key: &[u8]) -> &[u8]
    ensures { result.now ≡ take most_shown key.now }
{
    if key.len() > MOST_SHOWN {
        &key[..MOST_SHOWN]
    } else {
        key
    }
}

/// A byte as it is printed.
fn shown_byte(byte: u8) -> u8
    ensures { result ≡ shown_byte byte }
{
    if byte >= 32 && byte != 127 {
        byte
    } else {
        b'?'
    }
}
