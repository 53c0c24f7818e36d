//! Fires found by their units and names.

ghost use Rattle.std.specs.Prelude.{◌≡◌, ◌≤◌, IfOk};
ghost use Rattle.std.specs.BTreeSet.{contains};
ghost use Rattle.trace_audit.specs.Fires.{AreFireKeys, key_at, key_cmp, mixed_with};

use scj_base::Name;
use scj_model::{Fire, FireFrom};
use std::alloc::{AllocError, Global};
use std::collections::BTreeSet;

/// A number that is mostly another one for another name.
#[tactic(auto, unfolding(crate::specs::Fires::mixed_with))]
fn mixed(bytes: &[u8]) -> u64
    ensures { result ≡ mixed_with 0 bytes.now }
{
    let mut mix: u64 = 0;
    let mut rest = bytes;
    while let [byte, others @ ..] = rest {
        mix = (mix * 257 + *byte as u64) % 36_028_797_018_963_968;
        rest = others;
    }
    mix
}

/// The key of a fire of the unit that names the handler's class.
fn key_at(at: u64, name: &Name) -> (u64, u64, Name)
    ensures { result ≡ key_at at name.now }
{
    (mixed(name.bytes()), at, *name)
}

/// The keys of the fires that are counted so.
pub fn keys_of(
    alloc: Global,
    fires: &[Fire],
    from: FireFrom,
) -> Result<BTreeSet<(u64, u64, Name)>, AllocError>
    ensures { IfOk result (AreFireKeys from fires.now) }
{
    let mut keys = BTreeSet::new(alloc);
    for fire in fires {
        if fire.from == from {
            keys.insert(key_at(fire.at, &fire.handler))?;
        }
    }
    Ok(keys)
}

/// Whether a fire of the unit that names the handler's class is among the keys.
pub fn is_among(keys: &BTreeSet<(u64, u64, Name)>, at: u64, name: &Name) -> bool
    ensures { result ≡ contains key_cmp keys.now (key_at at name.now) }
{
    keys.contains(&key_at(at, name))
}
