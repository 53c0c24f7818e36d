//! Names as a value that is copied.

ghost use Rattle.std.specs.Prelude.{◌≡◌, ◌≤◌, length};

use std::cmp::Ordering;
use std::marker::Model;

/// A name of at most 64 bytes, which is copied like a number.
#[derive(Clone, Copy, Debug)]
pub struct Name {
    bytes: [u8; 64],
    len: u8,
}

impl Model for Name {
    ghost use Rattle.std.specs.Prelude.{List, ℕ, take, drop, replicate, length, ◌≤◌, ◌≡◌, ◌-◌};

    ghost Value = { List ℕ };

    ghost use Rattle.scj_base.specs.NameSupport.{IsPadded, padded, padded-undoes};

    ghost view = { λ a. take a.len a.bytes };

    ghost invariant = { λ a. IsPadded a.bytes a.len };

    ghost inverse = { λ w. record { bytes = padded w; len = length w } };

    ghost inverse_ok = { λ a h. padded-undoes a h };
}

impl Name {
    /// The name of these bytes.
    pub fn new(bytes: &[u8]) -> Name
        requires { length bytes.now ≤ 64 }
        ensures { result ≡ bytes.now }
    {
        let len = bytes.len() as u8;
        Name {
            bytes: fill(bytes),
            len,
        }
    }

    /// The bytes of the name.
    pub fn bytes(&self) -> &[u8]
        ensures value { result.now ≡ self.now }
        ensures short { length self.now ≤ 64 }
    {
        &self.bytes[..self.len as usize]
    }
}

ghost use Rattle.std.specs.Prelude.{◌++◌, ◌-◌, replicate};
ghost use Rattle.scj_base.specs.NameSupport.{padded};

/// The bytes with zero bytes behind them.
fn fill(bytes: &[u8]) -> [u8; 64]
    requires { length bytes.now ≤ 64 }
    ensures { result ≡ padded bytes.now }
{
    let mut all = [0; 64];
    for i in 0..bytes.len() {
        all[i] = bytes[i];
    }
    all
}

impl PartialEq for Name {
    ghost use Rattle.std.specs.Prelude.{◌==◌};
    ghost use Rattle.std.specs.Cmp.Lexicographic.{pointwise};
    ghost use Rattle.std.proofs.Common.{rules};
    ghost use Rattle.std.specs.Cmp.Rules.{comparing};

    ghost eq = { pointwise ◌==◌ };

    ghost laws = { Prim.search (comparing, rules) };

    fn eq(&self, other: &Name) -> bool {
        self.bytes() == other.bytes()
    }
}

impl Eq for Name {
    ghost use Rattle.std.proofs.Common.{rules};
    ghost use Rattle.std.specs.Cmp.Rules.{comparing};

    ghost laws = { Prim.search (comparing, rules) };
}

impl Ord for Name {
    ghost use Rattle.std.specs.Cmp.Lexicographic.{slice_cmp};
    ghost use Rattle.std.specs.Ordering.{nat_cmp};
    ghost use Rattle.std.proofs.Common.{rules};
    ghost use Rattle.std.specs.Cmp.Rules.{comparing};

    ghost cmp = { slice_cmp nat_cmp };

    ghost total = { Prim.search (comparing, rules) };

    ghost matches_partial_cmp = { Prim.search (comparing, rules) };

    ghost matches_eq = { Prim.search (comparing, rules) };

    fn cmp(&self, other: &Name) -> Ordering {
        self.bytes().cmp(other.bytes())
    }
}

impl PartialOrd for Name {
    ghost use Rattle.std.specs.Cmp.Lexicographic.{slice_cmp};
    ghost use Rattle.std.specs.Ordering.{nat_cmp, as_partial_cmp};
    ghost use Rattle.std.specs.Cmp.{partial_order_from_own_ties};
    ghost use Rattle.std.proofs.Common.{rules};
    ghost use Rattle.std.specs.Cmp.Rules.{comparing};

    ghost partial_cmp = { as_partial_cmp (slice_cmp nat_cmp) };

    ghost laws = { partial_order_from_own_ties (Prim.search (comparing, rules)) (Prim.search (comparing, rules)) };

    fn partial_cmp(&self, other: &Name) -> Option<Ordering> {
        Some(self.cmp(other))
    }
}
