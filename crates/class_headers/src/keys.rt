//! Keys of look-ups by name.

use scj_base::Name;
use std::hash::{Hash, Hasher};
use std::marker::Model;

/// A name as a key.
#[derive(Clone, Copy, Debug, PartialEq, Eq)]
pub struct NameKey {
    name: Name,
}

impl Model for NameKey {
    ghost use Rattle.std.specs.Prelude.{List, ℕ};

    ghost Value = { List ℕ };

    ghost view = { λ a. a.name };

    ghost inverse = { λ n. record { name = n } };
}

ghost use Rattle.std.specs.Prelude.{◌≡◌};

impl NameKey {
    /// The key of a name.
    pub fn of(name: Name) -> NameKey
        ensures { result ≡ name }
    {
        NameKey { name }
    }
}

impl Hash for NameKey {
    ghost use Rattle.std.specs.Prelude.{[], ◌∷◌};
    ghost use Rattle.std.proofs.Common.{rules};
    ghost use Rattle.std.specs.Cmp.Rules.{comparing, hashing};

    // All bytes in one write: a hasher takes a row of them much faster than one after the other.
    ghost hash_input = { λ x. x ∷ [] };

    ghost respects_eq = { Prim.search (hashing, rules) };

    fn hash<H: Hasher>(&self, state: &mut H) {
        state.write(self.name.bytes());
    }
}
