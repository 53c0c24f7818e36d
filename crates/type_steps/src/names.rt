//! Names that the grammar knows.

ghost use Rattle.std.specs.Prelude.{◌≡◌};
ghost use Rattle.scj_base.specs.Bytes.{is_same};
ghost use Rattle.scj_tree.specs.Terminals.{is_effectless as has_no_effect, has_type_argument as has_an_argument};

use scj_base::SharedName;

/// Whether the name is this word.
pub fn is_word(name: &SharedName, word: &[u8]) -> bool
    ensures { result ≡ is_same name.now word.now }
{
    name.bytes() == word
}

/// Whether an annotation of this name has no effect.
#[tactic(auto, unfolding(scj_tree::specs::Terminals::is_effectless))]
pub fn is_effectless(name: &SharedName) -> bool
    ensures { result ≡ has_no_effect name.now }
{
    if is_word(name, b"Override") {
        return true;
    }
    if is_word(name, b"SCJAllowed") {
        return true;
    }
    if is_word(name, b"SCJRestricted") {
        return true;
    }
    is_word(name, b"SuppressWarnings")
}

/// Whether a class of this name takes a type argument.
#[tactic(auto, unfolding(scj_tree::specs::Terminals::has_type_argument))]
pub fn has_type_argument(name: &SharedName) -> bool
    ensures { result ≡ has_an_argument name.now }
{
    if is_word(name, b"MissionSequencer") {
        return true;
    }
    is_word(name, b"Safelet")
}
