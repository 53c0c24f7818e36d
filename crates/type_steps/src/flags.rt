//! Annotations and modifiers as they are read.

ghost use Rattle.std.specs.Prelude.{◌≡◌};
ghost use Rattle.scj_tree.specs.Terminals.{no_flags as none_of_them, placed as placed_at, with_define_scope as with_defined, with_scope as with_scoped, with_runs_in as with_run, with_modifier as with_word, add_modifier as add_word, has_effect as is_effective, flags_node as node_of_flags};

use scj_base::vocabulary::{ABSTRACT, FINAL, PRIVATE, PROTECTED, PUBLIC, STATIC, SYNCHRONIZED};
use scj_base::{NodeId, Position};
use scj_tree::{FlagSet, Node};

/// No annotation and no modifier.
pub fn no_flags() -> FlagSet
    ensures { result ≡ none_of_them }
{
    FlagSet {
        position: None,
        define_scope: None,
        scope: None,
        runs_in: None,
        is_public: false,
        is_protected: false,
        is_private: false,
        is_static: false,
        is_final: false,
        is_abstract: false,
        is_synchronized: false,
    }
}

/// With one that stands at the place: the first gives the place of all.
#[tactic(auto, unfolding(scj_tree::specs::Terminals::placed))]
pub fn placed(position: Position, flags: FlagSet) -> FlagSet
    ensures { result ≡ placed_at position flags }
{
    match flags.position {
        None => FlagSet {
            position: Some(position),
            ..flags
        },
        Some(_) => flags,
    }
}

/// With a `@DefineScope`.
#[tactic(auto, unfolding(scj_tree::specs::Terminals::with_define_scope))]
pub fn with_define_scope(id: NodeId, flags: FlagSet) -> FlagSet
    ensures { result ≡ with_defined id flags }
{
    FlagSet {
        define_scope: Some(id),
        ..flags
    }
}

/// With the value of a `@Scope`.
#[tactic(auto, unfolding(scj_tree::specs::Terminals::with_scope))]
pub fn with_scope(id: NodeId, flags: FlagSet) -> FlagSet
    ensures { result ≡ with_scoped id flags }
{
    FlagSet {
        scope: Some(id),
        ..flags
    }
}

/// With the value of a `@RunsIn`.
#[tactic(auto, unfolding(scj_tree::specs::Terminals::with_runs_in))]
pub fn with_runs_in(id: NodeId, flags: FlagSet) -> FlagSet
    ensures { result ≡ with_run id flags }
{
    FlagSet {
        runs_in: Some(id),
        ..flags
    }
}

/// With one modifier more, where it does not stand there already.
#[tactic(auto, unfolding(scj_tree::specs::Terminals::with_modifier))]
fn with_modifier(word: u8, flags: &FlagSet) -> Option<FlagSet>
    ensures { result ≡ with_word word flags.now }
{
    let (is_there, more) = match word {
        PUBLIC => (
            flags.is_public,
            FlagSet {
                is_public: true,
                ..*flags
            },
        ),
        PROTECTED => (
            flags.is_protected,
            FlagSet {
                is_protected: true,
                ..*flags
            },
        ),
        PRIVATE => (
            flags.is_private,
            FlagSet {
                is_private: true,
                ..*flags
            },
        ),
        STATIC => (
            flags.is_static,
            FlagSet {
                is_static: true,
                ..*flags
            },
        ),
        FINAL => (
            flags.is_final,
            FlagSet {
                is_final: true,
                ..*flags
            },
        ),
        ABSTRACT => (
            flags.is_abstract,
            FlagSet {
                is_abstract: true,
                ..*flags
            },
        ),
        SYNCHRONIZED => (
            flags.is_synchronized,
            FlagSet {
                is_synchronized: true,
                ..*flags
            },
        ),
        _ => return None,
    };
    if is_there { None } else { Some(more) }
}

/// With one modifier more; before a local the one modifier is `final`.
#[tactic(auto, unfolding(scj_tree::specs::Terminals::add_modifier))]
pub fn add_modifier(is_local: bool, word: u8, flags: &FlagSet) -> Option<FlagSet>
    ensures { result ≡ add_word is_local word flags.now }
{
    if is_local && word != FINAL {
        return None;
    }
    with_modifier(word, flags)
}

/// Whether at least one has an effect.
#[tactic(auto, unfolding(scj_tree::specs::Terminals::has_effect))]
fn has_effect(flags: &FlagSet) -> bool
    ensures { result ≡ is_effective flags.now }
{
    flags.define_scope.is_some()
        || flags.scope.is_some()
        || flags.runs_in.is_some()
        || flags.is_static
        || flags.is_abstract
        || flags.is_synchronized
}

/// The node of the flags, where at least one has an effect.
#[tactic(auto, unfolding(scj_tree::specs::Terminals::flags_node, scj_tree::specs::Terminals::flags_at))]
pub fn flags_node(flags: &FlagSet) -> Option<Node>
    ensures { result ≡ node_of_flags flags.now }
{
    if !has_effect(flags) {
        return None;
    }
    let Some(position) = flags.position else {
        return None;
    };
    Some(Node::Flags {
        position,
        define_scope: flags.define_scope,
        scope: flags.scope,
        runs_in: flags.runs_in,
        is_static: flags.is_static,
        is_abstract: flags.is_abstract,
        is_synchronized: flags.is_synchronized,
    })
}
