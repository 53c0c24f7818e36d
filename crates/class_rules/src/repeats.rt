//! Members of a class that have the name of an earlier one.

ghost use Rattle.std.specs.Prelude.{◌≡◌, ◌++◌, [], List, filter_map, OnOk};
ghost use Rattle.std.specs.List.{cons_option};
ghost use Rattle.scj_rules.specs.declared.scopes.Written.{Written as Named};
ghost use Rattle.class_rules.specs.Members.{member_name, left_twice};

use node_views::{callable_name, field_written};
use scj_base::{Found, Memory, Name, NodeId, Rule};
use scj_rules::{Written, report_if};
use scj_tree::Program;
use std::alloc::Global;
use std::collections::BTreeSet;

/// The name at a node of a member that a rule lets a class have once, and where it is named.
#[tactic(auto, unfolding(crate::specs::Members::member_name))]
fn member_name(program: &Program, rule: Rule, id: NodeId) -> Option<Written>
    ensures { result ≡ member_name rule program.now.nodes id }
{
    match rule {
        Rule::C4 => field_written(program, id),
        _ => callable_name(program, id),
    }
}

/// Notes that a rule is broken at a name, if there is one and it is known already, and makes it known.
fn note_name(
    found: &mut Vec<Found>,
    known: &mut BTreeSet<Name>,
    name: Option<Written>,
    rule: Rule,
) -> Result<(), Memory>
    ensures { OnOk result ((others : List Named) → found.new.items ++ left_twice rule known.new.keys others
        ≡ found.old.items ++ left_twice rule known.old.keys (cons_option name others)) }
{
    let Some(written) = name else {
        return Ok(());
    };
    let is_new = known.insert(written.name)?;
    report_if(found, !is_new, rule, written.position)?;
    Ok(())
}

/// Notes that a rule is broken at each member that has the name of an earlier one.
#[tactic(auto, unfolding(crate::specs::Members::left_twice, scj_rules::specs::Words::named_twice))]
pub fn note_repeats(
    alloc: Global,
    found: &mut Vec<Found>,
    program: &Program,
    members: &[NodeId],
    rule: Rule,
) -> Result<(), Memory>
    ensures { OnOk result (found.new.items ≡ found.old.items
        ++ left_twice rule [] (filter_map (member_name rule program.now.nodes) members.now)) }
{
    let mut known = BTreeSet::new(alloc);
    let mut others = members;
    while let [id, rest @ ..] = others {
        note_name(found, &mut known, member_name(program, rule, *id), rule)?;
        others = rest;
    }
    Ok(())
}
