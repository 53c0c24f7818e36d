//! The members of all classes: their nodes in the order of their numbers, and look-ups by name and by node.

ghost use Rattle.std.specs.Prelude.{◌≡◌, ◌==◌, ◌+◌, ◌≤◌, ◌++◌, ℕ, List, filter, find, position, IfOk, OnOk, option_map, option_and_then};
ghost use Rattle.std.specs.Option.{option_or};
ghost use Rattle.std.specs.HashMap.{get};
ghost use Rattle.scj_rules.specs.declared.views.Declared.{Declared};
ghost use Rattle.scj_rules.specs.Views.{field_at};
ghost use Rattle.scj_rules.specs.Contexts.{declarations_of};
ghost use Rattle.class_headers.specs.Members.{members_in};
ghost use Rattle.class_headers.specs.NamedNumbers.{found_under};
ghost use Rattle.class_rows.specs.declared.members.OwnKey.{OwnKey as Key};
ghost use Rattle.class_rows.specs.Members.{is_member, member_nodes, name_at, first_named, first_number, is_like, is_same_own, in_class, IsMembersOf};

use class_headers::{Headers, NamedNumbers};
use node_views::{is_constructor, is_field, is_method, method_name};
use scj_base::{ClassId, Memory, Name, NodeId};
use scj_builtins::FRAMEWORK_METHOD_COUNT;
use scj_tree::{Node, Program};
use std::alloc::Global;
use std::collections::HashMap;

/// How many members of a kind, the first ones, have their names in the hash table.
const FEW: usize = 4096;

/// Which members are meant.
#[derive(Clone, Copy, Debug)]
pub enum MemberKind {
    /// Fields.
    Field,
    /// Methods. Constructors are numbered with them, but are not found by name.
    Method,
}

/// A class, with the first member of a name, which stands for the name.
#[derive(Clone, Copy, Debug, PartialEq, Eq, Hash)]
pub struct OwnKey {
    /// The class.
    pub class: u32,
    /// The place of the first member of the name.
    pub first: usize,
}

/// The members of one kind.
#[derive(Drop)]
pub struct Members {
    /// Their nodes, each at its number behind the first.
    pub(crate) nodes: Vec<NodeId>,
    /// The first of each name.
    pub(crate) firsts: NamedNumbers,
    /// The first of each name in each class. A walk along a chain asks for the name once, and then for numbers.
    pub(crate) named: HashMap<OwnKey, NodeId>,
    /// The number of each, by its node.
    pub(crate) numbers: HashMap<usize, u32>,
}

/// Whether a node declares a member of the kind.
#[tactic(auto, unfolding(crate::specs::Members::is_member))]
fn is_member(program: &Program, kind: MemberKind, id: NodeId) -> bool
    ensures { result ≡ is_member kind program.now.nodes id }
{
    match kind {
        MemberKind::Field => is_field(program, id),
        MemberKind::Method => is_method(program, id) || is_constructor(program, id),
    }
}

/// The name of the field at a node.
#[tactic(auto, unfolding(scj_rules::specs::Views::field_of))]
fn field_name(program: &Program, id: NodeId) -> Option<Name>
    ensures { result ≡ option_map (λ (f : Declared). f.name) (field_at program.now.nodes id) }
{
    match program.get(id)? {
        Node::Field { name, .. } => Some(*name.get()),
        _ => None,
    }
}

/// The name of the member of the kind at a node.
#[tactic(auto, unfolding(crate::specs::Members::name_at))]
pub fn name_at(program: &Program, kind: MemberKind, id: NodeId) -> Option<Name>
    ensures { result ≡ name_at kind program.now.nodes id }
{
    match kind {
        MemberKind::Field => field_name(program, id),
        MemberKind::Method => method_name(program, id),
    }
}

/// Puts those of these nodes last that declare members of the kind.
fn add_nodes(
    ids: &mut Vec<NodeId>,
    program: &Program,
    kind: MemberKind,
    members: &[NodeId],
) -> Result<(), Memory>
    ensures { OnOk result (ids.new.items ≡ ids.old.items ++ filter (is_member kind program.now.nodes) members.now) }
{
    let mut others = members;
    while let [id, rest @ ..] = others {
        if is_member(program, kind, *id) {
            ids.push(*id)?;
        }
        others = rest;
    }
    Ok(())
}

/// The number of a node.
fn number_of(id: NodeId) -> u32
    ensures { result ≡ id }
{
    id.number() as u32
}

/// The first of each name among these nodes. The last is entered first, so that the first stays.
#[tactic(auto, using(crate::proofs::MemberLemmas::first_entered))]
fn firsts_of(
    alloc: Global,
    program: &Program,
    kind: MemberKind,
    ids: &[NodeId],
) -> Result<NamedNumbers, Memory>
    ensures { IfOk result
        (λ firsts. (name : List ℕ) → found_under firsts name ≡ first_named kind program.now.nodes name ids.now) }
{
    let mut firsts = NamedNumbers::new(alloc, FEW);
    let mut at = ids.len();
    while at > 0 {
        at -= 1;
        let id = ids[at];
        if let Some(name) = name_at(program, kind, id) {
            firsts.enter(at, name, number_of(id))?;
        }
    }
    Ok(firsts)
}

/// The first of the name that a node's member has.
fn first_like(
    firsts: &NamedNumbers,
    program: &Program,
    kind: MemberKind,
    id: NodeId,
) -> Option<NodeId>
    ensures { result ≡ option_and_then (found_under firsts.now) (name_at kind program.now.nodes id) }
{
    let name = name_at(program, kind, id)?;
    firsts.node_of(&name)
}

/// Enters those of these nodes that declare members of the kind, under a class and the firsts of their names. The last
/// is entered first, so that the first stays.
#[tactic(auto, using(crate::proofs::MemberLemmas::own_entered))]
fn add_names(
    map: &mut HashMap<OwnKey, NodeId>,
    firsts: &NamedNumbers,
    program: &Program,
    kind: MemberKind,
    class: ClassId,
    members: &[NodeId],
) -> Result<(), Memory>
    ensures { OnOk result ((key : Key) → get is_same_own map.new key ≡ option_or
        (in_class class key (find (is_like kind program.now.nodes (found_under firsts.now) key.first) members.now))
        (get is_same_own map.old key)) }
{
    let mut at = members.len();
    while at > 0 {
        at -= 1;
        let id = members[at];
        if let Some(first) = first_like(firsts, program, kind, id) {
            let key = OwnKey {
                class: class.number(),
                first: first.number(),
            };
            map.insert(key, id)?;
        }
    }
    Ok(())
}

/// The first place of each node in a list, where the places begin with this number.
#[tactic(auto, using(crate::proofs::MemberLemmas::places_all))]
pub fn indices_of(alloc: Global, ids: &[NodeId], first: u32) -> Result<HashMap<usize, u32>, Memory>
    requires { first ≤ 100 }
    ensures { IfOk result (λ map. (id : ℕ) → get ◌==◌ map id ≡ option_map (λ index. first + index)
        (position (λ other. id == other) ids.now)) }
{
    if ids.len() > u32::MAX as usize - 100 {
        return Err(Memory);
    }
    let mut map = HashMap::new(alloc);
    let mut at = ids.len();
    while at > 0 {
        at -= 1;
        map.insert(ids[at].number(), first + at as u32)?;
    }
    Ok(map)
}

/// The first number of the members of a kind.
fn first_number(kind: MemberKind) -> u32
    ensures value { result ≡ first_number kind }
    ensures small { result ≤ 100 }
{
    match kind {
        MemberKind::Field => 0,
        MemberKind::Method => FRAMEWORK_METHOD_COUNT,
    }
}

/// The nodes of the members of a kind of all classes.
#[tactic(auto, using(crate::proofs::MemberLemmas::nodes_more, crate::proofs::MemberLemmas::nodes_all, crate::proofs::MemberLemmas::nodes_end))]
fn nodes_of(alloc: Global, classes: &Headers<'_>, kind: MemberKind) -> Result<Vec<NodeId>, Memory>
    ensures { IfOk result (λ nodes. nodes.items ≡ member_nodes kind classes.now) }
{
    let count = classes.count();
    if count > u32::MAX as usize {
        return Err(Memory);
    }
    let mut nodes = Vec::new(alloc);
    for number in 0..count {
        let members = classes.members(ClassId::at(number as u32));
        add_nodes(&mut nodes, classes.program(), kind, members)?;
    }
    Ok(nodes)
}

/// The first of each name in each class.
#[tactic(auto, using(crate::proofs::MemberLemmas::names_none, crate::proofs::MemberLemmas::names_more, crate::proofs::MemberLemmas::names_all))]
fn named_of(
    alloc: Global,
    classes: &Headers<'_>,
    kind: MemberKind,
    firsts: &NamedNumbers,
) -> Result<HashMap<OwnKey, NodeId>, Memory>
    ensures { IfOk result (λ named. (key : Key) → get is_same_own named key ≡ find
        (is_like kind classes.now.nodes (found_under firsts.now) key.first)
        (members_in (declarations_of classes.now) key.class)) }
{
    let count = classes.count();
    if count > u32::MAX as usize {
        return Err(Memory);
    }
    let mut named = HashMap::new(alloc);
    for number in 0..count {
        let class = ClassId::at(number as u32);
        let members = classes.members(class);
        add_names(&mut named, firsts, classes.program(), kind, class, members)?;
    }
    Ok(named)
}

/// The members of a kind of all classes.
pub fn members_of(alloc: Global, classes: &Headers<'_>, kind: MemberKind) -> Result<Members, Memory>
    ensures { IfOk result (λ members. IsMembersOf kind classes.now members) }
{
    let nodes = nodes_of(alloc, classes, kind)?;
    let firsts = firsts_of(alloc, classes.program(), kind, &nodes)?;
    let named = named_of(alloc, classes, kind, &firsts)?;
    let numbers = indices_of(alloc, &nodes, first_number(kind))?;
    Ok(Members {
        nodes,
        firsts,
        named,
        numbers,
    })
}
