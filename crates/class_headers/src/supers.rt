//! Names after `extends` and `implements` that aren't known, or are forbidden.

ghost use Rattle.std.specs.Prelude.{◌≡◌, ◌++◌, ◌∷◌, ◌&&◌, [], filter_map, if◌then◌else◌, IfOk, OnOk};
ghost use Rattle.std.specs.List.{list_all};
ghost use Rattle.scj_rules.specs.Definitions.{read};
ghost use Rattle.scj_rules.specs.Views.{class_at, named_super};
ghost use Rattle.scj_rules.specs.Classes.{kinds_of, forbidden_interfaces};
ghost use Rattle.scj_rules.specs.Contexts.{declarations_of};
ghost use Rattle.class_headers.specs.Supers.{is_known_if_there, knows_supers, is_nameable, may_be_named, is_forbidden, forbidden_name, kinds_named, forbidden_in, is_well_headed_in};

use crate::filling::Headers;
use crate::kinds::{add_kinds, brings_too_many};
use node_views::{class_extends, interface_nodes, named_super};
use scj_base::{ClassId, Memory, NodeId};
use scj_builtins::ClassKind;
use scj_rules::Written;
use std::alloc::Global;

/// Whether a class of the kind may be named, as an interface or as a superclass.
#[tactic(auto, unfolding(scj_rules::specs::Classes::is_extended, scj_rules::specs::Classes::is_implemented))]
fn is_nameable(kind: ClassKind, as_interface: bool) -> bool
    ensures { result ≡ is_nameable as_interface kind }
{
    match kind {
        ClassKind::Concrete => !as_interface,
        ClassKind::Abstract => !as_interface,
        ClassKind::Interface => as_interface,
        _ => false,
    }
}

/// Puts a name last, if it is forbidden.
fn note_if(is_forbidden: bool, name: Written, found: &mut Vec<Written>) -> Result<(), Memory>
    ensures { OnOk result (found.new.items ≡ found.old.items ++ (if is_forbidden then name ∷ [] else [])) }
{
    if is_forbidden {
        found.push(name)?;
    }
    Ok(())
}

impl<'a> Headers<'a> {
    /// Whether the class is there that is named, where one is.
    fn is_known_if_there(&self, written: Option<Written>) -> bool
        ensures { result ≡ is_known_if_there (declarations_of self.now).names written }
    {
        match written {
            Some(written) => self.class_of(&written.name).is_some(),
            None => true,
        }
    }

    /// Whether the classes are there that these nodes name.
    fn knows_nodes(&self, nodes: &[NodeId]) -> bool
        ensures { result ≡ list_all
            (λ id. is_known_if_there (declarations_of self.now).names (read self.now.nodes named_super id)) nodes.now }
    {
        nodes.iter().all(|node| self.is_known_if_there(named_super(self.program(), *node)))
    }

    /// Whether the classes are there that are named, after `extends` and by these nodes.
    fn knows_all(&self, extends: Option<Written>, nodes: &[NodeId]) -> bool
        ensures { result ≡ (is_known_if_there (declarations_of self.now).names extends && list_all
            (λ id. is_known_if_there (declarations_of self.now).names (read self.now.nodes named_super id)) nodes.now) }
    {
        self.is_known_if_there(extends) && self.knows_nodes(nodes)
    }

    /// Whether all names in the header of the class at a node are known.
    fn knows_supers(&self, node: NodeId) -> bool
        ensures { result ≡ knows_supers (declarations_of self.now) (class_at self.now.nodes node) }
    {
        let extends = class_extends(self.program(), node);
        self.knows_all(extends, interface_nodes(self.program(), node))
    }

    /// Whether a class may be named so.
    fn may_be_named(&self, class: ClassId, as_interface: bool) -> bool
        ensures { result ≡ may_be_named (declarations_of self.now) as_interface class }
    {
        match self.kind(class) {
            Some(kind) => is_nameable(kind, as_interface),
            None => false,
        }
    }

    /// Whether a class of these kinds may not be named so behind names of the kinds `there`.
    fn is_forbidden(
        &self,
        class: ClassId,
        as_interface: bool,
        there: &[ClassId],
        kinds: &[ClassId],
    ) -> bool
        requires { kinds.now ≡ kinds_of (declarations_of self.now).written class }
        ensures { result ≡ is_forbidden (declarations_of self.now) as_interface there.now class }
    {
        !self.may_be_named(class, as_interface) || brings_too_many(there, kinds)
    }

    /// Puts a name last, where it is forbidden behind names of the kinds `there`. The kinds of its class come back.
    #[tactic(auto, unfolding(crate::specs::Supers::forbidden_name, crate::specs::Supers::kinds_named))]
    fn note_name(
        &self,
        alloc: Global,
        name: Written,
        as_interface: bool,
        there: &[ClassId],
        found: &mut Vec<Written>,
    ) -> Result<Vec<ClassId>, Memory>
        ensures found { OnOk result (found.new.items ≡ found.old.items
            ++ forbidden_name (declarations_of self.now) as_interface there.now name) }
        ensures kinds { IfOk result (λ kinds. kinds.items ≡ kinds_named (declarations_of self.now) name) }
    {
        match self.class_of(&name.name) {
            Some(class) => {
                let kinds = self.kinds_of(alloc, class)?;
                let is_forbidden = self.is_forbidden(class, as_interface, there, &kinds);
                note_if(is_forbidden, name, found)?;
                Ok(kinds)
            }
            None => Ok(Vec::new(alloc)),
        }
    }

    /// Puts what is forbidden after `implements` last, where the names before have these kinds.
    #[tactic(auto, using(crate::proofs::SuperLemmas::one_forbidden, crate::proofs::SuperLemmas::none_forbidden))]
    fn note_interfaces(
        &self,
        alloc: Global,
        nodes: &[NodeId],
        there: &mut Vec<ClassId>,
        found: &mut Vec<Written>,
    ) -> Result<(), Memory>
        ensures { OnOk result (found.new.items ≡ found.old.items
            ++ forbidden_interfaces (declarations_of self.now).names (declarations_of self.now).written there.old.items
            (filter_map (read self.now.nodes named_super) nodes.now)) }
    {
        let mut others = nodes;
        while let [node, rest @ ..] = others {
            if let Some(name) = named_super(self.program(), *node) {
                let kinds = self.note_name(alloc, name, true, there, found)?;
                add_kinds(&kinds, there)?;
            }
            others = rest;
        }
        Ok(())
    }

    /// What is forbidden in the header of the class at a node.
    pub fn forbidden_supers(&self, alloc: Global, node: NodeId) -> Result<Vec<Written>, Memory>
        ensures { IfOk result
            (λ found. found.items ≡ forbidden_in (declarations_of self.now) (class_at self.now.nodes node)) }
    {
        let mut found = Vec::new(alloc);
        let interfaces = interface_nodes(self.program(), node);
        let Some(name) = class_extends(self.program(), node) else {
            let mut there = Vec::new(alloc);
            self.note_interfaces(alloc, interfaces, &mut there, &mut found)?;
            return Ok(found);
        };
        let mut there = self.note_name(alloc, name, false, &[], &mut found)?;
        self.note_interfaces(alloc, interfaces, &mut there, &mut found)?;
        Ok(found)
    }

    /// Whether nothing in the header of the class at a node is forbidden.
    #[tactic(auto, unfolding(crate::specs::Supers::is_well_headed_in, scj_rules::specs::Classes::is_empty))]
    pub fn is_well_headed(
        &self,
        alloc: Global,
        class: ClassId,
        node: NodeId,
    ) -> Result<bool, Memory>
        ensures { IfOk result
            (λ is_good. is_good ≡ is_well_headed_in (declarations_of self.now) class (class_at self.now.nodes node)) }
    {
        if !self.knows_supers(node) || self.is_cyclic(class) {
            return Ok(false);
        }
        let found = self.forbidden_supers(alloc, node)?;
        Ok(found.is_empty())
    }
}
