//! Whether a class stands under another, and look-ups of members by name.

ghost use Rattle.std.specs.Prelude.{◌≡◌, ◌<◌, ◌≤◌, ℕ, List, IfSome, filter, option_map};
ghost use Rattle.scj_rules.specs.Words.{along, is_among, or_else};
ghost use Rattle.scj_rules.specs.Classes.{superclasses, all_interfaces, is_sub, own_field, field_named, own_method, method_named, method_above, framework_row_named, field_nodes, field_number, method_nodes, method_number, first_user_class};
ghost use Rattle.scj_rules.specs.Contexts.{declarations_of};
ghost use Rattle.method_rows.specs.Methods.{found_method};
ghost use Rattle.class_rows.specs.Fields.{found_field};
ghost use Rattle.class_rows.specs.declared.members.MemberKind.TheVariants.{Field, Method};
ghost use Rattle.class_rows.specs.Members.{first_declared, first_named, rows_of, IsMembersOf, IsNearestAbove};
ghost use Rattle.class_rows.specs.Tables.{members_in};
ghost use Rattle.class_rows.specs.Walks.{asked, is_framework, is_known, implemented_method};

use crate::chains::Chain;
use crate::fields::FieldRef;
use crate::members::{MemberKind, Members, OwnKey};
use crate::nearest::as_method;
use crate::tables::ClassTable;
use class_headers::ways::{has_bit, way_at};
use method_rows::{MethodRef, MethodSource, framework_method};
use scj_base::ids::{RUNNABLE, SAFELET};
use scj_base::{ClassId, FieldId, MethodId, Name, NodeId};
use scj_builtins::FRAMEWORK_CLASS_COUNT;

/// The numbers of the kinds of classes are below this one.
const KIND_COUNT: u32 = 7;

/// Chains of no more classes are walked: that is quicker than to find what is told.
const SHORT: u32 = 8;

/// Whether an interface is one that classes may implement.
fn is_known(interface: ClassId) -> bool
    ensures { result ≡ is_known interface }
{
    interface == RUNNABLE || interface == SAFELET
}

impl<'a> ClassTable<'a> {
    /// Whether a class is the other one or stands under it, by a walk up its chain.
    fn is_on_chain(&self, class: ClassId, above: ClassId) -> bool
        ensures { result ≡ is_among above (superclasses (rows_of self.now) class) }
    {
        let mut chain = self.superclasses(class);
        while let Some(at) = chain.next() {
            if at == above {
                return true;
            }
        }
        false
    }

    /// Whether a class is the other one or stands under it by superclasses.
    pub fn is_under(&self, class: ClassId, above: ClassId) -> bool
        ensures { result ≡ is_among above (superclasses (rows_of self.now) class) }
    {
        if above.number() < KIND_COUNT {
            return has_bit(way_at(&self.ways, class).above, above);
        }
        match self.is_reported_under(class, above) {
            Some(reported) => reported,
            None => self.is_on_chain(class, above),
        }
    }

    /// Whether a class of the chain implements the interface. None implements another one than `Runnable` and
    /// `Safelet`.
    #[tactic(auto, using(crate::proofs::InterfaceLemmas::known_marked, crate::proofs::InterfaceLemmas::unknown_not_implemented))]
    pub fn implements(&self, class: ClassId, interface: ClassId) -> bool
        ensures { result ≡ is_among interface (all_interfaces (rows_of self.now) class) }
    {
        if is_known(interface) {
            let way = way_at(&self.ways, class);
            return has_bit(way.implemented, interface);
        }
        false
    }

    /// Whether a class is a subclass of the other one, or implements it (JLS 4.10.2).
    #[tactic(auto, unfolding(scj_rules::specs::Classes::is_sub))]
    pub fn is_sub(&self, class: ClassId, above: ClassId) -> bool
        ensures { result ≡ is_sub (rows_of self.now) class above }
    {
        self.is_under(class, above) || self.implements(class, above)
    }

    /// The members of a kind.
    fn members_like(&self, kind: MemberKind) -> &Members
        ensures { IsMembersOf kind self.now result.now }
    {
        match kind {
            MemberKind::Field => &self.fields,
            MemberKind::Method => &self.methods,
        }
    }

    /// The first member of all classes with the name, which stands for it.
    pub fn first_declared(&self, kind: MemberKind, name: &Name) -> Option<NodeId>
        ensures { result ≡ first_declared kind self.now name.now }
    {
        self.members_like(kind).firsts.node_of(name)
    }

    /// The node of the first member that a user class declares itself with the name for which one stands.
    #[tactic(auto, using(crate::proofs::MemberLemmas::none_declared))]
    pub fn member_like(
        &self,
        kind: MemberKind,
        class: ClassId,
        first: &Option<NodeId>,
    ) -> Option<NodeId>
        ensures { (name : List ℕ) → first.now ≡ first_declared kind self.now name →
            result ≡ first_named kind self.now.nodes name (members_in (declarations_of self.now) class) }
    {
        match first {
            Some(id) => {
                let key = OwnKey {
                    class: class.number(),
                    first: id.number(),
                };
                self.members_like(kind).named.get(&key).copied()
            }
            None => None,
        }
    }

    /// The first field that a class declares itself with the name for which one stands.
    fn field_like(&self, class: ClassId, first: &Option<NodeId>) -> Option<FieldRef>
        ensures { (name : List ℕ) → first.now ≡ first_declared Field self.now name →
            option_map (found_field self.now.nodes) result ≡ own_field (rows_of self.now) name class }
    {
        let node = self.member_like(MemberKind::Field, class, first)?;
        Some(FieldRef { on: class, node })
    }

    /// The method of a name that a framework class declares itself.
    fn framework_row(&self, class: ClassId, name: &Name) -> Option<MethodRef>
        requires { class < first_user_class }
        ensures { option_map (found_method self.now.nodes) result ≡ own_method (rows_of self.now) name.now class }
    {
        let id = framework_method(class, name)?;
        Some(MethodRef {
            on: class,
            source: MethodSource::Framework(id),
        })
    }

    /// The first method of a name, for which a member stands if user classes are asked, that a class declares itself.
    fn method_like(&self, class: ClassId, name: &Name, first: &Option<NodeId>) -> Option<MethodRef>
        requires { first_user_class ≤ class → first.now ≡ first_declared Method self.now name.now }
        ensures { option_map (found_method self.now.nodes) result ≡ own_method (rows_of self.now) name.now class }
    {
        if class.number() < FRAMEWORK_CLASS_COUNT {
            return self.framework_row(class, name);
        }
        let node = self.member_like(MemberKind::Method, class, first)?;
        Some(as_method(FieldRef { on: class, node }))
    }

    /// The first method of a name that a class declares itself.
    pub fn own_method(&self, class: ClassId, name: &Name) -> Option<MethodRef>
        ensures { option_map (found_method self.now.nodes) result ≡ own_method (rows_of self.now) name.now class }
    {
        if class.number() < FRAMEWORK_CLASS_COUNT {
            return self.framework_row(class, name);
        }
        self.method_like(class, name, &self.first_declared(MemberKind::Method, name))
    }

    /// The nearest member of a name above a class whose chain is long, where it is told.
    fn reported_above(
        &self,
        kind: MemberKind,
        class: ClassId,
        name: &Name,
    ) -> Option<Option<FieldRef>>
        ensures { IfSome result (λ nearest. IsNearestAbove kind self.now class name.now nearest) }
    {
        if self.ancestry(class)?.depth <= SHORT {
            return None;
        }
        match kind {
            MemberKind::Field => self.fields_above.nearest_above(class, name),
            MemberKind::Method => self.methods_above.nearest_above(class, name),
        }
    }

    /// The field of a name that a class has, its own or the nearest above.
    #[tactic(auto, using(crate::proofs::WalkLemmas::along_front, crate::proofs::WalkLemmas::along_end, crate::proofs::OwnLemmas::field_is), unfolding(scj_rules::specs::Classes::field_named))]
    pub fn field_named(&self, class: ClassId, name: &Name) -> Option<FieldRef>
        ensures { option_map (found_field self.now.nodes) result ≡ field_named (rows_of self.now) class name.now }
    {
        let first = &self.first_declared(MemberKind::Field, name);
        if let Some(above) = self.reported_above(MemberKind::Field, class, name) {
            return self.field_like(class, first).or(above);
        }
        let mut chain = self.superclasses(class);
        while let Some(at) = chain.next() {
            if let Some(field) = self.field_like(at, first) {
                return Some(field);
            }
        }
        None
    }

    /// The first method of a name that one of these declares itself, or one of the framework's classes among them, where
    /// these alone are asked.
    #[tactic(auto, using(crate::proofs::WalkLemmas::along_front, crate::proofs::WalkLemmas::along_end))]
    fn first_method(&self, classes: Chain<'_>, of_framework: bool, name: &Name) -> Option<MethodRef>
        ensures { option_map (found_method self.now.nodes) result ≡ along
            (own_method (rows_of self.now) name.now) (asked of_framework classes.entry) }
    {
        let first = &if of_framework {
            None
        } else {
            self.first_declared(MemberKind::Method, name)
        };
        let mut chain = classes;
        while let Some(at) = chain.next() {
            if of_framework && at.number() >= FRAMEWORK_CLASS_COUNT {
                continue;
            }
            if let Some(method) = self.method_like(at, name, first) {
                return Some(method);
            }
        }
        None
    }

    /// The method of a name that an interface declares itself, where a class of the chain implements it.
    fn implemented_method(
        &self,
        class: ClassId,
        interface: ClassId,
        name: &Name,
    ) -> Option<MethodRef>
        ensures { option_map (found_method self.now.nodes) result ≡ implemented_method
            (rows_of self.now) class name.now interface }
    {
        if self.implements(class, interface) {
            self.own_method(interface, name)
        } else {
            None
        }
    }

    /// The method of a name that an interface of the chain declares.
    #[tactic(auto, using(crate::proofs::InterfaceLemmas::by_runnable, crate::proofs::InterfaceLemmas::by_safelet))]
    fn interface_method(&self, class: ClassId, name: &Name) -> Option<MethodRef>
        ensures { option_map (found_method self.now.nodes) result ≡ along
            (own_method (rows_of self.now) name.now) (all_interfaces (rows_of self.now) class) }
    {
        match self.implemented_method(class, RUNNABLE, name) {
            Some(method) => Some(method),
            None => self.implemented_method(class, SAFELET, name),
        }
    }

    /// A method that is found, or else that of an interface of the chain.
    fn or_interface_method(
        &self,
        found: Option<MethodRef>,
        class: ClassId,
        name: &Name,
    ) -> Option<MethodRef>
        ensures { option_map (found_method self.now.nodes) result ≡ or_else
            (option_map (found_method self.now.nodes) found)
            (along (own_method (rows_of self.now) name.now) (all_interfaces (rows_of self.now) class)) }
    {
        match found {
            Some(method) => Some(method),
            None => self.interface_method(class, name),
        }
    }

    /// The method of a name that the nearest of the framework's classes on a class's chain declares that has one.
    fn framework_method_above(&self, class: ClassId, name: &Name) -> Option<MethodRef>
        ensures { option_map (found_method self.now.nodes) result ≡ along
            (own_method (rows_of self.now) name.now) (filter is_framework (superclasses (rows_of self.now) class)) }
    {
        self.first_method(self.superclasses(self.root(class)), true, name)
    }

    /// The method of a name that a class or the nearest class above declares itself.
    #[tactic(auto, using(crate::proofs::OwnLemmas::method_is))]
    fn nearest_method(&self, class: ClassId, name: &Name) -> Option<MethodRef>
        ensures { option_map (found_method self.now.nodes) result ≡ along
            (own_method (rows_of self.now) name.now) (superclasses (rows_of self.now) class) }
    {
        let Some(above) = self.reported_above(MemberKind::Method, class, name) else {
            return self.first_method(self.superclasses(class), false, name);
        };
        if let Some(method) = self.own_method(class, name) {
            return Some(method);
        }
        match above {
            Some(member) => Some(as_method(member)),
            None => self.framework_method_above(class, name),
        }
    }

    /// The method of a name that a class has: the nearest declaration above, or else an interface's.
    #[tactic(auto, unfolding(scj_rules::specs::Classes::method_named), using(crate::proofs::WalkLemmas::along_append))]
    pub fn method_named(&self, class: ClassId, name: &Name) -> Option<MethodRef>
        ensures { option_map (found_method self.now.nodes) result ≡ method_named (rows_of self.now) class name.now }
    {
        let found = self.nearest_method(class, name);
        self.or_interface_method(found, class, name)
    }

    /// What a declaration of the name in the class overrides.
    #[tactic(auto, unfolding(scj_rules::specs::Classes::method_above, scj_rules::specs::Classes::classes_above, scj_rules::specs::Classes::superclasses, scj_rules::specs::Words::chain_behind), using(crate::proofs::WalkLemmas::along_append))]
    pub fn method_above(&self, class: ClassId, name: &Name) -> Option<MethodRef>
        ensures { option_map (found_method self.now.nodes) result ≡ method_above (rows_of self.now) class name.now }
    {
        let found = match self.superclass(class) {
            Some(above) => self.nearest_method(above, name),
            None => None,
        };
        self.or_interface_method(found, class, name)
    }

    /// The nearest framework class that a class is or stands under, where it is told, or else the class.
    #[tactic(auto, using(crate::proofs::InterfaceLemmas::same_framework))]
    fn root(&self, class: ClassId) -> ClassId
        ensures { filter is_framework (superclasses (rows_of self.now) result)
            ≡ filter is_framework (superclasses (rows_of self.now) class) }
    {
        match self.ancestry(class) {
            Some(reported) => reported.root,
            None => class,
        }
    }

    /// The framework's own method of the name, where the class stands under the framework class or implements it.
    #[tactic(auto, unfolding(scj_rules::specs::Classes::framework_row_named), using(crate::proofs::InterfaceLemmas::framework_append))]
    pub fn framework_row_named(&self, class: ClassId, name: &Name) -> Option<MethodRef>
        ensures { option_map (found_method self.now.nodes) result ≡ framework_row_named (rows_of self.now) class name.now }
    {
        let found = self.framework_method_above(class, name);
        self.or_interface_method(found, class, name)
    }

    /// The nodes of the fields in the order of their numbers.
    #[tactic(auto, unfolding(crate::specs::Members::member_nodes))]
    pub fn field_nodes(&self) -> &[NodeId]
        ensures { result.now ≡ field_nodes (rows_of self.now) }
    {
        self.fields.nodes.as_slice()
    }

    /// The nodes of the declared methods and constructors in the order of their numbers.
    #[tactic(auto, unfolding(crate::specs::Members::member_nodes))]
    pub fn method_nodes(&self) -> &[NodeId]
        ensures { result.now ≡ method_nodes self.now.nodes (declarations_of self.now).users }
    {
        self.methods.nodes.as_slice()
    }

    /// The number of the field that a node declares.
    #[tactic(auto, unfolding(crate::specs::Members::number_at))]
    pub fn field_number(&self, node: NodeId) -> Option<FieldId>
        ensures { result ≡ field_number (rows_of self.now) node }
    {
        let index = node.number();
        let number = self.fields.numbers.get(&index).copied()?;
        Some(FieldId::at(number))
    }

    /// The number of the method or constructor that a node declares.
    #[tactic(auto, unfolding(crate::specs::Members::number_at))]
    pub fn method_number(&self, node: NodeId) -> Option<MethodId>
        ensures { result ≡ method_number self.now.nodes (declarations_of self.now).users node }
    {
        let index = node.number();
        let number = self.methods.numbers.get(&index).copied()?;
        Some(MethodId::at(number))
    }
}
