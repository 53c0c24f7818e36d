//! The classes of a program with their look-ups.

ghost use Rattle.std.specs.Prelude.{◌≡◌, length, slice_get, option_map, option_and_then};
ghost use Rattle.scj_rules.specs.Views.{DeclaredConstructor, WrittenClass, class_at, constructor_at};
ghost use Rattle.scj_rules.specs.Classes.{ClassRow, class_number, superclass_in, all_interfaces, is_cyclic};
ghost use Rattle.scj_rules.specs.Words.{is_among};
ghost use Rattle.scj_builtins.specs.Framework.{safelet};
ghost use Rattle.scj_rules.specs.Contexts.{declarations_of};
ghost use Rattle.scj_rules.specs.Types.{constructor_in};
ghost use Rattle.class_rows.specs.Members.{rows_of};
ghost use Rattle.class_rows.specs.Tables.{class_written, is_under_object, members_in, name_of};

use crate::counted::superclass_of;
use crate::tables::ClassTable;
use class_headers::Headers;
use class_headers::ways::is_marked;
use node_views::class_name;
use scj_base::ids::SAFELET;
use scj_base::{ClassId, Name, NodeId};
use scj_builtins::{ClassKind, framework_classes};
use scj_tree::Program;

impl<'a> ClassTable<'a> {
    /// The program.
    pub fn program(&self) -> &'a Program
        ensures { result.now ≡ self.now }
    {
        self.headers.program()
    }

    /// The classes as they are written.
    pub fn written(&self) -> &Headers<'a>
        ensures { result.now ≡ self.now }
    {
        &self.headers
    }

    /// How many classes there are, the framework's among them.
    #[tactic(auto, using(crate::proofs::RowLemmas::class_length))]
    pub fn count(&self) -> usize
        ensures { result ≡ length (rows_of self.now) }
    {
        self.written().count()
    }

    /// The same, as a number of the width of theirs.
    pub fn class_count(&self) -> u32
        ensures { result ≡ length (rows_of self.now) }
    {
        self.count
    }

    /// How many names of classes there are: each class has one.
    #[tactic(auto, using(scj_rules::proofs::WithinLemmas::as_many_names))]
    pub fn name_count(&self) -> usize
        ensures { result ≡ length (declarations_of self.now).names }
    {
        self.count()
    }

    /// The class of a name: the first one that has it.
    pub fn class_of(&self, name: &Name) -> Option<ClassId>
        ensures { result ≡ class_number (declarations_of self.now).names name.now }
    {
        self.written().class_of(name)
    }

    /// The name of a class.
    #[tactic(auto, unfolding(crate::specs::Tables::name_of))]
    pub fn name(&self, class: ClassId) -> Option<Name>
        ensures { result ≡ name_of (declarations_of self.now) class }
    {
        match framework_classes().get(class.number() as usize) {
            Some(class) => Some(class.name),
            None => class_name(self.program(), self.class_node(class)?),
        }
    }

    /// What a class may be used for.
    #[tactic(auto, using(crate::proofs::RowLemmas::kind_is))]
    pub fn kind(&self, class: ClassId) -> Option<ClassKind>
        ensures { result ≡ option_map (λ (row : ClassRow). row.kind) (slice_get (rows_of self.now) class) }
    {
        self.written().kind(class)
    }

    /// The node of a user class.
    pub fn class_node(&self, class: ClassId) -> Option<NodeId>
        ensures node { result ≡ option_map (λ (c : WrittenClass). c.node)
            (class_written (declarations_of self.now) class) }
        ensures class { option_and_then (class_at self.now.nodes) result ≡ class_written
            (declarations_of self.now) class }
    {
        self.written().class_node(class)
    }

    /// The members of a user class, in the order of the source.
    pub fn members(&self, class: ClassId) -> &'a [NodeId]
        ensures { result.now ≡ members_in (declarations_of self.now) class }
    {
        self.written().members(class)
    }

    /// Whether a class counts as one under `Object`, since something in its header is forbidden.
    #[tactic(auto, using(crate::proofs::RowLemmas::marked_at))]
    fn is_under_object(&self, class: ClassId) -> bool
        ensures { result ≡ is_under_object (declarations_of self.now) class }
    {
        is_marked(&self.under_object, class)
    }

    /// The superclass as it counts.
    pub fn superclass(&self, class: ClassId) -> Option<ClassId>
        ensures { result ≡ superclass_in (rows_of self.now) class }
    {
        superclass_of(self.written(), class, self.is_under_object(class))
    }

    /// Whether the superclasses as they are written come back to the class.
    pub fn is_cyclic(&self, class: ClassId) -> bool
        ensures { result ≡ is_cyclic (declarations_of self.now).written class }
    {
        self.written().is_cyclic(class)
    }

    /// Whether a class of the chain, as it is written, implements `Safelet`.
    pub fn is_safelet_written(&self, class: ClassId) -> bool
        ensures { result ≡ is_among safelet (all_interfaces (declarations_of self.now).written class) }
    {
        self.written().implements(class, SAFELET)
    }

    /// The node of the first constructor of a class.
    #[tactic(auto, using(crate::proofs::OwnLemmas::constructor_is, crate::proofs::OwnLemmas::constructor_whole))]
    pub fn constructor_in(&self, class: ClassId) -> Option<NodeId>
        ensures node { result ≡ option_map (λ (c : DeclaredConstructor). c.node) (constructor_in (rows_of self.now) class) }
        ensures whole { option_and_then (constructor_at self.now.nodes) result ≡ constructor_in (rows_of self.now) class }
    {
        self.written().constructor(class)
    }
}
