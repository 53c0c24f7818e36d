//! The classes of a program as they are written.

ghost use Rattle.std.specs.Prelude.{◌≡◌, ◌<◌, ◌++◌, ℕ, length, slice_get, option_copied, option_map, option_and_then};
ghost use Rattle.scj_rules.specs.Words.{is_among};
ghost use Rattle.scj_rules.specs.Views.{DeclaredConstructor, WrittenClass, class_at};
ghost use Rattle.scj_rules.specs.Classes.{ClassRow, class_number, superclass_in, interfaces_in, superclasses, all_interfaces, is_cyclic};
ghost use Rattle.scj_rules.specs.Types.{constructor_in};
ghost use Rattle.scj_rules.specs.Contexts.{declarations_of};
ghost use Rattle.class_headers.specs.Rows.{header_of};
ghost use Rattle.class_headers.specs.Columns.{kind_count};
ghost use Rattle.class_headers.specs.Members.{class_written, members_in};
ghost use Rattle.class_headers.specs.Ways.{has_bit};

use crate::filling::{Header, Headers};
use crate::ways::{has_bit, interfaces_at, is_marked, superclass_at, way_at};
use node_views::class_members;
use scj_base::{ClassId, Name, NodeId};
use scj_builtins::ClassKind;
use scj_tree::Program;

impl<'a> Headers<'a> {
    /// The program.
    pub fn program(&self) -> &'a Program
        ensures { result.now ≡ self.now }
    {
        self.program
    }

    /// How many classes there are, the framework's among them.
    #[tactic(auto, using(crate::proofs::TableLemmas::count_is))]
    pub fn count(&self) -> usize
        ensures { result ≡ length (declarations_of self.now).written }
    {
        self.rows.len()
    }

    /// The class of a name: the first one that has it.
    pub fn class_of(&self, name: &Name) -> Option<ClassId>
        ensures { result ≡ class_number (declarations_of self.now).names name.now }
    {
        self.names.class_of(name)
    }

    /// The header of a class.
    #[tactic(auto, using(crate::proofs::TableLemmas::header_is))]
    fn header(&self, class: ClassId) -> Option<&Header>
        ensures { option_copied result ≡ option_map header_of (slice_get (declarations_of self.now).written class) }
    {
        self.rows.get(class.number() as usize)
    }

    /// What a class may be used for.
    #[tactic(auto, using(crate::proofs::TableLemmas::kind_of))]
    pub fn kind(&self, class: ClassId) -> Option<ClassKind>
        ensures { result ≡ option_map (λ (row : ClassRow). row.kind)
            (slice_get (declarations_of self.now).written class) }
    {
        let header = self.header(class)?;
        Some(header.kind)
    }

    /// The superclass.
    #[tactic(auto, using(crate::proofs::TableLemmas::superclass_is))]
    pub fn superclass(&self, class: ClassId) -> Option<ClassId>
        ensures { result ≡ superclass_in (declarations_of self.now).written class }
    {
        superclass_at(&self.rows, class.number() as usize)
    }

    /// The interfaces.
    #[tactic(auto, using(crate::proofs::TableLemmas::interfaces_is))]
    pub fn interfaces(&self, class: ClassId) -> &[ClassId]
        ensures { result.now ≡ interfaces_in (declarations_of self.now).written class }
    {
        interfaces_at(&self.interfaces, class.number() as usize)
    }

    /// The node that the table has of a class.
    #[tactic(auto, using(crate::proofs::TableLemmas::node_is))]
    fn node(&self, class: ClassId) -> Option<NodeId>
        ensures { result ≡ option_map (λ (c : WrittenClass). c.node) (class_written (declarations_of self.now) class) }
    {
        let header = self.header(class)?;
        header.node
    }

    /// The node of a user class.
    #[tactic(auto, using(crate::proofs::SoundLemmas::class_at_node))]
    pub fn class_node(&self, class: ClassId) -> Option<NodeId>
        ensures node { result ≡ option_map (λ (c : WrittenClass). c.node)
            (class_written (declarations_of self.now) class) }
        ensures class { option_and_then (class_at self.now.nodes) result ≡ class_written
            (declarations_of self.now) class }
    {
        self.node(class)
    }

    /// The members of a user class, in the order of the source.
    #[tactic(auto, unfolding(crate::specs::Members::members_in))]
    pub fn members(&self, class: ClassId) -> &'a [NodeId]
        ensures { result.now ≡ members_in (declarations_of self.now) class }
    {
        match self.class_node(class) {
            Some(node) => class_members(self.program, node),
            None => &[],
        }
    }

    /// The first constructor of a class.
    #[tactic(auto, using(crate::proofs::TableLemmas::constructor_is))]
    pub fn constructor(&self, class: ClassId) -> Option<NodeId>
        ensures { result ≡ option_map (λ (c : DeclaredConstructor). c.node)
            (constructor_in (declarations_of self.now).written class) }
    {
        let header = self.header(class)?;
        header.constructor
    }

    /// Whether the superclasses come back to the class.
    pub fn is_cyclic(&self, class: ClassId) -> bool
        ensures { result ≡ is_cyclic (declarations_of self.now).written class }
    {
        is_marked(&self.cyclic, class)
    }

    /// Whether a class is the kind or stands under it by superclasses.
    pub fn is_under(&self, class: ClassId, kind: ClassId) -> bool
        requires { kind < kind_count }
        ensures { result ≡ is_among kind (superclasses (declarations_of self.now).written class) }
    {
        has_bit(way_at(&self.ways, class).above, kind)
    }

    /// Whether a class of the chain implements the kind.
    pub fn implements(&self, class: ClassId, kind: ClassId) -> bool
        requires { kind < kind_count }
        ensures { result ≡ is_among kind (all_interfaces (declarations_of self.now).written class) }
    {
        has_bit(way_at(&self.ways, class).implemented, kind)
    }

    /// The bits of the classes of a chain and of their interfaces.
    #[tactic(auto, using(crate::proofs::TableLemmas::bits_are))]
    pub(crate) fn bits(&self, class: ClassId) -> u8
        ensures { (kind : ℕ) → kind < kind_count → has_bit result kind ≡ is_among kind
            (superclasses (declarations_of self.now).written class
            ++ all_interfaces (declarations_of self.now).written class) }
    {
        let way = way_at(&self.ways, class);
        way.above | way.implemented
    }
}
