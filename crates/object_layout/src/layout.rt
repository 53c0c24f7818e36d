//! The layout of a program.

ghost use Rattle.std.specs.Prelude.{◌≡◌, map, slice_get, IfOk};
ghost use Rattle.scj_rules.specs.Classes.{field_nodes, hidden_fields, instance_fields, is_sub};
ghost use Rattle.scj_rules.specs.Contexts.{declarations_of};
ghost use Rattle.scj_rules.specs.Bodies.{class_node, class_position, constructor_body, body_named, body_of, class_of_body, is_synchronized_body, locals, safelet_class, size_of};
ghost use Rattle.scj_rules.specs.ScopeRules.{defined_by_chain};
ghost use Rattle.scj_rules.specs.Definitions.{read};
ghost use Rattle.scj_rules.specs.Layout.{element_kind, fields_with_literal, literal_written, slot_of, slots, static_fields, static_index};
ghost use Rattle.class_rows.specs.Tables.{AreChainedScopes};
ghost use Rattle.object_layout.specs.Fields.{kind_of_field, static_row};
ghost use Rattle.object_layout.specs.FieldTables.{IsFieldTableOf};
ghost use Rattle.object_layout.specs.ObjectTables.{nodes_of_fields, slot_of_node};
ghost use Rattle.object_layout.specs.Objects.{IsObjectTableOf};

use crate::field_tables::{FieldTable, index_numbered};
use crate::fields::StaticField;
use crate::object_tables::ObjectTable;
use crate::slots::{index_of, slot_at};
use crate::tables::{Tables, scope_numbered, tables_of};
use crate::{arrays, bodies, classes, parts, sizes};
use class_rows::ClassTable;
use scj_base::{ClassId, FieldId, Memory, MethodId, Name, NodeId, Position, ScopeId};
use scj_rules::{Body, SlotKind};
use scj_tree::{Program, row_or};
use std::alloc::Global;
use std::marker::Model;

/// What a machine asks of a program while it runs. A contract sees the program.
#[derive(Drop)]
pub struct Layout<'a> {
    classes: &'a ClassTable<'a>,
    tables: Tables,
}

impl<'a> Model for Layout<'a> {
    ghost use Rattle.scj_tree.specs.Forest.{Forest};

    ghost Value = { Forest };

    ghost use Rattle.object_layout.specs.Layouts.{AreTablesOf};

    ghost view = { λ a. a.classes.now };

    ghost invariant = { λ a. AreTablesOf a.classes.now a.tables };
}

impl<'a> Layout<'a> {
    /// The layout of a program, from the table of its classes and the scope that the chain of each class defines. No
    /// other call takes memory.
    pub fn of(
        alloc: Global,
        classes: &'a ClassTable<'a>,
        scopes: Vec<Option<ScopeId>>,
    ) -> Result<Layout<'a>, Memory>
        requires { AreChainedScopes classes.now scopes.items }
        ensures { IfOk result (λ layout. layout ≡ classes.now) }
    {
        let tables = tables_of(alloc, classes, scopes)?;
        Ok(Layout { classes, tables })
    }

    /// The program.
    pub fn program(&self) -> &'a Program
        ensures { result.now ≡ self.now }
    {
        self.classes.program()
    }

    /// The node of a user class.
    pub fn class_node(&self, class: ClassId) -> Option<NodeId>
        ensures { result ≡ class_node (declarations_of self.now) class }
    {
        classes::class_node(self.classes, class)
    }

    /// Where a user class is named. A fault that no node has is told there.
    pub fn class_position(&self, class: ClassId) -> Position
        ensures { result ≡ class_position (declarations_of self.now) class }
    {
        classes::class_position(self.classes, class)
    }

    /// The name of a class.
    #[tactic(auto, using(class_rows::proofs::NameLemmas::name_listed))]
    pub fn class_name(&self, class: ClassId) -> Option<Name>
        ensures { result ≡ slice_get (declarations_of self.now).names class }
    {
        self.classes.name(class)
    }

    /// The concrete class that implements `Safelet` (JSR 302: Safelet).
    pub fn safelet(&self) -> Option<ClassId>
        ensures { result ≡ safelet_class (declarations_of self.now) }
    {
        self.tables.safelet
    }

    /// Whether a class is the other one or a subtype of it (JLS 4.10.2).
    pub fn is_sub(&self, class: ClassId, above: ClassId) -> bool
        ensures { result ≡ is_sub (declarations_of self.now).classes class above }
    {
        self.classes.is_sub(class, above)
    }

    /// What `new` runs for a class (JLS 8.8.9).
    pub fn constructor(&self, class: ClassId) -> Option<Body>
        ensures { result ≡ constructor_body (declarations_of self.now) class }
    {
        classes::constructor_body(self.classes, class)
    }

    /// The body that a call of a method runs on an object of a class (JLS 15.12.4.4).
    pub fn body_of(&self, class: ClassId, method: MethodId) -> Option<Body>
        ensures { result ≡ body_of (declarations_of self.now) class method }
    {
        bodies::body_of(self.classes, class, method)
    }

    /// The body that a call of this name runs on an object of a class.
    pub fn body_named(&self, class: ClassId, name: &Name) -> Option<Body>
        ensures { result ≡ body_named (declarations_of self.now) class name.now }
    {
        bodies::body_named(self.classes, class, name)
    }

    /// How many parameters and locals a body has.
    pub fn locals(&self, body: NodeId) -> u32
        ensures { result ≡ locals (declarations_of self.now) body }
    {
        row_or(self.tables.bodies.locals.as_slice(), 0, body)
    }

    /// The class in which a body stands.
    pub fn class_of_body(&self, body: NodeId) -> Option<ClassId>
        ensures { result ≡ class_of_body (declarations_of self.now) body }
    {
        row_or(self.tables.bodies.classes.as_slice(), None, body)
    }

    /// Whether a body is a synchronized method's (JLS 8.4.3.6).
    pub fn is_synchronized(&self, body: NodeId) -> bool
        ensures { result ≡ is_synchronized_body (declarations_of self.now) body }
    {
        parts::is_synchronized(self.program(), body)
    }

    /// The scope that the chain of a class defines (JSR 302: DefineScope).
    #[tactic(auto, using(crate::proofs::ObjectLemmas::scope_reported))]
    pub fn private_scope(&self, class: ClassId) -> Option<ScopeId>
        ensures { result ≡ defined_by_chain (declarations_of self.now) class }
    {
        scope_numbered(self.tables.scopes.as_slice(), class)
    }

    /// The bytes of the memory that a mission's or the safelet's class declares (JSR 302: Mission, Safelet).
    pub fn size_of(&self, class: ClassId) -> Option<u32>
        ensures { result ≡ size_of (declarations_of self.now) class }
    {
        sizes::size_of(self.classes, class)
    }

    /// The node of the literal with which the field at a node is declared (JLS 8.3.2).
    #[tactic(auto, using(crate::proofs::BodyLemmas::nodes_are))]
    pub fn literal_of(&self, field: NodeId) -> Option<NodeId>
        ensures { result ≡ read (declarations_of self.now).nodes literal_written field }
    {
        parts::literal_written(self.program(), field)
    }

    /// The table of the objects.
    fn objects(&self) -> &ObjectTable
        ensures { IsObjectTableOf self.now result.now }
    {
        &self.tables.objects
    }

    /// The table of the fields.
    fn fields(&self) -> &FieldTable
        ensures { IsFieldTableOf self.now result.now }
    {
        &self.tables.fields
    }

    /// How many fields that nothing declares the objects of a class have: a handler's priority and storage, and a
    /// periodic handler's start and period (JSR 302: PriorityParameters, StorageParameters, PeriodicParameters).
    #[tactic(auto, using(crate::proofs::TableLemmas::hidden_there, crate::proofs::TableLemmas::hidden_missing))]
    pub fn hidden(&self, class: ClassId) -> u32
        ensures { result ≡ hidden_fields (declarations_of self.now).classes class }
    {
        match self.objects().row(class) {
            Some(row) => row.hidden,
            None => 0,
        }
    }

    /// How many slots the objects of a class have: the hidden fields and the instance fields (JLS 8.3.1.1).
    #[tactic(auto, using(crate::proofs::TableLemmas::slots_there, crate::proofs::TableLemmas::slots_missing))]
    pub fn slots(&self, class: ClassId) -> u32
        ensures { result ≡ slots (declarations_of self.now) class }
    {
        match self.objects().row(class) {
            Some(row) => row.slots,
            None => 0,
        }
    }

    /// What the instance fields of the objects of a class hold, in the order of their slots (JLS 4.12.5).
    #[tactic(auto, using(crate::proofs::TableLemmas::kinds_there, crate::proofs::TableLemmas::kinds_missing), unfolding(crate::specs::ObjectTables::instance_kinds))]
    pub fn kinds(&self, class: ClassId) -> &[SlotKind]
        ensures { result.now ≡ map kind_of_field (instance_fields (declarations_of self.now).classes class) }
    {
        match self.objects().row(class) {
            Some(row) => row.kinds.as_slice(),
            None => &[],
        }
    }

    /// The nodes of the instance fields that a class itself declares with a literal (JLS 8.3.2).
    #[tactic(auto, using(crate::proofs::TableLemmas::literals_there, crate::proofs::TableLemmas::literals_missing), unfolding(crate::specs::ObjectTables::literal_nodes))]
    pub fn literals(&self, class: ClassId) -> &[NodeId]
        ensures { result.now ≡ nodes_of_fields (fields_with_literal (declarations_of self.now) class) }
    {
        match self.objects().row(class) {
            Some(row) => row.literals.as_slice(),
            None => &[],
        }
    }

    /// The node of a field.
    fn field_node(&self, field: FieldId) -> Option<NodeId>
        ensures { result ≡ slice_get (field_nodes (declarations_of self.now).classes) field }
    {
        let nodes = self.classes.field_nodes();
        nodes.get(field.number() as usize).copied()
    }

    /// The slot of the field at a node in the objects of a class.
    #[tactic(auto, using(crate::proofs::TableLemmas::slot_missing, crate::proofs::SlotLemmas::row_fits))]
    fn slot_of_node(&self, class: ClassId, node: NodeId) -> Option<u32>
        ensures { result ≡ slot_of_node (declarations_of self.now) class node }
    {
        let table = self.objects();
        match table.row(class) {
            Some(row) => slot_at(
                row,
                index_of(&row.fields, &table.indices, table.is_regular, node),
            ),
            None => None,
        }
    }

    /// The slot of a field in the objects of a class.
    pub fn slot_of(&self, class: ClassId, field: FieldId) -> Option<u32>
        ensures { result ≡ slot_of (declarations_of self.now) class field }
    {
        match self.field_node(field) {
            Some(node) => self.slot_of_node(class, node),
            None => None,
        }
    }

    /// The place of a static field among all statics.
    #[tactic(auto, using(crate::proofs::FieldTableLemmas::static_place_by_table))]
    pub fn static_index(&self, field: FieldId) -> Option<u32>
        ensures { result ≡ static_index (declarations_of self.now) field }
    {
        index_numbered(&self.fields().static_indices, field)
    }

    /// The static fields in the order of the sources (JLS 8.3.1.1).
    #[tactic(auto, using(crate::proofs::BodyLemmas::nodes_are))]
    pub fn statics(&self) -> &[StaticField]
        ensures { result.now ≡ map (static_row (declarations_of self.now).nodes)
            (static_fields (declarations_of self.now)) }
    {
        self.tables.fields.statics.as_slice()
    }

    /// What the elements of the arrays of a class hold, if it is an array's (JLS 10.1).
    pub fn element_kind(&self, class: ClassId) -> Option<SlotKind>
        ensures { result ≡ element_kind (declarations_of self.now) class }
    {
        arrays::element_kind(self.classes, class)
    }
}
