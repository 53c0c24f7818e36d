//! The table of the classes of a program.

ghost use Rattle.std.specs.Prelude.{◌≡◌, [], IfOk};
ghost use Rattle.scj_rules.specs.Contexts.{declarations_of};
ghost use Rattle.class_rows.specs.declared.members.MemberKind.TheVariants.{Field, Method};
ghost use Rattle.class_rows.specs.Inherited.{AreInheritedMethods};
ghost use Rattle.class_rows.specs.Members.{AreNearest};

use crate::ancestries::Ancestry;
use crate::counted::{count_of, marks_under_object, ways_of};
use crate::inherited::InheritedMethods;
use crate::members::{MemberKind, Members, members_of};
use crate::nearest::NearestMembers;
use class_headers::ways::{Way, far_ways};
use class_headers::{Headers, headers_in};
use scj_base::Memory;
use scj_tree::Program;
use std::alloc::Global;
use std::marker::Model;

/// The classes of a program as they are written and as they count, with look-ups of classes and members by name. A
/// contract sees the program.
#[derive(Drop)]
pub struct ClassTable<'a> {
    /// The classes as they are written.
    pub(crate) headers: Headers<'a>,
    /// How many classes there are, the framework's among them.
    pub(crate) count: u32,
    /// Which classes count as classes under `Object`, since something in their headers is forbidden.
    pub(crate) under_object: Vec<bool>,
    /// A way from each class, as it counts, that meets all that is on its chain.
    pub(crate) ways: Vec<Way>,
    /// What is told of the classes above each.
    pub(crate) ancestries: Vec<Option<Ancestry>>,
    /// The fields.
    pub(crate) fields: Members,
    /// The methods and constructors.
    pub(crate) methods: Members,
    /// The nearest fields and methods above each class, once a tour has told them.
    pub(crate) fields_above: NearestMembers,
    pub(crate) methods_above: NearestMembers,
    /// Which methods the classes inherit as those of `Safelet` and `Runnable`, once a tour has told it.
    pub(crate) inherited: Option<InheritedMethods>,
}

impl<'a> Model for ClassTable<'a> {
    ghost use Rattle.scj_tree.specs.Forest.{Forest};

    ghost Value = { Forest };

    ghost use Rattle.class_rows.specs.Tables.{IsTableOf};

    ghost view = { λ a. a.headers };

    ghost invariant = { λ a. IsTableOf a.headers a };
}

impl<'a> ClassTable<'a> {
    /// The table of the classes of a program, before a tour of them.
    pub fn of(alloc: Global, program: &'a Program) -> Result<ClassTable<'a>, Memory>
        ensures { IfOk result (λ table. table ≡ program.now) }
    {
        let headers = headers_in(alloc, program)?;
        let count = count_of(&headers)?;
        let marks = marks_under_object(alloc, &headers)?;
        let first = ways_of(alloc, &headers, &marks)?;
        let ways = far_ways(alloc, first)?;
        let fields = members_of(alloc, &headers, MemberKind::Field)?;
        let methods = members_of(alloc, &headers, MemberKind::Method)?;
        Ok(ClassTable {
            headers,
            count,
            under_object: marks,
            ways,
            ancestries: Vec::new(alloc),
            fields,
            methods,
            fields_above: NearestMembers::new(alloc),
            methods_above: NearestMembers::new(alloc),
            inherited: None,
        })
    }

    /// Keeps what a tour tells: which methods the classes inherit, and the nearest fields and methods above them.
    pub fn keep(
        &mut self,
        reported: InheritedMethods,
        fields: NearestMembers,
        methods: NearestMembers,
    )
        requires reported { AreInheritedMethods (declarations_of self.old) [] reported }
        requires fields { AreNearest Field self.old fields }
        requires methods { AreNearest Method self.old methods }
        ensures { self.new ≡ self.old }
    {
        self.inherited = Some(reported);
        self.fields_above = fields;
        self.methods_above = methods;
    }
}
