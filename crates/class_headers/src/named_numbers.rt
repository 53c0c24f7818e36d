//! Numbers by names, as of classes and of nodes.

ghost use Rattle.std.specs.Prelude.{◌≡◌, List, ℕ, cond, Some, None, OnOk};
ghost use Rattle.std.specs.HashMap.{get};
ghost use Rattle.scj_base.specs.Bytes.{is_same};
ghost use Rattle.class_headers.specs.NamedNumbers.{found_under, HasNoFew};

use crate::keys::NameKey;
use scj_base::{ClassId, Memory, Name, NodeId};
use std::alloc::Global;
use std::collections::{BTreeMap, HashMap};

/// Numbers by names: those that come first stand in a hash table, which is quick, and those behind them in a tree, so
/// that names that collide in the table cost no more than others.
#[derive(Drop)]
pub struct NamedNumbers {
    /// Ranks below it stand in the hash table.
    pub(crate) limit: usize,
    pub(crate) few: HashMap<NameKey, u32>,
    pub(crate) many: BTreeMap<Name, u32>,
}

impl NamedNumbers {
    /// No names; those of ranks below the limit will stand in the hash table.
    pub fn new(alloc: Global, limit: usize) -> NamedNumbers
        ensures none { (name : List ℕ) → found_under result name ≡ None }
        ensures few { (name : List ℕ) → get is_same result.few name ≡ None }
        ensures limit { result.limit ≡ limit }
    {
        NamedNumbers {
            limit,
            few: HashMap::new(alloc),
            many: BTreeMap::new(alloc),
        }
    }

    /// The number under a name.
    fn number_of(&self, name: &Name) -> Option<u32>
        ensures { result ≡ found_under self.now name.now }
    {
        let key = NameKey::of(*name);
        match self.few.get(&key) {
            Some(number) => Some(*number),
            None => self.many.get(name).copied(),
        }
    }

    /// The class under a name.
    pub fn class_of(&self, name: &Name) -> Option<ClassId>
        ensures { result ≡ found_under self.now name.now }
    {
        Some(ClassId::at(self.number_of(name)?))
    }

    /// The node under a name.
    pub fn node_of(&self, name: &Name) -> Option<NodeId>
        ensures { result ≡ found_under self.now name.now }
    {
        Some(NodeId::at(self.number_of(name)?))
    }

    /// Enters a number under a name, in place of one behind it: in the hash table, if its rank is below the limit.
    pub fn enter(&mut self, rank: usize, name: Name, number: u32) -> Result<(), Memory>
        requires { HasNoFew self.old rank }
        ensures limit { self.new.limit ≡ self.old.limit }
        ensures few { OnOk result (HasNoFew self.new rank) }
        ensures entered { OnOk result ((other : List ℕ) → found_under self.new other
            ≡ cond (is_same name other) (Some number) (found_under self.old other)) }
    {
        if rank < self.limit {
            self.few.insert(NameKey::of(name), number)?;
            Ok(())
        } else {
            self.many.insert(name, number)?;
            Ok(())
        }
    }
}
