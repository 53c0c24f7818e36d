//! A shelf in memory.

ghost use Rattle.std.specs.Prelude.{◌≡◌, ◌≢◌, ◌↔◌, ◌≤◌, ℕ, List, [], ◌∷◌, ◌++◌, max, length, OnOk, OnErr, IfOk, IfErr, IsErrOf};
ghost use Rattle.scj_io.specs.Counters.{one_more};
ghost use Rattle.scj_io.specs.Loads.{ShelfGoes, shelf_run, LoadHolds, LoadRefuses};
ghost use Rattle.scj_io.specs.Loads.Held.{Reported, Absent};
ghost use Rattle.scj_io.specs.MemShelves.{held_of, faults_of, most_of, loads_of, failing_loads, RefusesLoad, ShareCounter, counter_of, faulted, reported_by, TakesWhole};
ghost use Rattle.std.specs.BTreeMap.{get_by_text};
ghost use Rattle.std.specs.Option.{option_map};

use crate::counters::raised;
use crate::shelves::{LoadError, Shelf};
use scj_base::Memory;
use std::alloc::Global;
use std::collections::BTreeMap;

/// Files in memory, by name.
///
/// A load of a name that isn't held fails. Each held name has a counter of faults, and all other names
/// have one together, with which the counter of a name begins when the name comes to be held.
#[derive(Drop)]
pub struct MemShelf {
    stored: BTreeMap<String, Stored>,
    absent_faults: u64,
    most: u64,
    failing: Vec<u64>,
    calls: u64,
    alloc: Global,
}

// A file with the faults of its name.
#[derive(Drop)]
struct Stored {
    bytes: Vec<u8>,
    faults: u64,
}

impl MemShelf {
    /// A shelf that holds nothing.
    pub fn new(alloc: Global) -> MemShelf
        ensures held { (name : List ℕ) → held_of result name ≡ Absent }
        ensures faults { (name : List ℕ) → faults_of result name ≡ 0 }
        ensures counts { (most_of result ≡ 0) × (loads_of result ≡ 0) }
        ensures failing { failing_loads result ≡ [] }
    {
        MemShelf {
            stored: BTreeMap::new(alloc),
            absent_faults: 0,
            most: 0,
            failing: Vec::new(alloc),
            calls: 0,
            alloc,
        }
    }

    /// Puts a file on the shelf, in the place of an earlier one of its name.
    pub fn add(&mut self, name: &str, bytes: &[u8]) -> Result<(), Memory>
        ensures ok { OnOk result (held_of self.new name.now ≡ Reported bytes.now) }
        ensures memory { OnErr result (held_of self.new name.now ≡ held_of self.old name.now) }
        ensures others { (other : List ℕ) → other ≢ name.now → held_of self.new other ≡ held_of self.old other }
        ensures faults { (other : List ℕ) → faults_of self.new other ≡ faults_of self.old other }
        ensures counts { (most_of self.new ≡ most_of self.old) × (loads_of self.new ≡ loads_of self.old) }
        ensures failing { failing_loads self.new ≡ failing_loads self.old }
    {
        let faults = self.faults_of(name);
        let bytes = Vec::from_slice(self.alloc, bytes)?;
        let name = String::from_str(self.alloc, name)?;
        self.stored.insert(name, Stored { bytes, faults })?;
        Ok(())
    }

    fn faults_of(&self, name: &str) -> u64
        ensures { result ≡ faults_of self.now name.now }
    {
        match self.stored.get(name) {
            Some(stored) => stored.faults,
            None => self.absent_faults,
        }
    }

    /// Makes the load of this number fail, counted from 1 since the shelf was made.
    pub fn fail_at(&mut self, call: u64) -> Result<(), Memory>
        ensures ok { OnOk result (failing_loads self.new ≡ failing_loads self.old ++ call ∷ []) }
        ensures memory { OnErr result (failing_loads self.new ≡ failing_loads self.old) }
        ensures held { (name : List ℕ) → held_of self.new name ≡ held_of self.old name }
        ensures faults { (name : List ℕ) → faults_of self.new name ≡ faults_of self.old name }
        ensures counts { (most_of self.new ≡ most_of self.old) × (loads_of self.new ≡ loads_of self.old) }
    {
        self.failing.push(call)?;
        Ok(())
    }
}

impl Shelf for MemShelf {
    ghost held = { held_of };

    ghost faults = { faults_of };

    ghost most = { λ shelf _. most_of shelf };

    fn load(&mut self, alloc: Global, name: &str, limit: usize) -> Result<Vec<u8>, LoadError>
        ensures goes { ShelfGoes (held_of self.old) (held_of self.new) (faults_of self.old) (faults_of self.new)
            (λ _. most_of self.old) (λ _. most_of self.new) }
        ensures ok { IfOk result (λ bytes. LoadHolds
            (shelf_run (held_of self.old) (faults_of self.old) (faults_of self.new) (λ _. most_of self.new))
            name.now limit bytes.items) }
        ensures refusal { IfErr result (λ answer. LoadRefuses
            (shelf_run (held_of self.old) (faults_of self.old) (faults_of self.new) (λ _. most_of self.new))
            name.now limit answer) }
        ensures exact { IsErrOf result LoadError.Failed ↔ RefusesLoad self.old name.now }
        ensures counted { (other : List ℕ) → IsErrOf result LoadError.Failed → ShareCounter self.old name.now other →
            faults_of self.new other ≡ one_more (faults_of self.old other) }
        ensures spared { (other : List ℕ) → ¬ ShareCounter self.old name.now other →
            faults_of self.new other ≡ faults_of self.old other }
        ensures calm { (other : List ℕ) → ¬ IsErrOf result LoadError.Failed →
            faults_of self.new other ≡ faults_of self.old other }
        ensures reported { (bytes : List ℕ) → held_of self.old name.now ≡ Reported bytes →
            IfErr result (λ answer. TakesWhole bytes answer) }
        ensures most { (bytes : List ℕ) → held_of self.old name.now ≡ Reported bytes → ¬ IsErrOf result LoadError.Failed →
            most_of self.new ≡ max (most_of self.old) (length bytes) }
        ensures unmeasured { IsErrOf result LoadError.Failed → most_of self.new ≡ most_of self.old }
        ensures loads { loads_of self.new ≡ one_more (loads_of self.old) }
        ensures failing { failing_loads self.new ≡ failing_loads self.old }
    {
        self.calls = raised(self.calls);
        let listed = self.failing.contains(&self.calls);
        match self.stored.get(name) {
            None => {
                self.absent_faults = raised(self.absent_faults);
                Err(LoadError::Failed)
            }
            Some(_) if listed => {
                count_fault(&mut self.stored, name);
                Err(LoadError::Failed)
            }
            Some(stored) => {
                let taken = stored.bytes.len() as u64;
                self.most = self.most.max(taken);
                if stored.bytes.len() > limit {
                    return Err(LoadError::TooLong { taken });
                }
                Ok(Vec::from_slice(alloc, &stored.bytes)?)
            }
        }
    }
}

// Raises the counter of a held name.
fn count_fault(stored: &mut BTreeMap<String, Stored>, name: &str)
    ensures held { (other : List ℕ) → reported_by (get_by_text stored.new other) ≡ reported_by (get_by_text stored.old other) }
    ensures faulted { get_by_text stored.new name.now ≡ option_map faulted (get_by_text stored.old name.now) }
    ensures spared { (other : List ℕ) → other ≢ name.now → get_by_text stored.new other ≡ get_by_text stored.old other }
    ensures rises { (other : List ℕ) (others : ℕ) → counter_of (get_by_text stored.old other) others ≤ counter_of
        (get_by_text stored.new other) others }
{
    if let Some(file) = stored.get_mut(name) {
        file.faults = raised(file.faults);
    }
}
