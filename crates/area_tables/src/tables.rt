//! The table.

ghost use Rattle.std.specs.Prelude.{◌≡◌, ℕ, [], max, length, replicate, IfOk, OnOk};
ghost use Rattle.scj_model.specs.Memory.{reserved};
ghost use Rattle.scj_model.specs.State.{State};
ghost use Rattle.region_heap.specs.OpenAreas.{open_areas};
ghost use Rattle.area_needs.specs.Needs.{Needs, no_needs, with_refusal};
ghost use Rattle.area_growth.specs.Growth.{GoesOn};
ghost use Rattle.area_tables.specs.Rows.{newest_noted};
ghost use Rattle.area_tables.specs.Standing.{Reports};

use crate::looks::{note_all_used, reserved_in};
use crate::rows::{NeedRow, note_opened, note_refused};
use area_needs::Refusal;
use region_heap::RegionHeap;
use scj_base::Memory;
use std::alloc::Global;

/// A row for each scope, how many areas are open, and the greatest number of bytes that were reserved at once.
#[derive(Drop)]
pub struct AreaTable {
    pub(crate) rows: Vec<NeedRow>,
    pub(crate) open_count: usize,
    pub(crate) reserved: u64,
}

/// The rows of so many scopes of which no area was opened.
fn empty_rows(alloc: Global, count: usize) -> Result<Vec<NeedRow>, Memory>
    ensures { IfOk result (λ rows. rows.items
        ≡ replicate count (record { opened = 0; declared = 0; used = 0; refused = 0 })) }
{
    let rows = vec![in alloc; NeedRow {
        opened: 0,
        declared: 0,
        used: 0,
        refused: 0
    }; count]?;
    Ok(rows)
}

impl AreaTable {
    /// The table before a run, of a program with so many classes.
    pub fn make(alloc: Global, count: usize) -> Result<AreaTable, Memory>
        ensures { (s : State) → s.areas ≡ [] → IfOk result (λ table. Reports count s no_needs table) }
    {
        let rows = empty_rows(alloc, count)?;
        Ok(AreaTable {
            rows,
            open_count: 0,
            reserved: 0,
        })
    }

    /// The rows, by the numbers of the scopes.
    pub fn rows(&self) -> &[NeedRow]
        ensures { result.now ≡ self.now.rows.items }
    {
        &self.rows
    }

    /// The greatest number of bytes that were reserved at once.
    pub fn reserved(&self) -> u64
        ensures { result ≡ self.now.reserved }
    {
        self.reserved
    }

    /// Notes what the area that was opened last has room for, if one more is open than before.
    fn note_newest(&mut self, memory: &RegionHeap, count: usize) -> Result<(), Memory>
        requires { count ≡ length (open_areas memory.now.objects 0 memory.now.areas) }
        ensures rows { OnOk result (self.new.rows.items
            ≡ newest_noted (open_areas memory.now.objects 0 memory.now.areas) self.old.open_count self.old.rows.items) }
        ensures count { self.new.open_count ≡ self.old.open_count }
        ensures reserved { self.new.reserved ≡ self.old.reserved }
    {
        if count <= self.open_count {
            return Ok(());
        }
        match memory.area(count - 1) {
            Some(area) => note_opened(&mut self.rows, area.name, area.bytes),
            None => Ok(()),
        }
    }

    /// Looks at a memory to which the one that was looked at last has gone on.
    pub fn look(&mut self, memory: &RegionHeap) -> Result<(), Memory>
        ensures { (count : ℕ) (s t : State) (needs : Needs) → Reports count s needs self.old → GoesOn s t →
            memory.now.areas ≡ t.areas → memory.now.objects ≡ t.objects →
            OnOk result (Reports count t (record needs { reserved = max needs.reserved (reserved t) }) self.new) }
    {
        let count = note_all_used(&mut self.rows, memory)?;
        self.note_newest(memory, count)?;
        let reserved = reserved_in(memory)?;
        self.open_count = count;
        self.reserved = self.reserved.max(reserved);
        Ok(())
    }

    /// Notes what an operation was refused.
    pub fn note(&mut self, refusal: Option<Refusal>)
        ensures { (count : ℕ) (s : State) (needs : Needs) → Reports count s needs self.old →
            Reports count s (with_refusal refusal needs) self.new }
    {
        match refusal {
            Some(refusal) => note_refused(&mut self.rows, refusal.scope, refusal.bytes),
            None => {}
        }
    }
}
