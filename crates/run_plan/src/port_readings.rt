//! What the ports of the device read in a run.

ghost use Rattle.std.specs.Prelude.{◌≡◌, IfOk};
ghost use Rattle.std.specs.List.Sorted.{IsSorted};
ghost use Rattle.scj_model.specs.Reading.{reading, row_at};
ghost use Rattle.run_plan.specs.Index.{AreByPort, by_port, is_up_to};
ghost use Rattle.run_plan.specs.Limits.{AreReadings};

use scj_base::Memory;
use scj_model::ReadingRow;
use std::alloc::Global;
use std::marker::Model;

/// What the ports of the device read. A contract sees the list of the rows, in the order of the plan.
///
/// The rows stand here a second time, sorted by their ports and units, and a reading is found by binary search: in the
/// logarithm of the number of rows. To sort them takes n log n once, when the plan is read.
#[derive(Drop)]
pub struct Readings {
    in_order: Vec<ReadingRow>,
    /// By their ports, those of a port by their units, those of one unit in the order of the plan.
    by_port: Vec<ReadingRow>,
}

impl Model for Readings {
    ghost use Rattle.std.specs.Prelude.{List};
    ghost use Rattle.scj_model.specs.declared.plans.ReadingRow.{ReadingRow as Row};

    ghost Value = { List Row };

    ghost use Rattle.run_plan.specs.Index.{AreByPort};
    ghost use Rattle.run_plan.specs.Limits.{AreReadings};

    ghost view = { λ a. a.in_order.items };

    ghost invariant = { λ a. AreReadings a.in_order.items × AreByPort a.in_order.items a.by_port.items };
}

impl Readings {
    /// These rows.
    pub(crate) fn new(alloc: Global, rows: Vec<ReadingRow>) -> Result<Readings, Memory>
        requires { AreReadings rows.items }
        ensures { IfOk result (λ kept. kept ≡ rows.items) }
    {
        let by_port = sorted_by_port(alloc, rows.as_slice())?;
        Ok(Readings {
            in_order: rows,
            by_port,
        })
    }

    /// The rows in the order of the plan.
    pub fn rows(&self) -> &[ReadingRow]
        ensures rows { result.now ≡ self.now }
        ensures limits { AreReadings self.now }
    {
        self.in_order.as_slice()
    }

    /// What a port reads in a unit: the value of its row with the greatest unit up to this one, of equal ones the later
    /// row, and 0 where it has no such row.
    pub fn read(&self, port: u8, unit: u64) -> i32
        ensures { result ≡ reading self.now port unit }
    {
        match row_at(self.by_port.as_slice(), port, unit) {
            Some(row) => row.value,
            None => 0,
        }
    }
}

/// The rows by their ports, those of a port by their units.
fn sorted_by_port(alloc: Global, rows: &[ReadingRow]) -> Result<Vec<ReadingRow>, Memory>
    ensures { IfOk result (λ sorted. AreByPort rows.now sorted.items) }
{
    let mut sorted = Vec::from_slice(alloc, rows)?;
    sorted.sort_by_key(|row| (row.port, row.at))?;
    Ok(sorted)
}

/// Whether the row stands before all that count later than the port in the unit.
fn is_up_to(row: &ReadingRow, port: u8, unit: u64) -> bool
    ensures { result ≡ is_up_to port unit row.now }
{
    row.port < port || (row.port == port && row.at <= unit)
}

/// Of sorted rows the one that counts for the port in the unit.
fn row_at(rows: &[ReadingRow], port: u8, unit: u64) -> Option<ReadingRow>
    requires { IsSorted by_port rows.now }
    ensures { result ≡ row_at rows.now port unit }
{
    let behind = rows.partition_point(|row| is_up_to(row, port, unit));
    if behind == 0 {
        return None;
    }
    let row = rows[behind - 1];
    if row.port == port { Some(row) } else { None }
}
