//! Findings in the order of a report.

ghost use Rattle.std.specs.Prelude.{◌↔◌, ◌≡◌, ◌++◌, OnOk};
ghost use Rattle.std.specs.List.{Contains};
ghost use Rattle.std.specs.List.Sorted.{IsStrictlySortedBy};
ghost use Rattle.scj_base.specs.declared.findings.Found.{Found as Finding};
ghost use Rattle.scj_rules.specs.Report.{report_order};
ghost use Rattle.scj_rules.specs.Words.{broken};

use scj_base::{Found, Memory, Position, Rule};

/// Puts findings in the order of a report, each once.
pub fn put_in_order(found: &mut Vec<Found>)
    ensures in_order { IsStrictlySortedBy report_order found.new.items }
    ensures same { (finding : Finding) → Contains found.new.items finding ↔ Contains found.old.items finding }
{
    found.sort_unstable();
    found.dedup();
}

/// Reports that a rule is broken at a place, where the test holds.
pub fn report_if(
    found: &mut Vec<Found>,
    test: bool,
    rule: Rule,
    pos: Position,
) -> Result<(), Memory>
    ensures { OnOk result (found.new.items ≡ found.old.items ++ broken test rule pos) }
{
    if test {
        found.push(Found { pos, rule })?;
    }
    Ok(())
}
