//! A replay: what the lines of a trace tell so far, and which line passes next.

ghost use Rattle.std.specs.Prelude.{◌≡◌, ◌≤◌, OnOk, true};
ghost use Rattle.std.specs.Bool.{OnTrue};
ghost use Rattle.run_plan.specs.Limits.{most_units};
ghost use Rattle.scj_rules.specs.Words.{holds};
ghost use Rattle.trace_audit.specs.Index.{IsKept};
ghost use Rattle.trace_audit.specs.Passing.{begun, entry_done, entry_passes, fits_entry, is_first, is_in_order, is_of, is_right_choice, last_number, misses_no_choice, passes, rest_done, table_done};
ghost use Rattle.trace_audit.specs.Replay.{differs, is_executing, is_same_choice, nothing_reported};
ghost use Rattle.trace_audit.specs.Seen.{replay_seen};

use crate::choices::{Choice, is_same_choice, number_in};
use crate::lines::{Entry, Line};
use crate::planned::AuditPlan;
use crate::tables::ReleaseTable;
use std::alloc::{AllocError, Global};

/// What the lines of a trace tell so far.
#[derive(Drop)]
pub struct Replay {
    table: ReleaseTable,
    last_choice: Option<Choice>,
    /// The origin, where Exec runs: the unit behind that of `exec`.
    executes_since: Option<u64>,
    /// The unit of the line before.
    unit: Option<u64>,
    /// Whether Exec ran when that unit began, and Pick differed then from the last choice.
    owes_choice: bool,
    /// Whether that unit has a choice so far.
    has_choice: bool,
    /// Whether a line ended the trace.
    is_over: bool,
}

impl Replay {
    /// Before the first line.
    pub fn new(alloc: Global) -> Replay
        ensures seen { replay_seen result ≡ nothing_reported }
        ensures kept { IsKept result.table }
    {
        Replay {
            table: ReleaseTable::new(alloc),
            last_choice: None,
            executes_since: None,
            unit: None,
            owes_choice: false,
            has_choice: false,
            is_over: false,
        }
    }

    /// Whether a line ended the trace.
    pub fn is_over(&self) -> bool
        ensures { result ≡ (replay_seen self.now).is_over }
    {
        self.is_over
    }

    /// Whether Exec runs.
    fn is_executing(&self) -> bool
        ensures { result ≡ is_executing (replay_seen self.now) }
    {
        self.executes_since.is_some()
    }

    /// Whether the choice is the last one.
    fn is_last(&self, choice: Choice) -> bool
        ensures { result ≡ holds (replay_seen self.now).last_choice (is_same_choice choice) }
    {
        match self.last_choice {
            Some(last) => is_same_choice(choice, last),
            None => false,
        }
    }

    /// Whether Pick isn't the last choice.
    fn differs(&mut self) -> bool
        requires kept { IsKept self.old.table }
        ensures value { result ≡ differs (replay_seen self.old) }
        ensures seen { replay_seen self.new ≡ replay_seen self.old }
        ensures kept { IsKept self.new.table }
    {
        let picked = self.table.picked();
        !self.is_last(picked)
    }

    /// Whether the choice is Pick, and not the last one.
    fn is_right_choice(&mut self, choice: Choice) -> bool
        requires kept { IsKept self.old.table }
        ensures value { result ≡ is_right_choice (replay_seen self.old) choice }
        ensures seen { replay_seen self.new ≡ replay_seen self.old }
        ensures kept { IsKept self.new.table }
    {
        let picked = self.table.picked();
        is_same_choice(choice, picked) && !self.is_last(picked)
    }

    /// Whether the unit isn't below that of the line before.
    fn is_in_order(&self, unit: u64) -> bool
        ensures { result ≡ is_in_order (replay_seen self.now) unit }
    {
        match self.unit {
            None => true,
            Some(before) => before <= unit,
        }
    }

    /// Whether no choice was missed before the first line of a unit.
    fn misses_no_choice(&mut self, unit: u64) -> bool
        requires kept { IsKept self.old.table }
        ensures value { result ≡ misses_no_choice (replay_seen self.old) unit }
        ensures seen { replay_seen self.new ≡ replay_seen self.old }
        ensures kept { IsKept self.new.table }
    {
        let Some(before) = self.unit else {
            return true;
        };
        if !(self.is_executing() && before < unit) {
            return true;
        }
        if self.owes_choice && !self.has_choice {
            return false;
        }
        !self.differs() || unit - before == 1
    }

    /// Whether the last choice was a release of the handler.
    fn was_last(&self, handler: u8) -> bool
        ensures { result ≡ holds (replay_seen self.now).last_choice (is_of handler) }
    {
        match self.last_choice {
            Some(Choice::Chosen { handler: last, .. }) => last == handler,
            _ => false,
        }
    }

    /// Whether an entry passes.
    #[tactic(auto, unfolding(crate::specs::Passing::entry_passes))]
    fn entry_passes(&mut self, plan: &AuditPlan, unit: u64, entry: &Entry) -> bool
        requires kept { IsKept self.old.table }
        ensures value { result ≡ entry_passes plan.now (replay_seen self.old) unit entry.now }
        ensures seen { replay_seen self.new ≡ replay_seen self.old }
        ensures kept { IsKept self.new.table }
    {
        match entry {
            Entry::Register { handler, .. } => {
                *handler as usize == self.table.handler_count() + 1
            }
            Entry::Arrive { handler, number } => self.table.is_next(*handler, *number),
            Entry::Miss { name } => plan.is_fired(self.executes_since, unit, name),
            Entry::Run { handler, number } => {
                let choice = Choice::Chosen {
                    handler: *handler,
                    number: *number,
                };
                self.is_right_choice(choice)
            }
            Entry::Idle => self.is_right_choice(Choice::Idle),
            Entry::Prio { handler, .. } => self.was_last(*handler),
            Entry::End { handler, number } => {
                let choice = Choice::Chosen {
                    handler: *handler,
                    number: *number,
                };
                self.is_last(choice)
            }
            Entry::Drop { handler, number } => self.table.is_waiting(*handler, *number),
            Entry::Cleanup => self.table.is_done(),
            _ => true,
        }
    }

    /// Whether a line passes.
    pub fn passes(&mut self, plan: &AuditPlan, line: &Line) -> bool
        requires kept { IsKept self.old.table }
        ensures value { result ≡ passes plan.now (replay_seen self.old) line.now }
        ensures small { OnTrue result (line.now.unit ≤ most_units) }
        ensures seen { replay_seen self.new ≡ replay_seen self.old }
        ensures kept { IsKept self.new.table }
    {
        if self.is_over || !self.is_in_order(line.unit) || !plan.is_within(line) {
            return false;
        }
        self.misses_no_choice(line.unit) && self.entry_passes(plan, line.unit, &line.entry)
    }

    /// Whether a line of the unit is the first one of it.
    fn is_first(&self, unit: u64) -> bool
        ensures { result ≡ is_first (replay_seen self.now) unit }
    {
        match self.unit {
            None => true,
            Some(before) => before < unit,
        }
    }

    /// Lets the unit of a line begin, if the line is the first one of it.
    fn begin(&mut self, unit: u64)
        requires kept { IsKept self.old.table }
        ensures seen { replay_seen self.new ≡ begun (replay_seen self.old) unit }
        ensures kept { IsKept self.new.table }
    {
        if self.is_first(unit) {
            let differs = self.differs();
            self.owes_choice = self.is_executing() && differs;
            self.unit = Some(unit);
            self.has_choice = false;
        }
    }

    /// The number of the last choice, if that was a release.
    fn last_number(&self) -> u64
        ensures { result ≡ last_number (replay_seen self.now) }
    {
        match self.last_choice {
            Some(last) => number_in(last),
            None => 0,
        }
    }

    /// Does what an entry says to the releases.
    #[tactic(auto, unfolding(crate::specs::Passing::table_done))]
    fn table_done(&mut self, entry: &Entry) -> Result<(), AllocError>
        requires kept { IsKept self.old.table }
        requires fits { fits_entry (replay_seen self.old).all entry.now ≡ true }
        ensures seen { OnOk result (replay_seen self.new ≡ record (replay_seen self.old) { all = table_done (replay_seen self.old) entry.now }) }
        ensures kept { OnOk result (IsKept self.new.table) }
    {
        match entry {
            Entry::Mission => {
                self.table.clear();
                Ok(())
            }
            Entry::Register { priority, .. } => self.table.register(*priority),
            Entry::Arrive { handler, number } => self.table.arrive(*handler, *number),
            Entry::Run { handler, number } => self.table.start(*handler, *number),
            Entry::Prio { handler, priority } => {
                let number = self.last_number();
                self.table.raise(*priority, *handler, number)
            }
            Entry::End { handler, number } => self.table.remove(*handler, *number),
            Entry::Drop { handler, number } => self.table.remove(*handler, *number),
            _ => Ok(()),
        }
    }

    /// Does what an entry says to the rest.
    #[tactic(auto, unfolding(crate::specs::Passing::rest_done))]
    fn rest_done(&mut self, unit: u64, entry: &Entry)
        requires kept { IsKept self.old.table }
        requires small { unit ≤ most_units }
        ensures seen { replay_seen self.new ≡ rest_done (replay_seen self.old) unit entry.now }
        ensures kept { IsKept self.new.table }
    {
        match entry {
            Entry::Exec => {
                self.executes_since = Some(unit + 1);
                self.last_choice = None;
            }
            Entry::Run { handler, number } => {
                self.last_choice = Some(Choice::Chosen {
                    handler: *handler,
                    number: *number,
                });
                self.has_choice = true;
            }
            Entry::Idle => {
                self.last_choice = Some(Choice::Idle);
                self.has_choice = true;
            }
            Entry::Cleanup => self.executes_since = None,
            Entry::Done | Entry::Halted | Entry::Stopped => self.is_over = true,
            _ => {}
        }
    }

    /// Takes a line that passes.
    pub fn take(&mut self, line: &Line) -> Result<(), AllocError>
        requires kept { IsKept self.old.table }
        requires fits { fits_entry (replay_seen self.old).all line.now.entry ≡ true }
        requires small { line.now.unit ≤ most_units }
        ensures seen { OnOk result (replay_seen self.new ≡ entry_done (begun (replay_seen self.old) line.now.unit) line.now.unit line.now.entry) }
        ensures kept { OnOk result (IsKept self.new.table) }
    {
        self.begin(line.unit);
        self.table_done(&line.entry)?;
        self.rest_done(line.unit, &line.entry);
        Ok(())
    }
}
