//! The handlers and releases of a mission, kept so that Pick and a release of a name are found quickly.

ghost use Rattle.std.specs.Prelude.{◌≡◌, OnOk, is_none, length, true};
ghost use Rattle.scj_rules.specs.Words.{holds};
ghost use Rattle.trace_audit.specs.Index.{IsKept, is_next as next, seen};
ghost use Rattle.trace_audit.specs.Replay.{arrived, gone, is_waiting as waiting, no_releases, picked, picked_index, raised, registered, release_named, started};

use crate::choices::Choice;
use crate::handlers::{Handler, add_index};
use crate::keys::{pick, priority_of};
use crate::lookups::{choice_of, is_next, standing_of};
use crate::releases::{Release, Standing};
use crate::restanding::{add_key, raise_to, restand, start_with};
use std::alloc::{AllocError, Global};
use std::collections::BinaryHeap;

/// One more than the greatest place of a release, and than the greatest number of one.
const PLACES_END: usize = 4_294_967_296;

/// The registered handlers of a mission, its releases in the order in which they arrived, and the keys of those that
/// wait or are started.
#[derive(Drop)]
pub struct ReleaseTable {
    alloc: Global,
    handlers: Vec<Handler>,
    releases: Vec<Release>,
    keys: BinaryHeap<u64>,
}

impl ReleaseTable {
    /// A table without handlers.
    pub fn new(alloc: Global) -> ReleaseTable
        ensures seen { seen result ≡ no_releases }
        ensures kept { IsKept result }
    {
        ReleaseTable {
            alloc,
            handlers: Vec::new(alloc),
            releases: Vec::new(alloc),
            keys: BinaryHeap::new(alloc),
        }
    }

    /// Forgets all handlers and releases.
    pub fn clear(&mut self)
        ensures seen { seen self.new ≡ no_releases }
        ensures kept { IsKept self.new }
    {
        self.handlers.clear();
        self.releases.clear();
        self.keys.clear();
    }

    /// How many handlers are registered.
    pub fn handler_count(&self) -> usize
        ensures { result ≡ length (seen self.now).handlers }
    {
        self.handlers.len()
    }

    /// Whether the number is that of the handler's next release.
    pub fn is_next(&self, handler: u8, number: u64) -> bool
        ensures { result ≡ next (seen self.now).handlers handler number }
    {
        is_next(self.handlers.as_slice(), handler, number)
    }

    /// Whether a release of this name waits.
    pub fn is_waiting(&self, handler: u8, number: u64) -> bool
        requires kept { IsKept self.now }
        ensures { result ≡ holds (release_named (seen self.now).releases handler number) waiting }
    {
        let standing = standing_of(
            self.handlers.as_slice(),
            self.releases.as_slice(),
            handler,
            number,
        );
        match standing {
            Some(Standing::Waits) => true,
            _ => false,
        }
    }

    /// Whether no release waits or is started.
    pub fn is_done(&mut self) -> bool
        requires kept { IsKept self.old }
        ensures value { result ≡ is_none (picked_index (seen self.old)) }
        ensures seen { seen self.new ≡ seen self.old }
        ensures kept { IsKept self.new }
    {
        pick(
            self.handlers.as_slice(),
            self.releases.as_slice(),
            &mut self.keys,
        )
        .is_none()
    }

    /// Pick: the choice of the most urgent release.
    pub fn picked(&mut self) -> Choice
        requires kept { IsKept self.old }
        ensures value { result ≡ picked (seen self.old) }
        ensures seen { seen self.new ≡ seen self.old }
        ensures kept { IsKept self.new }
    {
        let index = pick(
            self.handlers.as_slice(),
            self.releases.as_slice(),
            &mut self.keys,
        );
        match index {
            None => Choice::Idle,
            Some(index) => choice_of(self.releases.as_slice(), index),
        }
    }

    /// Registers the next handler.
    pub fn register(&mut self, priority: u8) -> Result<(), AllocError>
        requires kept { IsKept self.old }
        ensures seen { OnOk result (seen self.new ≡ registered priority (seen self.old)) }
        ensures kept { OnOk result (IsKept self.new) }
    {
        let indices = Vec::new(self.alloc);
        self.handlers.push(Handler { priority, indices })?;
        Ok(())
    }

    /// Takes in the next release of a handler.
    pub fn arrive(&mut self, handler: u8, number: u64) -> Result<(), AllocError>
        requires kept { IsKept self.old }
        requires next { next (seen self.old).handlers handler number ≡ true }
        ensures seen { OnOk result (seen self.new ≡ arrived handler number (seen self.old)) }
        ensures kept { OnOk result (IsKept self.new) }
    {
        let index = self.releases.len();
        if index >= PLACES_END || number >= PLACES_END as u64 {
            return Err(AllocError);
        }
        let release = Release {
            handler,
            number: number as u32,
            standing: Standing::Waits,
        };
        add_key(self.handlers.as_slice(), release, index, &mut self.keys)?;
        add_index(&mut self.handlers, handler as usize - 1, index as u32)?;
        self.releases.push(release)?;
        Ok(())
    }

    /// Starts a waiting release.
    pub fn start(&mut self, handler: u8, number: u64) -> Result<(), AllocError>
        requires kept { IsKept self.old }
        ensures seen { OnOk result (seen self.new ≡ started handler number (seen self.old)) }
        ensures kept { OnOk result (IsKept self.new) }
    {
        let priority = priority_of(self.handlers.as_slice(), handler);
        let Some(standing) = standing_of(
            self.handlers.as_slice(),
            self.releases.as_slice(),
            handler,
            number,
        ) else {
            return Ok(());
        };
        restand(
            self.handlers.as_slice(),
            &mut self.releases,
            &mut self.keys,
            handler,
            number,
            start_with(priority, standing),
        )?;
        Ok(())
    }

    /// Gives a started release another active priority.
    pub fn raise(&mut self, priority: u8, handler: u8, number: u64) -> Result<(), AllocError>
        requires kept { IsKept self.old }
        ensures seen { OnOk result (seen self.new ≡ raised priority handler number (seen self.old)) }
        ensures kept { OnOk result (IsKept self.new) }
    {
        let Some(standing) = standing_of(
            self.handlers.as_slice(),
            self.releases.as_slice(),
            handler,
            number,
        ) else {
            return Ok(());
        };
        restand(
            self.handlers.as_slice(),
            &mut self.releases,
            &mut self.keys,
            handler,
            number,
            raise_to(priority, standing),
        )?;
        Ok(())
    }

    /// Lets a release go.
    pub fn remove(&mut self, handler: u8, number: u64) -> Result<(), AllocError>
        requires kept { IsKept self.old }
        ensures seen { OnOk result (seen self.new ≡ gone handler number (seen self.old)) }
        ensures kept { OnOk result (IsKept self.new) }
    {
        restand(
            self.handlers.as_slice(),
            &mut self.releases,
            &mut self.keys,
            handler,
            number,
            Standing::Gone,
        )?;
        Ok(())
    }
}
