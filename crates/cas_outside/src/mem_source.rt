// A source in memory, some calls of which fail.
ghost use Rattle.std.specs.Prelude.{◌≡◌, ◌≤◌, ◌+◌, length, drop, Some, List, ℕ};

use crate::plan::{copy_front, is_planned};
use crate::{Failed, Source};

/// A source over bytes in memory.
#[derive(Drop)]
pub struct MemSource {
    bytes: Vec<u8>,
    fail: Vec<u64>,
    at: usize,
    calls: u64,
    faults: u64,
    ghost within: { at ≤ length bytes.items },
}

impl MemSource {
    ghost use Rattle.cas_outside.specs.MemSource.{IsFreshSource};

    /// A source of these bytes, of whose calls those in the list fail.
    pub fn new(bytes: Vec<u8>, fail: Vec<u64>) -> MemSource
        ensures { IsFreshSource bytes.items fail.items result }
    {
        MemSource {
            bytes,
            fail,
            at: 0,
            calls: 0,
            faults: 0,
        }
    }
}

impl Source for MemSource {
    ghost use Rattle.std.specs.Prelude.{◌<◌, length, Some, drop};
    ghost use Rattle.std.specs.Io.{ReadsAtMost};
    ghost use Rattle.std.specs.Io.KnownBytes.{ReadConsumes};
    ghost use Rattle.cas_outside.specs.Causes.{HasCause};
    ghost use Rattle.cas_outside.specs.MemSource.{source_left, GivesAll, ReadsAsPlanned};

    ghost view = { λ s. record { left = source_left s; faults = s.faults } };

    fn read(&mut self, into: &mut [u8]) -> Result<usize, Failed>
        ensures bound { ReadsAtMost result into.new }
        ensures bytes { ReadConsumes (source_left self.old) (source_left self.new) result into.new }
        ensures cause { HasCause self.old.faults self.new.faults result }
        ensures planned { ReadsAsPlanned self.old self.new result }
        ensures gives { GivesAll (length into.old) self.old self.new result }
    {
        self.calls = self.calls.saturating_add(1);
        if is_planned(&self.fail, self.calls) {
            self.faults = self.faults.saturating_add(1);
            return Err(Failed);
        }
        let count = copy_front(self.bytes.as_slice(), self.at, into);
        self.at += count;
        Ok(count)
    }
}
