// A sink in memory, some calls of which fail.
ghost use Rattle.std.specs.Prelude.{◌≡◌, ◌≤◌, ◌<◌, ◌+◌, length, vec_capacity, vec_len, List, ℕ};

use crate::plan::{append, is_planned};
use crate::{Failed, Sink};
use std::alloc::{AllocError, Global};

/// A sink over memory, with room for so many bytes.
#[derive(Drop)]
pub struct MemSink {
    bytes: Vec<u8>,
    fail: Vec<u64>,
    room: usize,
    most: usize,
    calls: u64,
    faults: u64,
    ghost some: { 0 < most },
    ghost has_room: { length bytes.items + room ≤ vec_capacity bytes },
}

impl MemSink {
    ghost use Rattle.std.specs.Prelude.{◌≡◌, ◌<◌, IfOk};
    ghost use Rattle.cas_outside.specs.MemSink.{IsFreshSink};

    /// A sink with this room, which takes at most so many bytes at a time, and of whose calls those in the list fail.
    pub fn new(alloc: Global, room: u64, most: u64, fail: Vec<u64>) -> Result<MemSink, AllocError>
        requires { 0 < most }
        ensures { IfOk result (IsFreshSink room most fail.items) }
    {
        let room = match usize::try_from(room) {
            Ok(room) => room,
            Err(_) => return Err(AllocError),
        };
        let most = most as usize;
        let mut bytes = Vec::new(alloc);
        bytes.reserve(room)?;
        Ok(MemSink {
            bytes,
            fail,
            room,
            most,
            calls: 0,
            faults: 0,
        })
    }

    /// The bytes that it took.
    pub fn written(&self) -> &[u8]
        ensures { result.now ≡ self.now.bytes.items }
    {
        self.bytes.as_slice()
    }
}

impl Sink for MemSink {
    ghost use Rattle.std.specs.Prelude.{◌<◌, ◌≤◌, length, Some, IfOk};
    ghost use Rattle.std.specs.Io.KnownBytes.{WriteAppends};
    ghost use Rattle.cas_outside.specs.Causes.{HasCause};
    ghost use Rattle.cas_outside.specs.MemSink.{sink_held, KeepsSinkPlan, WritesAsPlanned};

    ghost view = { λ s. record { held = sink_held s; faults = s.faults } };

    fn write(&mut self, bytes: &[u8]) -> Result<usize, Failed>
        requires { 0 < length bytes.now }
        ensures some { IfOk result (λ n. 0 < n) }
        ensures most { IfOk result (λ n. n ≤ length bytes.now) }
        ensures bytes { WriteAppends (sink_held self.old) (sink_held self.new) result bytes.now }
        ensures cause { HasCause self.old.faults self.new.faults result }
        ensures planned { WritesAsPlanned (length bytes.now) self.old self.new result }
        ensures keeps { KeepsSinkPlan self.old self.new result }
    {
        self.calls = self.calls.saturating_add(1);
        if self.room == 0 || is_planned(&self.fail, self.calls) {
            self.faults = self.faults.saturating_add(1);
            return Err(Failed);
        }
        let count = bytes.len().min(self.most).min(self.room);
        append(&mut self.bytes, &bytes[..count]);
        self.room -= count;
        Ok(count)
    }
}
