// Where bytes go to.
ghost use Rattle.std.specs.Prelude.{◌≡◌, ◌<◌, ◌≤◌, length, IfOk, None};
ghost use Rattle.std.specs.Io.KnownBytes.{WriteAppends};
ghost use Rattle.cas_outside.specs.Causes.{HasCause};
ghost use Rattle.cas_outside.specs.Streams.{SinkView};

use crate::Failed;
use std::io::{ErrorKind, Write};

/// A sink for bytes.
pub trait Sink {
    /// The bytes that were written, where the sink knows them, and how often it has failed. The count never falls, and
    /// stands at the last `u64`.
    ghost view: { Self → SinkView };

    /// Appends bytes. `Ok(n)`, n from 1 to their number, says that the first n were appended. `Failed` comes only where
    /// the count of faults rose in this call, and then nothing was appended.
    fn write(&mut self, bytes: &[u8]) -> Result<usize, Failed>
        requires { 0 < length bytes.now }
        ensures some { IfOk result (λ n. 0 < n) }
        ensures most { IfOk result (λ n. n ≤ length bytes.now) }
        ensures bytes { WriteAppends (view self.old).held (view self.new).held result bytes.now }
        ensures cause { HasCause (view self.old).faults (view self.new).faults result };
}

/// Any writer of std as a sink. It tells nothing of what was written, and tries an interrupted write again, 1,000
/// times at most. A write that takes nothing is a fault.
#[derive(Drop)]
pub struct WriteSink<W> {
    inner: W,
    faults: u64,
}

impl<W: Write> WriteSink<W> {
    ghost use Rattle.std.specs.Prelude.{◌≡◌};

    /// The sink over a writer, with no fault counted.
    pub fn new(inner: W) -> WriteSink<W>
        ensures { result.faults ≡ 0 }
    {
        WriteSink { inner, faults: 0 }
    }
}

impl<W: Write> Sink for WriteSink<W> {
    ghost view = { λ s. record { held = None; faults = s.faults } };

    fn write(&mut self, bytes: &[u8]) -> Result<usize, Failed>
        requires { 0 < length bytes.now }
        ensures some { IfOk result (λ n. 0 < n) }
        ensures most { IfOk result (λ n. n ≤ length bytes.now) }
        ensures bytes { WriteAppends None None result bytes.now }
        ensures cause { HasCause self.old.faults self.new.faults result }
        ensures taken { WriteAppends (W.contents self.old.inner) (W.contents self.new.inner) result bytes.now }
    {
        for _ in 0..1000 {
            match self.inner.write(bytes) {
                Ok(0) => break,
                Ok(count) => return Ok(count),
                Err(error) if error.kind() == ErrorKind::Interrupted => {}
                Err(_) => break,
            }
        }
        self.faults = self.faults.saturating_add(1);
        Err(Failed)
    }
}
