// Where bytes come from.
ghost use Rattle.std.specs.Prelude.{◌<◌, length, None};
ghost use Rattle.std.specs.Io.{ReadsAtMost};
ghost use Rattle.std.specs.Io.KnownBytes.{ReadConsumes};
ghost use Rattle.cas_outside.specs.Causes.{HasCause};
ghost use Rattle.cas_outside.specs.Streams.{SourceView};

use crate::Failed;
use std::io::{ErrorKind, Read};

/// A source of bytes.
pub trait Source {
    /// The bytes that are left, where the source knows them, and how often it has failed. The count never falls, and
    /// stands at the last `u64`.
    ghost view: { Self → SourceView };

    /// Takes bytes from the front of what is left. `Ok(n)` gives the first n of them, at most as many as there is room
    /// for; `Ok(0)` comes exactly where nothing is left. `Failed` comes only where the count of faults rose in this
    /// call, and then nothing was taken.
    fn read(&mut self, into: &mut [u8]) -> Result<usize, Failed>
        requires { 0 < length into.old }
        ensures bound { ReadsAtMost result into.new }
        ensures bytes { ReadConsumes (view self.old).left (view self.new).left result into.new }
        ensures cause { HasCause (view self.old).faults (view self.new).faults result };
}

/// Any reader of std as a source. It tells nothing of what is left, and tries an interrupted read again, 1,000 times
/// at most.
#[derive(Drop)]
pub struct ReadSource<R> {
    inner: R,
    faults: u64,
}

impl<R: Read> ReadSource<R> {
    ghost use Rattle.std.specs.Prelude.{◌≡◌};

    /// The source over a reader, with no fault counted.
    pub fn new(inner: R) -> ReadSource<R>
        ensures { result.faults ≡ 0 }
    {
        ReadSource { inner, faults: 0 }
    }
}

impl<R: Read> Source for ReadSource<R> {
    ghost view = { λ s. record { left = None; faults = s.faults } };

    fn read(&mut self, into: &mut [u8]) -> Result<usize, Failed>
        requires { 0 < length into.old }
        ensures bound { ReadsAtMost result into.new }
        ensures bytes { ReadConsumes None None result into.new }
        ensures cause { HasCause self.old.faults self.new.faults result }
        ensures given { ReadConsumes (R.remaining self.old.inner) (R.remaining self.new.inner) result into.new }
    {
        for _ in 0..1000 {
            match self.inner.read(into) {
                Ok(count) => return Ok(count),
                Err(error) if error.kind() == ErrorKind::Interrupted => {}
                Err(_) => break,
            }
        }
        self.faults = self.faults.saturating_add(1);
        Err(Failed)
    }
}
