// Reading the source to its end.
ghost use Rattle.std.specs.Prelude.{◌≡◌, ◌<◌, ◌≤◌, ◌^◌, length, IfOk, IfErr};
ghost use Rattle.cas_command.specs.Reading.{HasReadAll, StoppedBy};

use cas_outside::{Failed, Source};
use std::alloc::{AllocError, Global};

/// How many bytes are asked of the source at once.
const BLOCK: usize = 65_536;

/// Why reading stopped before the source's end.
#[derive(Clone, Copy, Debug, PartialEq, Eq)]
pub enum Stop {
    /// The source failed.
    Fault,
    /// There is more than the limit.
    Large,
    /// There was no memory.
    Memory,
}

impl From<Failed> for Stop {
    ghost use Rattle.std.specs.Prelude.{◌≡◌};
    ghost use Rattle.cas_command.specs.declared.input.Stop.TheVariants.{Fault};

    ghost from_gives = { λ _ e. e ≡ Fault };

    fn from(_: Failed) -> Self {
        Stop::Fault
    }
}

impl From<AllocError> for Stop {
    ghost use Rattle.std.specs.Prelude.{◌≡◌};
    ghost use Rattle.cas_command.specs.declared.input.Stop.TheVariants.{Memory};

    ghost from_gives = { λ _ e. e ≡ Memory };

    fn from(_: AllocError) -> Self {
        Stop::Memory
    }
}

/// All bytes of the source, where they are at most so many; it is read to its end, or to the first byte past the limit.
pub fn read_all<S: Source>(alloc: Global, source: &mut S, most: usize) -> Result<Vec<u8>, Stop>
    requires { most < 2 ^ 32 }
    ensures ok { IfOk result (λ bytes. HasReadAll most (S.view source.old).left (S.view source.new).left bytes.items) }
    ensures err { IfErr result (StoppedBy most (S.view source.old).left (S.view source.new).left (S.view source.old).faults (S.view source.new).faults) }
    ensures later { (S.view source.old).faults ≤ (S.view source.new).faults }
{
    let mut block = zeros(alloc, BLOCK)?;
    read_blocks(alloc, source, most, &mut block)
}

// The same through this block, by as many bytes at once as it has.
fn read_blocks<S: Source>(
    alloc: Global,
    source: &mut S,
    most: usize,
    block: &mut [u8],
) -> Result<Vec<u8>, Stop>
    requires limit { most < 2 ^ 32 }
    requires some { 0 < length block.old }
    ensures ok { IfOk result (λ bytes. HasReadAll most (S.view source.old).left (S.view source.new).left bytes.items) }
    ensures err { IfErr result (StoppedBy most (S.view source.old).left (S.view source.new).left (S.view source.old).faults (S.view source.new).faults) }
    ensures later { (S.view source.old).faults ≤ (S.view source.new).faults }
{
    let mut all = Vec::new(alloc);
    while all.len() <= most {
        let room = (most + 1 - all.len()).min(block.len());
        let count = source.read(&mut block[..room])?;
        if count == 0 {
            return Ok(all);
        }
        all.extend_from_slice(&block[..count])?;
    }
    Err(Stop::Large)
}

// So many bytes, each 0.
fn zeros(alloc: Global, count: usize) -> Result<Vec<u8>, AllocError>
    ensures { IfOk result (λ bytes. length bytes.items ≡ count) }
{
    vec![in alloc; 0; count]
}
