// Replies of a call.
ghost use Rattle.std.specs.Prelude.{◌≡◌, option_copied};
ghost use Rattle.unified_cas.specs.Over.{answer_of, kept_as, misses_of, refused_as, stored_as};
ghost use Rattle.unified_cas.specs.Upstream.{upstream_state};

use crate::upstream::has_object;
use cas_model::{Digest, Reply};
use fault_in::FaultInError;
use frozen_store::Frozen;
use graph_db::StoreError;
use std::alloc::AllocError;

// Whether a call was refused since the primary lacks an object that the upstream has.
pub(crate) fn misses_known(up: Option<&Frozen>, end: &Result<Digest, StoreError>) -> bool
    ensures { result ≡ misses_of (upstream_state (option_copied up.entry)) end.now }
{
    match end {
        Err(StoreError::Dangling { digest, .. }) => has_object(up, digest),
        _ => false,
    }
}

// What a store left, as its reply.
pub(crate) fn stored(end: Result<Digest, StoreError>) -> Result<Reply, FaultInError>
    ensures { result ≡ stored_as end }
{
    match end {
        Ok(digest) => Ok(Reply::Stored(digest)),
        Err(error) => refused(error),
    }
}

// What a put left, as its reply.
pub(crate) fn kept(end: Result<Digest, StoreError>) -> Result<Reply, FaultInError>
    ensures { result ≡ kept_as end }
{
    match end {
        Ok(value) => Ok(Reply::Kept(value)),
        Err(error) => refused(error),
    }
}

// An absent object as a reply, and all else as an early end.
fn refused(error: StoreError) -> Result<Reply, FaultInError>
    ensures { result ≡ refused_as error }
{
    match error {
        StoreError::Dangling { index, digest } => Ok(Reply::Dangling { index, digest }),
        StoreError::Full(full) => Err(FaultInError::Full(full)),
        StoreError::Memory => Err(FaultInError::Memory),
    }
}

// A refused claim as a reply.
pub(crate) fn answered(end: Result<Reply, FaultInError>) -> Result<Reply, AllocError>
    ensures { result ≡ answer_of end }
{
    match end {
        Ok(reply) => Ok(reply),
        Err(FaultInError::Full(full)) => Ok(Reply::Full {
            at: full.at,
            asked: full.asked,
            size: full.size,
        }),
        Err(FaultInError::Memory) => Err(AllocError),
    }
}
