// What the tests of this crate share: calls by their numbers, and a store and a put over a port with no upstream.
ghost use Rattle.std.specs.Prelude.{◌≡◌, ◌≤◌, length};

use action_cache::put;
use cas_model::{Digest, NoUpstream, Who};
use cell_port::PlainPort;
use graph_db::{StoreError, store};

/// A store where there is no upstream, and so nothing to bring in before.
pub fn store_in<'u>(
    port: &mut PlainPort<'u, NoUpstream>,
    who: Who,
    refs: &[Digest],
    data: &[u8],
) -> Result<Digest, StoreError>
    requires few_refs { length refs.now ≤ 65535 }
    requires short { length «data».now ≤ 16777215 }
{
    store(port, who, refs, data)
}

/// A put where there is no upstream.
pub fn put_in<'u>(
    port: &mut PlainPort<'u, NoUpstream>,
    who: Who,
    key: &Digest,
    value: &Digest,
) -> Result<Digest, StoreError> {
    put(port, who, key, value)
}
