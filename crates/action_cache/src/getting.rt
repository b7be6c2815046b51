// The value of a key.
ghost use Rattle.std.specs.Prelude.{◌≡◌, IfOk, OnErr};
ghost use Rattle.cas_port.specs.Calls.{IsLawful};
ghost use Rattle.graph_db.specs.Events.{SpeaksFor};
ghost use Rattle.action_cache.specs.Gets.{HasGot, GetStops};
ghost use Rattle.action_cache.specs.Keys.{FindsKey, KeyStops};

use crate::keeping::seek_key;
use cas_model::{Digest, Place, Who};
use cas_port::{CellPort, Steps};
use graph_db::record_digest;
use std::alloc::AllocError;
use std::marker::Brand;
use std::sync::ledger::{Blank, Ledger};

/// The value of a key: None exactly where the primary has none. An error comes only from the port.
pub fn get<P: CellPort>(port: &mut P, who: Who, key: &Digest) -> Result<Option<Digest>, AllocError>
    requires { SpeaksFor (P.view port.old) who }
    ensures got { IfOk result (HasGot who key.now (P.view port.old) (P.view port.new)) }
    ensures memory { OnErr result (GetStops who key.now (P.view port.old) (P.view port.new)) }
    ensures lawful { IsLawful (P.view port.old) (P.view port.new) }
{
    find_key(port, who, key)
}

/// Looks for a key for any call that may: its value, and None exactly where the primary has none. A crate that brings keys
/// in asks this before it does. An error comes only from the port.
pub fn find_key<P: CellPort>(
    port: &mut P,
    who: Who,
    key: &Digest,
) -> Result<Option<Digest>, AllocError>
    requires { SpeaksFor (P.view port.old) who }
    ensures found { IfOk result (FindsKey who key.now (P.view port.old) (P.view port.new)) }
    ensures memory { OnErr result (KeyStops who key.now (P.view port.old) (P.view port.new)) }
    ensures lawful { IsLawful (P.view port.old) (P.view port.new) }
{
    find_key_counted::<Brand, P>(port, who, key, Blank::new(1))
}

fn find_key_counted<L: Ledger, P: CellPort>(
    port: &mut P,
    who: Who,
    key: &Digest,
    blank: Blank,
) -> Result<Option<Digest>, AllocError>
    requires name { blank.name ≡ L.name }
    requires parts { blank.parts ≡ L.parts }
    requires one { blank.parts ≡ 1 }
    requires speaks { SpeaksFor (P.view port.old) who }
    ensures ok { IfOk result (FindsKey who key.now (P.view port.old) (P.view port.new)) }
    ensures err { OnErr result (KeyStops who key.now (P.view port.old) (P.view port.new)) }
    ensures lawful { IsLawful (P.view port.old) (P.view port.new) }
{
    let mut steps: Steps<L> = Steps::new(blank);
    let cell = seek_key(port, who, key, &mut steps)?;
    if cell == 0 {
        return Ok(None);
    }
    Ok(Some(record_digest(port, Place { at: cell })))
}
