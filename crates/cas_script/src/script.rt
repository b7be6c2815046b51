// What a script says.
ghost use Rattle.std.specs.Prelude.{◌≡◌};

use cas_model::{Data, Digest, Refs};
use std::marker::Model;

/// A line of a session: what it asks of the store.
#[derive(Drop)]
pub enum Line {
    /// Store the object with these references and this data.
    Store { refs: Refs, data: Data },
    /// Load the object with a digest.
    Load(Digest),
    /// Give a key (the first digest) a value (the second), which is an object's digest.
    Put(Digest, Digest),
    /// Get the value of a key.
    Get(Digest),
    /// A cached action: get its key, and after a miss store its object and put the key with the object's digest.
    Act { key: Digest, refs: Refs, data: Data },
}

/// The lines of a session, in order.
#[derive(Drop)]
pub struct Lines(Vec<Line>);

impl Model for Lines {
    ghost use Rattle.std.specs.Prelude.{List};
    ghost use Rattle.cas_script.specs.declared.script.Line.{Line};

    ghost Value = { List Line };

    ghost view = { λ l. l.0.items };
}

impl Lines {
    /// These lines, without a copy.
    pub fn from_vec(list: Vec<Line>) -> Lines
        ensures { result ≡ list.items }
    {
        Lines(list)
    }

    pub fn list(&self) -> &[Line]
        ensures { result.now ≡ self.now }
    {
        self.0.as_slice()
    }
}

/// A session: its lines run one after another, and other sessions may run beside it.
#[derive(Drop)]
pub struct Session {
    pub lines: Lines,
}

/// The sessions of a script, in order.
#[derive(Drop)]
pub struct Sessions(Vec<Session>);

impl Model for Sessions {
    ghost use Rattle.std.specs.Prelude.{List};
    ghost use Rattle.cas_script.specs.declared.script.Session.{Session};

    ghost Value = { List Session };

    ghost view = { λ s. s.0.items };
}

impl Sessions {
    /// These sessions, without a copy.
    pub fn from_vec(list: Vec<Session>) -> Sessions
        ensures { result ≡ list.items }
    {
        Sessions(list)
    }

    pub fn list(&self) -> &[Session]
        ensures { result.now ≡ self.now }
    {
        self.0.as_slice()
    }
}

/// A batch: sessions, numbered from 0.
#[derive(Drop)]
pub struct Script {
    pub sessions: Sessions,
}
