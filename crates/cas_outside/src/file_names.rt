// Names and contents of files.
ghost use Rattle.std.specs.Prelude.{◌≡◌, List, ℕ, IfOk};

use std::alloc::{AllocError, Global};
use std::marker::Model;

/// The name of a file in a folder, as its bytes.
#[derive(Drop)]
pub struct Name(Vec<u8>);

impl Model for Name {
    ghost use Rattle.std.specs.Prelude.{List, ℕ};

    ghost Value = { List ℕ };

    ghost view = { λ n. n.0.items };
}

impl Name {
    /// The name with these bytes.
    pub fn of(alloc: Global, list: &[u8]) -> Result<Name, AllocError>
        ensures { IfOk result (λ name. name ≡ list.now) }
    {
        Ok(Name(list.to_vec(alloc)?))
    }

    /// The name's bytes.
    pub fn list(&self) -> &[u8]
        ensures { result.now ≡ self.now }
    {
        self.0.as_slice()
    }
}

/// The bytes of a file.
#[derive(Drop)]
pub struct Bytes(Vec<u8>);

impl Model for Bytes {
    ghost use Rattle.std.specs.Prelude.{List, ℕ};

    ghost Value = { List ℕ };

    ghost view = { λ b. b.0.items };
}

impl Bytes {
    /// These bytes.
    pub fn of(alloc: Global, list: &[u8]) -> Result<Bytes, AllocError>
        ensures { IfOk result (λ bytes. bytes ≡ list.now) }
    {
        Ok(Bytes(list.to_vec(alloc)?))
    }

    /// The bytes of a vector, which it keeps.
    pub(crate) fn of_vec(list: Vec<u8>) -> Bytes
        ensures { result ≡ list.items }
    {
        Bytes(list)
    }

    /// The bytes.
    pub fn list(&self) -> &[u8]
        ensures { result.now ≡ self.now }
    {
        self.0.as_slice()
    }
}
