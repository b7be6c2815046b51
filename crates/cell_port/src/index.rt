// What finds the rows of a plain port at once.
ghost use Rattle.std.specs.Prelude.{◌≡◌, ◌≤◌, ℕ, None, Some, IsSome, cond, OnOk, OnErr, ◌==◌};
ghost use Rattle.std.specs.BTreeMap.{IsEmpty};
ghost use Rattle.cas_model.specs.declared.digest.Digest.{Digest};
ghost use Rattle.cas_model.specs.declared.place.Space.{Space};
ghost use Rattle.cas_model.specs.Tables.{is_for};
ghost use Rattle.cell_port.specs.Depth.{needed_beside};
ghost use Rattle.cell_port.specs.Index.{indexed_place, indexed_record, indexed_digests, HasOneMore, HasAsMany};

use crate::depth;
use cas_model::{Digest, Place, Record, Space};
use std::alloc::{AllocError, Global};
use std::collections::BTreeMap;

/// The place of each bound digest, and the record at each place.
#[derive(Drop)]
pub struct Index {
    pub objects: BTreeMap<[u8; 32], Place>,
    pub actions: BTreeMap<[u8; 32], Place>,
    pub records: BTreeMap<u64, Record>,
}

impl Index {
    /// Nothing is bound.
    pub fn new(alloc: Global) -> Index
        ensures objects { IsEmpty result.objects }
        ensures actions { IsEmpty result.actions }
        ensures records { IsEmpty result.records }
    {
        Index {
            objects: BTreeMap::new(alloc),
            actions: BTreeMap::new(alloc),
            records: BTreeMap::new(alloc),
        }
    }

    /// The place to which a digest is bound.
    pub fn place_of(&self, space: Space, digest: &Digest) -> Option<Place>
        ensures { result ≡ indexed_place self.now space digest.now }
    {
        match space {
            Space::Objects => self.objects.get(&digest.bytes).copied(),
            Space::Actions => self.actions.get(&digest.bytes).copied(),
        }
    }

    /// The record at a place.
    pub fn record_at(&self, place: Place) -> Option<Record>
        ensures { result ≡ indexed_record self.now place.at }
    {
        self.records.get(&place.at).copied()
    }

    /// How many subtries a digest needs that the bound digests of its space do not need already.
    pub fn new_subtries(&self, space: Space, digest: &Digest) -> u64
        ensures count { result ≡ needed_beside (indexed_digests self.now space) digest.now }
        ensures most { result ≤ 62 }
    {
        match space {
            Space::Objects => depth::new_subtries(&self.objects, digest),
            Space::Actions => depth::new_subtries(&self.actions, digest),
        }
    }

    /// Binds an unbound digest to a record. Where memory is wanting nothing changes.
    pub fn bind(&mut self, record_: Record) -> Result<(), AllocError>
        requires { indexed_place self.old record_.space record_.digest ≡ None }
        ensures ok_places { OnOk result ((space : Space) → (digest : Digest) → indexed_place self.new space digest ≡ cond (is_for space digest record_) (Some record_.place) (indexed_place self.old space digest)) }
        ensures ok_records { OnOk result ((at : ℕ) → indexed_record self.new at ≡ cond (record_.place.at == at) (Some record_) (indexed_record self.old at)) }
        ensures ok_digests { OnOk result (HasOneMore self.old self.new record_) }
        ensures err_places { OnErr result ((space : Space) → (digest : Digest) → indexed_place self.new space digest ≡ indexed_place self.old space digest) }
        ensures err_records { OnErr result ((at : ℕ) → indexed_record self.new at ≡ indexed_record self.old at) }
        ensures err_digests { OnErr result (HasAsMany self.old self.new) }
    {
        self.put_place(record_)?;
        if self.records.insert(record_.place.at, record_).is_err() {
            self.take_place(record_);
            return Err(AllocError);
        }
        Ok(())
    }

    // Gives an unbound digest a place.
    fn put_place(&mut self, record_: Record) -> Result<(), AllocError>
        requires { indexed_place self.old record_.space record_.digest ≡ None }
        ensures ok { OnOk result ((space : Space) → (digest : Digest) → indexed_place self.new space digest ≡ cond (is_for space digest record_) (Some record_.place) (indexed_place self.old space digest)) }
        ensures err { OnErr result ((space : Space) → (digest : Digest) → indexed_place self.new space digest ≡ indexed_place self.old space digest) }
        ensures ok_digests { OnOk result (HasOneMore self.old self.new record_) }
        ensures err_digests { OnErr result (HasAsMany self.old self.new) }
        ensures records { self.new.records ≡ self.old.records }
    {
        match record_.space {
            Space::Objects => self.objects.insert(record_.digest.bytes, record_.place)?,
            Space::Actions => self.actions.insert(record_.digest.bytes, record_.place)?,
        };
        Ok(())
    }

    // Takes the place of a bound digest out.
    fn take_place(&mut self, record_: Record)
        requires { IsSome (indexed_place self.old record_.space record_.digest) }
        ensures places { (space : Space) → (digest : Digest) → indexed_place self.new space digest ≡ cond (is_for space digest record_) None (indexed_place self.old space digest) }
        ensures digests { HasOneMore self.new self.old record_ }
        ensures records { self.new.records ≡ self.old.records }
    {
        match record_.space {
            Space::Objects => self.objects.remove(&record_.digest.bytes),
            Space::Actions => self.actions.remove(&record_.digest.bytes),
        };
    }
}
