// Words that no longer change.
ghost use Rattle.std.specs.Prelude.{◌≡◌, ℕ, ◌+◌, ◌<◌, ◌≤◌, length, slice_index, sum, IfOk, IfErr};
ghost use Rattle.std.specs.FinMap as fin;
ghost use Rattle.cas_model.specs.Contents.{AreLawfulContents, contents_state};
ghost use Rattle.cas_model.specs.Primary.{primary, cell_under};
ghost use Rattle.cas_model.specs.Tables.{place_of, empty_start};
ghost use Rattle.cas_model.specs.declared.digest.Digest.{Digest};
ghost use Rattle.cas_model.specs.declared.place.Space.{Space};
ghost use Rattle.cas_model.specs.declared.place.Space.TheVariants.{Objects};
ghost use Rattle.region_core.specs.Builds.{empty_region};
ghost use Rattle.cas_model.specs.Claims.{contents_claims, Fit};
ghost use Rattle.region_core.specs.Claims.{Refuses};
ghost use Rattle.region_core.specs.Places.{LieInOrder};
ghost use Rattle.frozen_store.specs.Bound.{BindsItsRecords, BindsOnPaths, BindsWithCells};
ghost use Rattle.frozen_store.specs.Lists.{AreContentsOf};
ghost use Rattle.frozen_store.specs.Seen.{HasState, IsBoundAt, IsSeen, place_in};

use crate::listing::{keys_of, objects_of};
use crate::reading::object_at;
use crate::tally::count_filled;
use crate::walk::words_fit;
use cas_model::{Contents, Digest, Object, Pair, Place, Space, Upstream};
use region_core::{BuildError, build, empty_words, look, record_digest};
use std::alloc::{AllocError, Global};
use std::marker::Model;

/// How many objects and actions a store has.
#[derive(Clone, Copy, Debug, PartialEq, Eq)]
pub struct Counts {
    pub objects: u64,
    pub actions: u64,
}

/// The words below the counter of a region that no longer changes: a generation, as it is read.
///
/// One is held for as long as its objects are read, by any number of readers at once, since no call changes it. It never
/// grows: what a store adds goes to a port that was opened at its contents, and is a closed region of its own when that
/// ends. It ends with its owner, and borrows nothing.
#[derive(Drop)]
pub struct Frozen {
    words: Vec<u64>,
    counts: Counts,
}

impl Model for Frozen {
    ghost use Rattle.region_core.specs.Found.{tables_in};
    ghost use Rattle.frozen_store.specs.Seen.{FrozenSeen, IsFrozen};

    ghost Value = { FrozenSeen };

    ghost view = { λ f. record { words = f.words.items; tables = tables_in f.words.items } };

    ghost invariant = { λ f. IsFrozen f.words.items f.counts.objects f.counts.actions };
}

impl Frozen {
    /// How many words there are.
    pub fn used(&self) -> u64
        ensures { result ≡ length self.now.words }
    {
        self.words.len() as u64
    }

    /// The words, in order.
    pub fn words(&self) -> &[u64]
        ensures { result.now ≡ self.now.words }
    {
        self.words.as_slice()
    }

    /// The word at a place.
    pub fn word(&self, at: u64) -> u64
        requires { at < length self.now.words }
        ensures { result ≡ slice_index self.now.words at }
    {
        self.words[at as usize]
    }

    /// The size of the region, in words.
    pub fn size(&self) -> u64
        ensures { result ≡ self.now.tables.size }
    {
        self.seen();
        self.words[2]
    }

    /// The place of a digest's record in a trie, and None where it has none.
    pub fn look(&self, space: Space, digest: &Digest) -> Option<Place>
        ensures { result ≡ place_of self.now.tables.bound space digest.now }
    {
        look(self.words.as_slice(), space, digest)
    }

    // The cell of a record.
    fn cell(&self, owner: Place) -> u64
        requires { IsBoundAt self.now owner }
        ensures word { result ≡ slice_index self.now.words (owner.at + 4) }
        ensures cell { (space : Space) (d : Digest) → place_of self.now.tables.bound space d ≡ Some owner → cell_under self.now.tables space d ≡ result }
    {
        self.words[owner.at as usize + 4]
    }

    /// The place of an object's content, and None where the object is not present.
    pub fn content_place(&self, digest: &Digest) -> Option<Place>
        ensures { result ≡ place_in (cell_under self.now.tables Objects digest.now) }
    {
        let owner = self.look(Space::Objects, digest)?;
        let cell = self.cell(owner);
        if cell == 0 {
            return None;
        }
        Some(Place { at: cell })
    }

    /// The value of a key, and None where the key is not present.
    pub fn action(&self, key: &Digest) -> Option<Digest>
        ensures { result ≡ fin.get (primary self.now.tables).cache key.now }
    {
        let owner = self.look(Space::Actions, key)?;
        let cell = self.cell(owner);
        if cell == 0 {
            return None;
        }
        Some(record_digest(self.words.as_slice(), cell as usize))
    }

    /// The object with a digest, and None where it is not present. It fails where there is no memory.
    pub fn object(&self, alloc: Global, digest: &Digest) -> Result<Option<Object>, AllocError>
        ensures { IfOk result (λ object. object ≡ fin.get (primary self.now.tables).objects digest.now) }
    {
        match self.content_place(digest) {
            None => Ok(None),
            Some(place) => {
                let object = object_at(alloc, self.words.as_slice(), place.at as usize)?;
                Ok(Some(object))
            }
        }
    }

    /// The contents: the objects by rising place of their content, so that each comes after those that it refers to,
    /// and the actions by rising key. They fit in a region of this size, and in as many words as these. It fails where
    /// there is no memory.
    pub fn contents(&self, alloc: Global) -> Result<Contents, AllocError>
        ensures held { IfOk result (λ contents. AreContentsOf self.now contents.objects.items contents.actions.items) }
        ensures fits { IfOk result (λ contents. Fit self.now.tables.size 520 (contents_claims contents.objects.items contents.actions.items)) }
        ensures short { IfOk result (λ contents. Fit (length self.now.words) 520 (contents_claims contents.objects.items contents.actions.items)) }
    {
        let objects = objects_of(alloc, self.words.as_slice())?;
        let keys = keys_of(alloc, self.words.as_slice())?;
        let mut actions = Vec::new(alloc);
        for key in &keys {
            match self.action(key) {
                Some(value) => actions.push(Pair { key: *key, value })?,
                None => unreachable!(),
            }
        }
        Ok(Contents { objects, actions })
    }

    /// How many objects and actions are present.
    pub fn counts(&self) -> Counts
        ensures objects { result.objects ≡ fin.len (primary self.now.tables).objects }
        ensures actions { result.actions ≡ fin.len (primary self.now.tables).cache }
    {
        self.counts
    }

    /// What the words and their tables are to a reader of contracts. The body does nothing.
    pub fn seen(&self)
        ensures { IsSeen self.now }
    {
        let _words = self.words.len();
    }

    /// What `look` answers, by the words alone: a digest is bound to a place just where a slot of the trie names its
    /// record there, whether or not the record's cell is filled. The slot lies on the digest's path, and the cell is the
    /// record's last word. The body does nothing.
    pub fn bindings(&self)
        ensures records { BindsItsRecords self.now }
        ensures paths { BindsOnPaths self.now }
        ensures cells { BindsWithCells self.now }
    {
        let _words = self.words.len();
    }

    /// The closed region of these words, which stand for a state. It counts the filled records, and takes no memory.
    pub fn of_closed(words: Vec<u64>) -> Frozen
        requires { HasState words.items }
        ensures { result.words ≡ words.items }
    {
        let list = words.as_slice();
        words_fit(list);
        let objects = count_filled(list, Space::Objects);
        let actions = count_filled(list, Space::Actions);
        let counts = Counts { objects, actions };
        Frozen { words, counts }
    }

    /// The closed region of these words, which stand for a state, as `of_closed` makes it: it takes no memory.
    pub fn of_words(alloc: Global, words: Vec<u64>) -> Result<Frozen, AllocError>
        requires { HasState words.items }
        ensures { IfOk result (λ frozen. frozen.words ≡ words.items) }
    {
        Ok(Frozen::of_closed(words))
    }

    /// The closed region of this size that holds just these contents, in their order. Its words are those that `build`
    /// makes: each block lies at the place behind all the claims before it. It fails as `build` does.
    pub fn of_contents(alloc: Global, contents: &Contents, size: u64) -> Result<Frozen, BuildError>
        requires least { 4096 ≤ size }
        requires most { size ≤ 67108864 }
        requires lawful { AreLawfulContents contents.now.objects.items contents.now.actions.items }
        ensures state { IfOk result (λ frozen. primary frozen.tables ≡ contents_state contents.now.objects.items contents.now.actions.items) }
        ensures size { IfOk result (λ frozen. frozen.tables.size ≡ size) }
        ensures places { IfOk result (λ frozen. LieInOrder frozen.words contents.now.objects.items contents.now.actions.items) }
        ensures long { IfOk result (λ frozen. length frozen.words ≡ 520 + sum (contents_claims contents.now.objects.items contents.now.actions.items)) }
        ensures refused { IfErr result (λ error. Refuses size 520 (contents_claims contents.now.objects.items contents.now.actions.items) error) }
    {
        let words = build(alloc, contents, size)?;
        let frozen = Frozen::of_closed(words);
        frozen.seen();
        Ok(frozen)
    }

    /// A closed region of this size in which nothing is stored.
    pub fn empty(alloc: Global, size: u64) -> Result<Frozen, AllocError>
        requires least { 4096 ≤ size }
        requires most { size ≤ 67108864 }
        ensures words { IfOk result (λ frozen. frozen.words ≡ empty_region size) }
        ensures tables { IfOk result (λ frozen. frozen.tables ≡ empty_start size) }
    {
        let words = empty_words(alloc, size)?;
        let frozen = Frozen::of_closed(words);
        frozen.seen();
        Ok(frozen)
    }
}

impl Upstream for Frozen {
    ghost state = { λ f. primary f.tables };
}
