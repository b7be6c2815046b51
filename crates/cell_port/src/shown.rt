// Where the words of a run's contents are kept.
ghost use Rattle.std.specs.Prelude.{◌≡◌, ℕ, ◌<◌, ◌∷◌, [], length, option_copied, cond, Some, IsSome, OnOk, OnErr, ◌==◌};
ghost use Rattle.std.specs.BTreeMap as tree;
ghost use Rattle.std.specs.Ordering.{nat_cmp};
ghost use Rattle.cas_model.specs.Tables.{words_at};
ghost use Rattle.cell_port.specs.Shown.{AreBelow, contents_of, number_at, words_before};
ghost use Rattle.cell_port.specs.Index.{number_or_none};

use crate::tables::PlainTables;
use cas_history::{Act, Event};
use cas_model::Place;
use std::alloc::{AllocError, Global};
use std::collections::{BTreeMap, VecDeque};
use std::marker::Model;

/// A content that a run published: its place, and how many events were seen before the fill that published it. Its
/// words are kept once, in the event of that fill.
#[derive(Clone, Copy)]
pub struct Shown {
    pub place: u64,
    pub before: usize,
}

/// The contents that a run published, the newest first, with a map that finds one by its place.
#[derive(Drop)]
pub struct ShownList {
    list: VecDeque<Shown>,
    // How many events were seen before the fill that published the content at a place, or `None` at a place that is kept
    // free for a content.
    numbers: BTreeMap<u64, Option<usize>>,
}

impl Model for ShownList {
    ghost use Rattle.std.specs.Prelude.{List};
    ghost use Rattle.cell_port.specs.declared.shown.Shown.{Shown};
    ghost use Rattle.cell_port.specs.Index.{NumbersShown};

    ghost Value = { List Shown };

    ghost view = { λ s. s.list.items };

    ghost invariant = { λ s. NumbersShown s.numbers s.list.items };
}

impl ShownList {
    /// Nothing is published.
    pub fn new(alloc: Global) -> ShownList
        ensures { result ≡ [] }
    {
        ShownList {
            list: VecDeque::new(alloc),
            numbers: BTreeMap::new(alloc),
        }
    }

    /// Fills a cell with the place of a content, and adds the content.
    pub fn fill(
        &mut self,
        tables: &mut PlainTables,
        of: Place,
        shown: Shown,
    ) -> Result<(), AllocError>
        ensures ok { OnOk result (self.new ≡ shown ∷ self.old) }
        ensures ok_tables { OnOk result (tables.new ≡ record tables.old { filled = (record { of = of; value = shown.place }) ∷ tables.old.filled }) }
        ensures err { OnErr result (self.new ≡ self.old) }
        ensures err_tables { OnErr result (tables.new ≡ tables.old) }
    {
        self.list.reserve(1)?;
        keep_free(&mut self.numbers, shown.place)?;
        tables.fill(of, shown.place)?;
        put_number(&mut self.numbers, shown);
        self.list.push_front_reserved(shown);
        Ok(())
    }

    /// How many events were seen before the fill that published the first content at a place.
    pub fn number_at(&self, place: u64) -> Option<usize>
        ensures { result ≡ number_at self.now place }
    {
        match self.numbers.get(&place) {
            Some(number) => *number,
            None => None,
        }
    }
}

// Keeps a place free in the map, so that its number can be put without more memory.
fn keep_free(numbers: &mut BTreeMap<u64, Option<usize>>, place: u64) -> Result<(), AllocError>
    ensures same { (at : ℕ) → number_or_none (tree.get nat_cmp numbers.new at) ≡ number_or_none (tree.get nat_cmp numbers.old at) }
    ensures free { OnOk result (IsSome (tree.get nat_cmp numbers.new place)) }
{
    if !numbers.contains_key(&place) {
        numbers.insert(place, None)?;
    }
    Ok(())
}

// Puts the number of a content at its place, which was kept free.
fn put_number(numbers: &mut BTreeMap<u64, Option<usize>>, shown: Shown)
    requires { IsSome (tree.get nat_cmp numbers.old shown.place) }
    ensures { (at : ℕ) → number_or_none (tree.get nat_cmp numbers.new at) ≡ cond (shown.place == at) (Some shown.before) (number_or_none (tree.get nat_cmp numbers.old at)) }
{
    if numbers.insert(shown.place, Some(shown.before)).is_err() {
        unreachable!()
    }
}

/// The words of the first content at a place: one that the run published, or one of the rows.
pub fn words_at<'t>(
    tables: &'t PlainTables,
    events: &'t VecDeque<Event>,
    shown: &ShownList,
    place: u64,
) -> Option<&'t [u64]>
    requires { AreBelow (length events.now.items) shown.now }
    ensures { option_copied result ≡ words_at (contents_of events.now.items shown.now tables.now) place }
{
    match shown.number_at(place) {
        Some(before) => Some(fill_words(events, before)),
        None => tables.words_at(place),
    }
}

// The words of the event before which so many were seen, none where it is no fill.
fn fill_words(events: &VecDeque<Event>, before: usize) -> &[u64]
    requires { before < length events.now.items }
    ensures { result.now ≡ words_before events.now.items before }
{
    match &events[events.len() - 1 - before].act {
        Act::Fill(_, _, words) => words.list(),
        _ => &[],
    }
}
