// The boundary between the structure of a store and the words of a region.
ghost use Rattle.std.specs.Prelude.{◌≡◌, ◌+◌, ◌*◌, ◌<◌, ◌≤◌, IfOk, IfErr, OnErr, MatchResult};
ghost use Rattle.cas_port.specs.View.{View};
ghost use Rattle.cas_port.specs.Calls.{Speaks, HasRecord, IsOpen, IsWholeFill, IsPlaceFill, HasWord, IsLawful, Looked, BoundTo, BindRefused, HasRead, HasClaimed, ClaimRefused, HasWritten, HasFilled, HasFilledPlace, WordIs, WantsMemory, Abandons, Ticks};

use crate::{Block, Bound, Filled, PortError, Steps};
use cas_model::{Digest, Note, Place, Space};
use std::alloc::AllocError;
use std::sync::ledger::Ledger;

/// A port to a region: a store of records and of blocks of words, on which each call is one or a few atomic steps.
///
/// A port is opened for one run, over a region and maybe an upstream, and is held by the sessions that it speaks for. The
/// region grows by claims alone, and what is bound or filled stays; once a claim would pass the region's end it answers
/// `Full`, and smaller ones may still fit. A run ends when the port is given up for what it holds.
///
/// Contracts see a `View`: the region, the tables of its start, the upstream, the events that the port has seen, for
/// which sessions it speaks, whether its calls may want memory, and the blocks that it claimed and has not published.
/// What was seen is a lawful run from the start, before and after each call, and what was seen before stands below
/// what is seen after. A call that takes a note adds its own event, the newest seen; events of sessions that the port
/// does not speak for may come in below it. A call that wants memory adds nothing, and only a port that takes memory
/// wants any.
///
/// The rules are this project's own.
pub trait CellPort {
    /// What contracts see of the port.
    ghost view: { Self → View };

    /// Looks for the record of a digest. None exactly where the digest was not bound in that space at the step.
    ///
    /// A region's trie is read with at most five loads a level, and 67 loads in all.
    fn look<L: Ledger>(
        &mut self,
        note: Note,
        space: Space,
        digest: &Digest,
        steps: &mut Steps<L>,
    ) -> Result<Option<Place>, AllocError>
        requires { Speaks (view self.old) note }
        ensures looked { IfOk result (λ place. Looked note space digest.now (view self.old) (view self.new) place) }
        ensures memory { OnErr result (WantsMemory (view self.old) (view self.new)) }
        ensures lawful { IsLawful (view self.old) (view self.new) }
        ensures ticks { Ticks 67 steps.old steps.new };

    /// Binds a digest to a record of its own, where it is not bound, and answers its only record. On its way it claims
    /// blocks of 5 words for a record and of 16 words for a subtrie, at most 997 words in all. `Full` where one of these
    /// claims was refused, with that claim's numbers; the digest stays as it was.
    ///
    /// It takes at most two exchanges a level, down to the level of the answer, and 126 where it is refused.
    fn bind<L: Ledger>(
        &mut self,
        note: Note,
        space: Space,
        digest: &Digest,
        steps: &mut Steps<L>,
    ) -> Result<Bound, PortError>
        requires { Speaks (view self.old) note }
        ensures bound { IfOk result (λ bound. BoundTo note space digest.now (view self.old) (view self.new) bound) }
        ensures stopped { IfErr result (BindRefused note (view self.old) (view self.new)) }
        ensures lawful { IsLawful (view self.old) (view self.new) }
        ensures ticks { MatchResult result (λ bound. Ticks (2 * (bound.level + 1)) steps.old steps.new) (λ _. Ticks 126 steps.old steps.new) };

    /// The value of a record's cell, which is 0 where nothing filled it.
    fn read(&mut self, note: Note, record_: Place) -> Result<u64, AllocError>
        requires speaks { Speaks (view self.old) note }
        requires bound { HasRecord (view self.old) record_ }
        ensures value { IfOk result (λ value. HasRead note record_ (view self.old) (view self.new) value) }
        ensures memory { OnErr result (WantsMemory (view self.old) (view self.new)) }
        ensures lawful { IsLawful (view self.old) (view self.new) };

    /// Claims a block of words, of which none is written. `Full` exactly where the block would pass the region's end from
    /// the place that the claim found.
    fn claim(&mut self, note: Note, words: u64) -> Result<Block, PortError>
        requires speaks { Speaks (view self.old) note }
        requires some { 0 < words }
        requires most { words ≤ 2162688 }
        ensures claimed { IfOk result (λ block. HasClaimed note words (view self.old) (view self.new) block) }
        ensures stopped { IfErr result (ClaimRefused note words (view self.old) (view self.new)) }
        ensures lawful { IsLawful (view self.old) (view self.new) };

    /// Writes the word at an index of a block that this port claimed. It adds no event.
    fn write(&mut self, block: &mut Block, index: u64, word: u64)
        requires opened { IsOpen (view self.old) block.old }
        requires index { index < block.old.length }
        ensures wrote { HasWritten (view self.old) (view self.new) block.old index word }
        ensures block { block.new ≡ block.old }
        ensures lawful { IsLawful (view self.old) (view self.new) };

    /// Fills the cell of an object's record with a block that is written whole, where the cell is 0. The block is given
    /// up, whatever comes.
    fn fill(&mut self, note: Note, record_: Place, block: Block) -> Result<Filled, AllocError>
        requires speaks { Speaks (view self.old) note }
        requires whole { IsWholeFill note record_ (view self.old) block }
        ensures filled { IfOk result (λ filled. HasFilled note record_ (view self.old) (view self.new) block filled) }
        ensures memory { OnErr result (Abandons (view self.old) (view self.new) block) }
        ensures lawful { IsLawful (view self.old) (view self.new) };

    /// Fills the cell of an action's record with the record of an object, where the cell is 0.
    fn fill_place(&mut self, note: Note, record_: Place, value: Place) -> Result<Filled, AllocError>
        requires speaks { Speaks (view self.old) note }
        requires lawful { IsPlaceFill record_ (view self.old) value }
        ensures filled { IfOk result (λ filled. HasFilledPlace note record_ (view self.old) (view self.new) value filled) }
        ensures memory { OnErr result (WantsMemory (view self.old) (view self.new)) }
        ensures lawful { IsLawful (view self.old) (view self.new) };

    /// One of the four words of a bound record's digest, or a word of a content that was published. These words never
    /// change, and reading one adds no event.
    fn word(&mut self, place: Place, index: u64) -> u64
        requires { HasWord (view self.old) place index }
        ensures word { WordIs (view self.old) place index result }
        ensures same { view self.new ≡ view self.old }
        ensures lawful { IsLawful (view self.old) (view self.new) };
}
