// The claims of blocks.
ghost use Rattle.std.specs.Prelude.{◌≡◌, ◌+◌, ◌<◌, ◌≤◌, IfOk, IfErr};
ghost use Rattle.region_words.specs.Moves.{counter_limit};
ghost use Rattle.region_words.specs.Numbers.{own_number};
ghost use Rattle.region_words.specs.Rule.{origin};
ghost use Rattle.region_words.specs.Running.{after};
ghost use Rattle.region_words.specs.declared.hold.Hold.TheVariants.{Caller, Bind};
ghost use Rattle.bump_arena.specs.Claims.{Claims, Refuses};

use cas_model::{Full, Note, Place};
use cas_port::Block;
use region_words::{Hold, Region, RegionSeat};

// Loads the counter, and adds to it only where there was room. Where another claim came in between, the addition may
// find that there is none any more.
fn claim_held(
    region: &Region,
    seat: &mut RegionSeat,
    hold: Hold,
    note: Note,
    words: u64,
) -> Result<Block, Full>
    requires own { seat.old.table_id ≡ region.now.table_id }
    requires session { note.who.session ≡ own_number seat.old.view }
    requires words { (1 ≤ words) × (words ≤ 2162688) }
    ensures own { seat.new.table_id ≡ seat.old.table_id }
    ensures limit { (after (origin region.now.key) seat.new.view.seen).counter ≤ counter_limit (origin region.now.key).start.size }
    ensures ok { IfOk result (λ block. Claims (origin region.now.key) hold note words seat.old.view seat.new.view block) }
    ensures err { IfErr result (λ full. Refuses (origin region.now.key) note words seat.old.view seat.new.view full) }
{
    let size = region.size();
    let at = region.load_counter(seat, note, words);
    if at + words > size {
        return Err(Full {
            at,
            asked: words,
            size,
        });
    }
    let place = region.add_to_counter(seat, hold, note, words);
    if place + words > size {
        return Err(Full {
            at: place,
            asked: words,
            size,
        });
    }
    Ok(Block::of(Place { at: place }, words))
}

/// Claims a block of so many words at the region's counter, for the seat's caller. `Full` where it would pass the
/// region's end, with the numbers that were found there: a claim that a load of the counter refuses has not moved it, and
/// one that comes too late has. No session moves it past the end twice, so the counter never passes the size by more
/// than 65 times the largest claim.
pub fn claim(region: &Region, seat: &mut RegionSeat, note: Note, words: u64) -> Result<Block, Full>
    requires own { seat.old.table_id ≡ region.now.table_id }
    requires session { note.who.session ≡ own_number seat.old.view }
    requires words { (1 ≤ words) × (words ≤ 2162688) }
    ensures own { seat.new.table_id ≡ seat.old.table_id }
    ensures limit { (after (origin region.now.key) seat.new.view.seen).counter ≤ counter_limit (origin region.now.key).start.size }
    ensures ok { IfOk result (λ block. Claims (origin region.now.key) Caller note words seat.old.view seat.new.view block) }
    ensures err { IfErr result (λ full. Refuses (origin region.now.key) note words seat.old.view seat.new.view full) }
{
    claim_held(region, seat, Hold::Caller, note, words)
}

/// The same for a bind: the block is a record or a table of a trie, and no port shows it.
pub fn claim_for_bind(
    region: &Region,
    seat: &mut RegionSeat,
    note: Note,
    words: u64,
) -> Result<Block, Full>
    requires own { seat.old.table_id ≡ region.now.table_id }
    requires session { note.who.session ≡ own_number seat.old.view }
    requires words { (1 ≤ words) × (words ≤ 2162688) }
    ensures own { seat.new.table_id ≡ seat.old.table_id }
    ensures limit { (after (origin region.now.key) seat.new.view.seen).counter ≤ counter_limit (origin region.now.key).start.size }
    ensures ok { IfOk result (λ block. Claims (origin region.now.key) Bind note words seat.old.view seat.new.view block) }
    ensures err { IfErr result (λ full. Refuses (origin region.now.key) note words seat.old.view seat.new.view full) }
{
    claim_held(region, seat, Hold::Bind, note, words)
}
