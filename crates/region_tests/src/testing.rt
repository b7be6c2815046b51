// What the tests share.
ghost use Rattle.std.specs.Prelude.{◌≡◌, ◌≤◌, IfOk};
ghost use Rattle.region_words.specs.Rule.{first_view};

use bump_arena::claim;
use cas_model::{Full, Note, Stage, Who};
use cas_port::Block;
use frozen_store::Frozen;
use region_words::{Region, RegionSeat};
use std::alloc::{AllocError, Global};

/// A region of 4,096 words in which nothing is stored, and its first seat.
pub fn fresh_region(alloc: Global) -> Result<(Region, RegionSeat), AllocError>
    ensures { IfOk result (λ made. (made.1.table_id ≡ made.0.table_id) × (made.1.view ≡ first_view)) }
{
    let frozen = Frozen::empty(alloc, 4096)?;
    Region::of_frozen(alloc, &frozen, None)
}

/// A claim of the seat's first call.
pub fn claim_words(region: &Region, seat: &mut RegionSeat, words: u64) -> Result<Block, Full>
    requires own { seat.old.table_id ≡ region.now.table_id }
    requires words { (1 ≤ words) × (words ≤ 2162688) }
    ensures own { seat.new.table_id ≡ seat.old.table_id }
    ensures numbers { seat.new.view.numbers ≡ seat.old.view.numbers }
{
    let note = Note {
        who: Who {
            session: seat.number(),
            index: 0,
        },
        stage: Stage::Own,
    };
    claim(region, seat, note, words)
}

/// The place of a block, and 0 of a refused claim.
pub fn place_of(claimed: Result<Block, Full>) -> u64 {
    match claimed {
        Ok(block) => block.place().at,
        Err(_) => 0,
    }
}
