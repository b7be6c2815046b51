// Claims up to the end of a region, and a word that is written and read when the region is closed.
ghost use Rattle.std.specs.Prelude.{◌≡◌};

use crate::testing::{claim_words, fresh_region, place_of};
use cas_model::Full;
use region_words::Hold;
use std::test::Fail;

#[test]
fn a_claim_that_passes_the_end_is_refused(rt: HostRuntime) -> Result<(), Fail> {
    let (region, mut seat) = fresh_region(rt.alloc())?;
    let refused = Full {
        at: 520,
        asked: 3577,
        size: 4096,
    };
    assert_eq!(rt; claim_words(&region, &mut seat, 3577).err(), Some(refused));
    assert_eq!(rt; place_of(claim_words(&region, &mut seat, 3576)), 520);
    let at_the_end = Full {
        at: 4096,
        asked: 1,
        size: 4096,
    };
    assert_eq!(rt; claim_words(&region, &mut seat, 1).err(), Some(at_the_end));
    Ok(())
}

#[test]
fn blocks_lie_one_after_the_other(rt: HostRuntime) -> Result<(), Fail> {
    let (region, mut seat) = fresh_region(rt.alloc())?;
    assert_eq!(rt; place_of(claim_words(&region, &mut seat, 5)), 520);
    assert_eq!(rt; place_of(claim_words(&region, &mut seat, 16)), 525);
    assert_eq!(rt; place_of(claim_words(&region, &mut seat, 1)), 541);
    Ok(())
}
