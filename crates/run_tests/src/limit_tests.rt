// The largest blob, a store that is full, and a script with lines that do not fit.
ghost use Rattle.std.specs.Prelude.{◌≡◌, None};

use cas_command::{Answer, Large};
use cas_model::Full;
use cas_outside::{MemFolder, MemSink, MemSource};
use run_fixtures::{End, end_in, folder_failing, fresh_folder, nothing, run_over, tells, writes};
use std::alloc::Global;
use std::test::Fail;

// The id of the object with 16,777,215 letters a, with a line end.
const MOST: &str = "llvmcas://9c7b2683eab546699ecf72b99333ff169605686b5de0f6c33e4c2a4521323965\n";

// The id of the object with 28,560 letters a.
const LEAST: &str = "llvmcas://5e84e38fa5859903b5ea9bd2ab722b60342cfd82454c2f73756bdd15eb794887";

// What a script writes of which the first line does not fit, and the second one stores `ok`.
const TOLD: &str =
    "0.1 full 4185189 10001 4194304\n0.2 stored llvmcas://17fd6816e3cc4daf272955b24f354a65a3431324a9d5fc72fb65bc6c3987055c\n";

// So many bytes, all the same.
fn bytes_of(alloc: Global, byte: u8, count: usize) -> Result<Vec<u8>, Fail> {
    Ok(vec![in alloc; byte; count]?)
}

// How many bytes the first generation's file has.
fn length_of(folder: &MemFolder) -> Option<usize> {
    folder.file(b"v1.1").map(|bytes| bytes.len())
}

// A sink with room for so many bytes, of which it takes up to 65,536 at a time.
fn sink_for(alloc: Global, count: u64) -> Result<MemSink, Fail> {
    Ok(MemSink::new(alloc, count, 65_536, Vec::new(alloc))?)
}

#[test]
fn the_largest_blob_is_read_back(rt: HostRuntime) -> Result<(), Fail> {
    let mut folder = fresh_folder(rt.alloc());
    let most = bytes_of(rt.alloc(), b'a', 16_777_215)?;
    assert!(rt; writes(&rt, &mut folder, &["--make-blob"], &most, MOST.as_bytes())?);
    assert_eq!(rt; length_of(&folder), Some(16_781_456));
    let source = MemSource::new(Vec::new(rt.alloc()), Vec::new(rt.alloc()));
    let sink = sink_for(rt.alloc(), 16_777_215)?;
    let words = ["--cat-node-data", MOST.trim_end()];
    assert!(rt; run_over(&rt, &mut folder, &words, source, sink)?.wrote(&most));
    Ok(())
}

#[test]
fn one_byte_more_is_too_large(rt: HostRuntime) -> Result<(), Fail> {
    // The folder is not asked for anything: its first call would fail.
    let mut folder = folder_failing(rt.alloc(), &[1])?;
    let over = bytes_of(rt.alloc(), b'a', 16_777_216)?;
    let large = Answer::TooLarge {
        what: Large::Data,
        number: 16_777_216,
    };
    let end = end_in(&rt, &mut folder, &["--make-blob"], &over)?;
    assert_eq!(rt; end, nothing(12, large));
    Ok(())
}

// How `--make-blob` on so many letters a ends, where a region that is made has so many words.
fn make_letters(
    rt: &HostRuntime,
    folder: &mut MemFolder,
    size: &str,
    count: usize,
) -> Result<End, Fail>
    requires { folder.old.asked ≡ None }
    ensures { folder.new.asked ≡ None }
{
    let bytes = bytes_of(rt.alloc(), b'a', count)?;
    end_in(rt, folder, &["--make-blob", "--size", size], &bytes)
}

// The end of a run one of whose claims was refused in a region of 4,096 words.
fn full(at: u64, asked: u64) -> End {
    let size = 4_096;
    nothing(7, Answer::Full(Full { at, asked, size }))
}

#[test]
fn a_full_store_loses_nothing_and_goes_on(rt: HostRuntime) -> Result<(), Fail> {
    let mut folder = fresh_folder(rt.alloc());
    let over = make_letters(&rt, &mut folder, "4096", 28_568)?;
    assert_eq!(rt; (over, length_of(&folder)), (full(525, 3_572), None));
    let least = make_letters(&rt, &mut folder, "4096", 28_560)?;
    assert_eq!(rt; (least.status, length_of(&folder)), (0, Some(32_800)));
    // The primary keeps its size, and the new generation has the one that is asked for.
    let more = make_letters(&rt, &mut folder, "5000", 1)?;
    assert_eq!(rt; more, full(4_096, 5));
    assert!(rt; tells(&rt, &mut folder, b"valid v1.2 0 0\nvalid v1.1 1 0\n")?);
    Ok(())
}

#[test]
fn a_new_generation_brings_over_what_filled_the_last(rt: HostRuntime) -> Result<(), Fail> {
    let mut folder = fresh_folder(rt.alloc());
    make_letters(&rt, &mut folder, "4096", 28_560)?;
    make_letters(&rt, &mut folder, "5000", 1)?;
    let least = bytes_of(rt.alloc(), b'a', 28_560)?;
    let words = ["--cat-node-data", LEAST];
    assert!(rt; writes(&rt, &mut folder, &words, b"", &least)?);
    assert!(rt; tells(&rt, &mut folder, b"valid v1.2 1 0\nvalid v1.1 1 0\n")?);
    Ok(())
}

// The status of `--make-blob` on so many bytes, all the same.
fn make_blob(rt: &HostRuntime, folder: &mut MemFolder, byte: u8, count: usize) -> Result<u8, Fail>
    requires { folder.old.asked ≡ None }
    ensures { folder.new.asked ≡ None }
{
    let bytes = bytes_of(rt.alloc(), byte, count)?;
    Ok(end_in(rt, folder, &["--make-blob"], &bytes)?.status)
}

// The script that stores an object of so many bytes, all the same, and then a small one.
fn large_and_small(alloc: Global, byte: u8, count: usize) -> Result<Vec<u8>, Fail> {
    let mut script = b"session\nstore t:".to_vec(alloc)?;
    script.extend_from_slice(&bytes_of(alloc, byte, count)?)?;
    script.extend_from_slice(b"\nstore t:ok\n")?;
    Ok(script)
}

#[test]
fn lines_that_do_not_fit_are_told(rt: HostRuntime) -> Result<(), Fail> {
    let mut folder = fresh_folder(rt.alloc());
    assert_eq!(rt; make_blob(&rt, &mut folder, b'a', 16_777_215)?, 0);
    assert_eq!(rt; make_blob(&rt, &mut folder, b'b', 16_700_000)?, 0);
    // The words so far are 520, then 5 and 2,097,153, and 5 and 2,087,501. The line's record fits, and its content does not.
    assert_eq!(rt; length_of(&folder), Some(33_481_504));
    let script = large_and_small(rt.alloc(), b'c', 80_000)?;
    assert!(rt; writes(&rt, &mut folder, &["--batch"], &script, TOLD.as_bytes())?);
    assert!(rt; tells(&rt, &mut folder, b"valid v1.2 0 0\nvalid v1.1 3 0\n")?);
    Ok(())
}
