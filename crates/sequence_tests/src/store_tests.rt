// A store that lasts: commands over one folder in memory, with ids that another implementation of SHA-256 computed.
ghost use Rattle.std.specs.Prelude.{◌≡◌, None, IfOk};

use cas_command::Answer;
use cas_model::{Digest, Id};
use cas_outside::MemFolder;
use image_file::ImageError;
use run_fixtures::{
    EMPTY, End, HELLO, ZERO, end_in, folder_failing, fresh_folder, nothing, run_failing, run_in,
    tells, writes,
};
use std::alloc::Global;
use std::test::Fail;
use test_fixtures::{ABSENT, hashed, hashed_key};

// The id of a digest, without a line end.
fn id_of(alloc: Global, digest: Digest) -> Result<String, Fail> {
    let text = Id { digest }.text(alloc)?;
    String::from_utf8(text).map_err(|_| "an id is a text".into())
}

// How many bytes the first generation's file has.
fn length_of(folder: &MemFolder) -> Option<usize> {
    folder.file(b"v1.1").map(|bytes| bytes.len())
}

// Whether a blob of these bytes is made, with this id.
fn makes(rt: &HostRuntime, folder: &mut MemFolder, data: &[u8], id: &str) -> Result<bool, Fail>
    requires { folder.old.asked ≡ None }
    ensures { folder.new.asked ≡ None }
{
    writes(rt, folder, &["--make-blob"], data, id.as_bytes())
}

#[test]
fn a_blob_is_saved_and_read_back(rt: HostRuntime) -> Result<(), Fail> {
    let mut folder = fresh_folder(rt.alloc());
    assert!(rt; makes(&rt, &mut folder, b"", EMPTY)?);
    assert_eq!(rt; length_of(&folder), Some(4_240));
    assert!(rt; makes(&rt, &mut folder, b"hello", HELLO)?);
    let words = ["--cat-node-data", HELLO.trim_end()];
    assert!(rt; writes(&rt, &mut folder, &words, b"", b"hello")?);
    Ok(())
}

#[test]
fn what_is_stored_is_not_saved_again(rt: HostRuntime) -> Result<(), Fail> {
    // The second run enters, locks, lists and reads, and its next call would fail.
    let mut folder = folder_failing(rt.alloc(), &[9])?;
    assert!(rt; makes(&rt, &mut folder, b"hello", HELLO)?);
    assert_eq!(rt; length_of(&folder), Some(4_248));
    assert!(rt; makes(&rt, &mut folder, b"hello", HELLO)?);
    assert_eq!(rt; length_of(&folder), Some(4_248));
    Ok(())
}

#[test]
fn nodes_refer_to_what_is_there(rt: HostRuntime) -> Result<(), Fail> {
    let mut folder = fresh_folder(rt.alloc());
    let empty = EMPTY.trim_end();
    assert!(rt; makes(&rt, &mut folder, b"", EMPTY)?);
    assert!(rt; makes(&rt, &mut folder, b"hello", HELLO)?);
    let node = id_of(rt.alloc(), hashed(&[hashed(&[], b"")], b"hello"))?;
    let line = format!(in rt.alloc(); "{node}\n")?;
    assert!(rt; line.as_str() != HELLO);
    let words = ["--make-node", empty];
    assert!(rt; writes(&rt, &mut folder, &words, b"hello", line.as_bytes())?);
    // Records of five words, and contents of one, two and three words.
    assert_eq!(rt; length_of(&folder), Some(4_360));
    let dangling = Answer::Dangling {
        index: 1,
        digest: ABSENT,
    };
    let words = ["--make-node", empty, ZERO];
    assert_eq!(rt;
        end_in(&rt, &mut folder, &words, b"x")?,
        nothing(9, dangling)
    );
    assert_eq!(rt; length_of(&folder), Some(4_360));
    Ok(())
}

#[test]
fn the_references_of_a_node_are_listed(rt: HostRuntime) -> Result<(), Fail> {
    let mut folder = fresh_folder(rt.alloc());
    let empty = EMPTY.trim_end();
    assert!(rt; makes(&rt, &mut folder, b"", EMPTY)?);
    let words = ["--make-node", empty, empty, empty];
    assert_eq!(rt; end_in(&rt, &mut folder, &words, b"")?.status, 0);
    let leaf = hashed(&[], b"");
    let three = id_of(rt.alloc(), hashed(&[leaf, leaf, leaf], b""))?;
    let wanted = format!(in rt.alloc(); "{EMPTY}{EMPTY}{EMPTY}")?;
    let words = ["--ls-node-refs", &three];
    assert!(rt; writes(&rt, &mut folder, &words, b"", wanted.as_bytes())?);
    Ok(())
}

#[test]
fn what_is_not_there_saves_nothing(rt: HostRuntime) -> Result<(), Fail> {
    let mut folder = fresh_folder(rt.alloc());
    let missing = end_in(&rt, &mut folder, &["--cat-node-data", ZERO], b"")?;
    assert_eq!(rt; missing, nothing(1, Answer::Missing(ABSENT)));
    assert_eq!(rt; length_of(&folder), None);
    assert!(rt; tells(&rt, &mut folder, b"")?);
    Ok(())
}

// The digests of the objects with the data `a` and `b`.
fn values() -> (Digest, Digest) {
    (hashed(&[], b"a"), hashed(&[], b"b"))
}

// How a put of `action:k` with the id of this digest ends.
fn put_in(rt: &HostRuntime, folder: &mut MemFolder, value: Digest) -> Result<End, Fail>
    requires { folder.old.asked ≡ None }
    ensures { folder.new.asked ≡ None }
{
    let id = id_of(rt.alloc(), value)?;
    end_in(rt, folder, &["--put-cache-key", "action:k", &id], b"")
}

#[test]
fn a_key_keeps_its_first_value(rt: HostRuntime) -> Result<(), Fail> {
    let mut folder = fresh_folder(rt.alloc());
    let (a, b) = values();
    run_in(&rt, &mut folder, &["--make-blob"], b"a")?;
    run_in(&rt, &mut folder, &["--make-blob"], b"b")?;
    // The word `kept`, a space, the id and the line end.
    let kept = End {
        status: 0,
        answer: Answer::Done,
        written: 80,
    };
    assert_eq!(rt; put_in(&rt, &mut folder, a)?, kept);
    let poisoned = Answer::Poisoned { wanted: b, kept: a };
    assert_eq!(rt; put_in(&rt, &mut folder, b)?, nothing(8, poisoned));
    let id = id_of(rt.alloc(), a)?;
    let line = format!(in rt.alloc(); "{id}\n")?;
    let words = ["--get-cache-result", "action:k"];
    assert!(rt; writes(&rt, &mut folder, &words, b"", line.as_bytes())?);
    let dangling = Answer::Dangling {
        index: 0,
        digest: ABSENT,
    };
    assert_eq!(rt; put_in(&rt, &mut folder, ABSENT)?, nothing(9, dangling));
    assert!(rt; tells(&rt, &mut folder, b"valid v1.1 2 1\n")?);
    Ok(())
}

#[test]
fn a_value_is_told_as_its_id(rt: HostRuntime) -> Result<(), Fail> {
    let mut folder = fresh_folder(rt.alloc());
    run_in(&rt, &mut folder, &["--make-blob"], b"a")?;
    let id = id_of(rt.alloc(), values().0)?;
    let wanted = format!(in rt.alloc(); "kept {id}\n")?;
    let words = ["--put-cache-key", "action:k", &id];
    assert!(rt; writes(&rt, &mut folder, &words, b"", wanted.as_bytes())?);
    let wanted = format!(in rt.alloc(); "{id}\n")?;
    let words = ["--get-cache-result", "action:k"];
    assert!(rt; writes(&rt, &mut folder, &words, b"", wanted.as_bytes())?);
    Ok(())
}

// How a check ends of an image of which so many bytes are left.
fn refusal_of(rt: &HostRuntime, image: &[u8], left: usize) -> Result<End, Fail> {
    let mut folder = fresh_folder(rt.alloc());
    folder.set_file(b"v1.1", &image[..left.min(image.len())])?;
    end_in(rt, &mut folder, &["--validate"], b"")
}

// The image of a store of one blob.
fn image_with(rt: &HostRuntime, data: &[u8]) -> Result<Vec<u8>, Fail> {
    let mut folder = fresh_folder(rt.alloc());
    run_in(rt, &mut folder, &["--make-blob"], data)?;
    let image = folder.file(b"v1.1").ok_or("an image")?;
    Ok(image.to_vec(rt.alloc())?)
}

#[test]
fn a_damaged_image_is_refused_by_name(rt: HostRuntime) -> Result<(), Fail> {
    let damaged = |error| nothing(6, Answer::Damaged { name: 1, error });
    let hello = image_with(&rt, b"hello")?;
    let ragged = refusal_of(&rt, &hello, 4_247)?;
    assert_eq!(rt; ragged, damaged(ImageError::Ragged));
    let empty = image_with(&rt, b"")?;
    let short = refusal_of(&rt, &empty, 4_191)?;
    assert_eq!(rt; short, damaged(ImageError::Short));
    Ok(())
}

// The sum of an image's words, which its last 32 bytes should be.
fn sum_of(image: &[u8]) -> Digest {
    hashed_key(&image[..image.len().saturating_sub(32)])
}

#[test]
fn a_flipped_bit_of_an_action_is_told_by_both_sums(rt: HostRuntime) -> Result<(), Fail> {
    let mut folder = fresh_folder(rt.alloc());
    run_in(&rt, &mut folder, &["--make-blob"], b"a")?;
    run_in(&rt, &mut folder, &["--make-blob"], b"b")?;
    put_in(&rt, &mut folder, values().0)?;
    let mut image = folder.file(b"v1.1").ok_or("an image")?.to_vec(rt.alloc())?;
    // Two objects have seven words each, and the action five, of which the last one is the cell.
    assert_eq!(rt; image.len(), 4_344);
    let kept = sum_of(&image);
    if let Some(byte) = image.get_mut(4_304) {
        *byte ^= 1;
    }
    let error = ImageError::Sum {
        kept,
        found: sum_of(&image),
    };
    let damaged = nothing(6, Answer::Damaged { name: 1, error });
    assert_eq!(rt; refusal_of(&rt, &image, 4_344)?, damaged);
    Ok(())
}

#[test]
fn each_fault_of_the_folder_is_answered(rt: HostRuntime) -> Result<(), Fail> {
    let fault = nothing(5, Answer::FolderFault);
    // A first run enters, locks, lists and saves; a second one enters, locks, lists, reads and saves.
    for call in 1..5 {
        let mut folder = folder_failing(rt.alloc(), &[call])?;
        let end = end_in(&rt, &mut folder, &["--make-blob"], b"hello")?;
        assert_eq!(rt; (end, length_of(&folder)), (fault, None));
    }
    for call in 5..10 {
        let mut folder = folder_failing(rt.alloc(), &[call])?;
        run_in(&rt, &mut folder, &["--make-blob"], b"hello")?;
        let end = end_in(&rt, &mut folder, &["--make-blob"], b"other")?;
        assert_eq!(rt; (end, length_of(&folder)), (fault, Some(4_248)));
    }
    Ok(())
}

#[test]
fn a_held_folder_is_left_alone(rt: HostRuntime) -> Result<(), Fail> {
    let mut held = MemFolder::new(Vec::new(rt.alloc()), [2].to_vec(rt.alloc())?);
    let end = end_in(&rt, &mut held, &["--make-blob"], b"hello")?;
    assert_eq!(rt; (end, length_of(&held)), (nothing(11, Answer::Held), None));
    Ok(())
}

#[test]
fn what_was_stored_stays_where_the_output_fails(rt: HostRuntime) -> Result<(), Fail> {
    let mut folder = fresh_folder(rt.alloc());
    let end = run_failing(&rt, &mut folder, &["--make-blob"], b"hello", &[], &[1])?.end();
    assert_eq!(rt; end, nothing(4, Answer::WriteFault));
    assert_eq!(rt; length_of(&folder), Some(4_248));
    Ok(())
}

#[test]
fn the_folder_is_not_entered_where_the_input_fails(rt: HostRuntime) -> Result<(), Fail> {
    // The folder's first call would fail.
    let mut folder = folder_failing(rt.alloc(), &[1])?;
    let end = run_failing(&rt, &mut folder, &["--make-blob"], b"hello", &[1], &[])?.end();
    assert_eq!(rt; end, nothing(3, Answer::ReadFault));
    Ok(())
}

#[test]
fn other_names_are_ignored(rt: HostRuntime) -> Result<(), Fail> {
    let mut folder = fresh_folder(rt.alloc());
    assert!(rt; makes(&rt, &mut folder, b"", EMPTY)?);
    folder.set_file(b"v1.0", b"any")?;
    folder.set_file(b"v1.01", b"any")?;
    folder.set_file(b"v2", b"any")?;
    folder.set_file(b"notes", b"any")?;
    assert!(rt; tells(&rt, &mut folder, b"valid v1.1 1 0\n")?);
    Ok(())
}

// A folder with two generations that are read and three that are not, of whose calls these fail, and these find the
// lock held.
fn folder_with(rt: &HostRuntime, failing: &[u64], held: &[u64]) -> Result<MemFolder, Fail>
    ensures { IfOk result (λ folder. folder.asked ≡ None) }
{
    let image = image_with(rt, b"hello")?;
    let mut folder = MemFolder::new(failing.to_vec(rt.alloc())?, held.to_vec(rt.alloc())?);
    folder.set_file(b"v1.12", &image)?;
    folder.set_file(b"v1.9", &image)?;
    folder.set_file(b"v1.8", b"any")?;
    folder.set_file(b"v1.2", b"any")?;
    folder.set_file(b"v1.1", b"any")?;
    folder.set_file(b"v1.01", b"any")?;
    folder.set_file(b"notes", b"any")?;
    Ok(folder)
}

// Whether the folder has the three generations that are not read, from the lowest.
fn unused_in(folder: &MemFolder) -> [bool; 3] {
    [b"v1.1".as_slice(), b"v1.2".as_slice(), b"v1.8".as_slice()].map(|name| folder
        .file(name)
        .is_some())
}

#[test]
fn unused_generations_are_removed(rt: HostRuntime) -> Result<(), Fail> {
    let mut folder = folder_with(&rt, &[], &[])?;
    assert!(rt; writes(&rt, &mut folder, &["--prune"], b"", b"pruned 3\n")?);
    assert_eq!(rt; unused_in(&folder), [false, false, false]);
    assert!(rt; folder.file(b"v1.01").is_some());
    assert!(rt; folder.file(b"notes").is_some());
    assert!(rt; tells(&rt, &mut folder, b"valid v1.12 1 0\nvalid v1.9 1 0\n")?);
    let words = ["--prune", "--limit", "0", "--workers", "2"];
    assert!(rt; writes(&rt, &mut folder, &words, b"", b"pruned 0\n")?);
    Ok(())
}

#[test]
fn a_prune_of_no_generations_removes_none(rt: HostRuntime) -> Result<(), Fail> {
    let mut folder = fresh_folder(rt.alloc());
    assert!(rt; writes(&rt, &mut folder, &["--prune"], b"", b"pruned 0\n")?);
    Ok(())
}

#[test]
fn a_fault_leaves_what_is_not_removed_yet(rt: HostRuntime) -> Result<(), Fail> {
    // A removal enters, locks and lists, and then removes the lowest first.
    let cases: [(u64, [bool; 3]); 6] = [
        (1, [true, true, true]),
        (2, [true, true, true]),
        (3, [true, true, true]),
        (4, [true, true, true]),
        (5, [false, true, true]),
        (6, [false, false, true]),
    ];
    for (call, left) in cases {
        let mut folder = folder_with(&rt, &[call], &[])?;
        let end = end_in(&rt, &mut folder, &["--prune"], b"")?;
        assert_eq!(rt; end, nothing(5, Answer::FolderFault));
        assert_eq!(rt; unused_in(&folder), left);
    }
    Ok(())
}

#[test]
fn a_held_folder_is_not_pruned(rt: HostRuntime) -> Result<(), Fail> {
    let mut held = folder_with(&rt, &[], &[2])?;
    let end = end_in(&rt, &mut held, &["--prune"], b"")?;
    assert_eq!(rt; end, nothing(11, Answer::Held));
    assert_eq!(rt; unused_in(&held), [true, true, true]);
    Ok(())
}
