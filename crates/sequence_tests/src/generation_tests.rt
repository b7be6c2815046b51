// A store that goes on in new generations, over a folder in memory.
ghost use Rattle.std.specs.Prelude.{◌≡◌, None, IfOk};

use cas_command::Answer;
use cas_outside::MemFolder;
use image_file::ImageError;
use run_fixtures::{HELLO, end_in, folder_failing, fresh_folder, nothing, run_in, tells, writes};
use std::alloc::{AllocError, Global};
use std::test::Fail;

// The id of the last object of the spine, as another implementation of SHA-256 computed it.
const ROOT: &str = "llvmcas://80fa7f8ba6f9c34e747738ba7f6393b0c11210a6900c65e0693a6be9a70b9797\n";

// What a script writes whose first line does not fit, and whose second one stores `ok`.
const FULL_AND_OK: &str =
    "0.1 full 525 3572 4096\n0.2 stored llvmcas://17fd6816e3cc4daf272955b24f354a65a3431324a9d5fc72fb65bc6c3987055c\n";

// The script that stores 500 leaves, a spine over them, and one object beside it, with an action for the spine's last object
// and one for that.
fn spine_script(alloc: Global) -> Result<String, AllocError> {
    let mut text = String::new(alloc);
    text.push_str("session\n")?;
    for leaf in 1_u32..501 {
        text.push_str(format!(in alloc; "store t:leaf-{leaf}\n")?.as_str())?;
    }
    text.push_str("store t:spine-1 %1\n")?;
    for part in 2_u32..501 {
        let below = 499 + part;
        let line = format!(in alloc; "store t:spine-{part} %{below} %{part}\n")?;
        text.push_str(line.as_str())?;
    }
    text.push_str("put action:root %1000\nstore t:lonely\nput action:lonely %1002\n")?;
    Ok(text)
}

// A folder whose first generation has the spine and the object beside it, under a second one that is empty.
fn folder_with_spine(rt: &HostRuntime) -> Result<MemFolder, Fail>
    ensures { IfOk result (λ folder. folder.asked ≡ None) }
{
    let mut folder = fresh_folder(rt.alloc());
    let script = spine_script(rt.alloc())?;
    run_in(
        rt,
        &mut folder,
        &["--batch", "--limit", "0"],
        script.as_bytes(),
    )?;
    Ok(folder)
}

#[test]
fn what_is_used_is_brought_over_with_its_tree(rt: HostRuntime) -> Result<(), Fail> {
    let mut folder = folder_with_spine(&rt)?;
    assert!(rt; tells(&rt, &mut folder, b"valid v1.2 0 0\nvalid v1.1 1001 2\n")?);
    let words = ["--get-cache-result", "action:root"];
    assert!(rt; writes(&rt, &mut folder, &words, b"", ROOT.as_bytes())?);
    assert!(rt; tells(&rt, &mut folder, b"valid v1.2 1000 1\nvalid v1.1 1001 2\n")?);
    // The state does not change now, and the limit alone makes a generation.
    let words = ["--get-cache-result", "--limit", "0", "action:root"];
    assert!(rt; writes(&rt, &mut folder, &words, b"", ROOT.as_bytes())?);
    assert!(rt; tells(&rt, &mut folder, b"valid v1.3 0 0\nvalid v1.2 1000 1\n")?);
    let words = ["--get-cache-result", "action:lonely"];
    let lost = end_in(&rt, &mut folder, &words, b"")?;
    assert_eq!(rt; (lost.status, lost.written), (1, 0));
    assert!(rt; writes(&rt, &mut folder, &["--prune"], b"", b"pruned 1\n")?);
    assert_eq!(rt; folder.file(b"v1.1").is_none(), true);
    Ok(())
}

#[test]
fn a_full_store_goes_on_in_a_new_generation(rt: HostRuntime) -> Result<(), Fail> {
    let mut folder = fresh_folder(rt.alloc());
    let mut script = b"session\nstore t:".to_vec(rt.alloc())?;
    script.extend_from_slice(&vec![in rt.alloc(); b'a'; count_of(28_568)]?)?;
    script.extend_from_slice(b"\nstore t:ok\n")?;
    let words = ["--batch", "--size", "4096"];
    assert!(rt; writes(&rt, &mut folder, &words, &script, FULL_AND_OK.as_bytes())?);
    assert!(rt; tells(&rt, &mut folder, b"valid v1.2 0 0\nvalid v1.1 1 0\n")?);
    Ok(())
}

// A number, as one that is not known before.
fn count_of(count: usize) -> usize {
    count
}

#[test]
fn a_failed_rotation_keeps_what_was_saved(rt: HostRuntime) -> Result<(), Fail> {
    // It enters, locks, lists and saves, and its next call fails.
    let mut folder = folder_failing(rt.alloc(), &[5])?;
    let words = ["--make-blob", "--limit", "0"];
    let fault = nothing(5, Answer::FolderFault);
    assert_eq!(rt; end_in(&rt, &mut folder, &words, b"hello")?, fault);
    assert_eq!(rt; folder.file(b"v1.2").is_none(), true);
    let words = ["--cat-node-data", HELLO.trim_end()];
    assert!(rt; writes(&rt, &mut folder, &words, b"", b"hello")?);
    Ok(())
}

#[test]
fn the_last_number_is_not_passed(rt: HostRuntime) -> Result<(), Fail> {
    let mut folder = fresh_folder(rt.alloc());
    run_in(&rt, &mut folder, &["--make-blob"], b"hello")?;
    let image = match folder.file(b"v1.1") {
        Some(bytes) => bytes.to_vec(rt.alloc())?,
        None => Vec::new(rt.alloc()),
    };
    folder.set_file(b"v1.4294967295", &image)?;
    let words = ["--make-blob", "--limit", "0"];
    assert_eq!(rt; end_in(&rt, &mut folder, &words, b"x")?.status, 0);
    assert!(rt;
        tells(
            &rt,
            &mut folder,
            b"valid v1.4294967295 2 0\nvalid v1.1 1 0\n"
        )?
    );
    Ok(())
}

#[test]
fn a_damaged_upstream_is_refused_by_name(rt: HostRuntime) -> Result<(), Fail> {
    let mut folder = fresh_folder(rt.alloc());
    let words = ["--make-blob", "--limit", "0"];
    run_in(&rt, &mut folder, &words, b"hello")?;
    folder.set_file(b"v1.1", b"short")?;
    let damaged = Answer::Damaged {
        name: 1,
        error: ImageError::Short,
    };
    let end = end_in(&rt, &mut folder, &["--make-blob"], b"x")?;
    assert_eq!(rt; end, nothing(6, damaged));
    Ok(())
}

#[test]
fn an_empty_primary_is_not_rotated(rt: HostRuntime) -> Result<(), Fail> {
    // Where nothing is stored, nothing is written.
    let mut folder = folder_failing(rt.alloc(), &[4])?;
    let words = ["--get-cache-result", "--limit", "0", "action:k"];
    let miss = end_in(&rt, &mut folder, &words, b"")?;
    assert_eq!(rt; (miss.status, miss.written), (1, 0));
    Ok(())
}
