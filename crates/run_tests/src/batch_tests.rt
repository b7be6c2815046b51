// Batches and workloads over a folder in memory.
ghost use Rattle.std.specs.Prelude.{◌≡◌, None};

use cas_model::{Digest, Id};
use cas_outside::MemFolder;
use run_fixtures::{folder_failing, fresh_folder, run_in, tells, writes};
use std::alloc::{AllocError, Global};
use std::test::Fail;
use test_fixtures::hashed;

// How many lines of an output have this word after the line's number.
fn count_of(output: &[u8], word: &[u8]) -> usize {
    output
        .split(|byte| *byte == b'\n')
        .filter(|line| line.split(|byte| *byte == b' ').nth(1) == Some(word))
        .count()
}

// The script of eight sessions that make 100 steps together, and find the others made.
fn steps_script(alloc: Global) -> Result<String, AllocError> {
    let mut text = String::new(alloc);
    for session in 0_u32..8 {
        text.push_str("session\n")?;
        for header in 0_u32..4 {
            text.push_str(format!(in alloc; "store t:header-{header}\n")?.as_str())?;
        }
        for line in 0_u32..40 {
            let step = (40 * session + line) % 100;
            let line = format!(in alloc; "act action:step-{step} t:out-{step} %1 %2 %3 %4\n")?;
            text.push_str(line.as_str())?;
        }
    }
    Ok(text)
}

// How many lines of an output say that something was stored, made or hit.
fn told_in(output: &[u8]) -> [usize; 3] {
    [
        count_of(output, b"stored"),
        count_of(output, b"made"),
        count_of(output, b"hit"),
    ]
}

// How a run of this script as a batch with one worker ends, and how many lines it tells of each kind.
fn run_steps(
    rt: &HostRuntime,
    folder: &mut MemFolder,
    script: &str,
) -> Result<(u8, [usize; 3]), Fail>
    requires { folder.old.asked ≡ None }
    ensures { folder.new.asked ≡ None }
{
    let words = ["--batch", "--workers", "1", "--limit", "8388608"];
    let ran = run_in(rt, folder, &words, script.as_bytes())?;
    Ok((ran.status, told_in(ran.sink.written())))
}

#[test]
fn a_second_run_hits_what_the_first_made(rt: HostRuntime) -> Result<(), Fail> {
    // The second run enters, locks, lists and reads, and its next call would fail.
    let mut folder = folder_failing(rt.alloc(), &[9])?;
    let script = steps_script(rt.alloc())?;
    let first = run_steps(&rt, &mut folder, &script)?;
    assert_eq!(rt; first, (0, [32, 100, 220]));
    let second = run_steps(&rt, &mut folder, &script)?;
    assert_eq!(rt; second, (0, [32, 0, 320]));
    Ok(())
}

#[test]
fn sessions_make_each_step_once(rt: HostRuntime) -> Result<(), Fail> {
    let mut folder = fresh_folder(rt.alloc());
    let script = steps_script(rt.alloc())?;
    run_steps(&rt, &mut folder, &script)?;
    assert!(rt; tells(&rt, &mut folder, b"valid v1.1 104 100\n")?);
    Ok(())
}

// The script of 64 sessions that store the same 100 objects.
fn objects_script(alloc: Global) -> Result<String, AllocError> {
    let mut text = String::new(alloc);
    for _ in 0..64 {
        text.push_str("session\n")?;
        for number in 0_u32..100 {
            text.push_str(format!(in alloc; "store t:obj-{number}\n")?.as_str())?;
        }
    }
    Ok(text)
}

// How a run of this script with so many workers ends, and how many lines it tells of each kind.
fn run_objects(
    rt: &HostRuntime,
    folder: &mut MemFolder,
    workers: &str,
    script: &str,
) -> Result<(u8, [usize; 3]), Fail>
    requires { folder.old.asked ≡ None }
    ensures { folder.new.asked ≡ None }
{
    let words = ["--batch", "--workers", workers, "--size", "8388608"];
    let ran = run_in(rt, folder, &words, script.as_bytes())?;
    Ok((ran.status, told_in(ran.sink.written())))
}

#[test]
fn sixty_four_sessions_store_the_same(rt: HostRuntime) -> Result<(), Fail> {
    let mut folder = fresh_folder(rt.alloc());
    let script = objects_script(rt.alloc())?;
    let one = run_objects(&rt, &mut folder, "1", &script)?;
    assert_eq!(rt; one, (0, [6_400, 0, 0]));
    assert!(rt; tells(&rt, &mut folder, b"valid v1.1 100 0\n")?);
    let many = run_objects(&rt, &mut folder, "64", &script)?;
    assert_eq!(rt; many, (0, [6_400, 0, 0]));
    Ok(())
}

#[test]
fn sessions_in_turn_see_what_came_before(rt: HostRuntime) -> Result<(), Fail> {
    let x = Id {
        digest: hashed(&[], b"x"),
    };
    let y = Id {
        digest: hashed(&[], b"y"),
    };
    let mut script = b"session\nstore t:x\nload ".to_vec(rt.alloc())?;
    script.extend_from_slice(&y.text(rt.alloc())?)?;
    script.extend_from_slice(b"\nsession\nstore t:y\nload ")?;
    script.extend_from_slice(&x.text(rt.alloc())?)?;
    let mut folder = fresh_folder(rt.alloc());
    let ran = run_in(&rt, &mut folder, &["--batch", "--workers", "2"], &script)?;
    assert_eq!(rt; ran.status, 0);
    assert_eq!(rt; count_of(ran.sink.written(), b"missing"), 1);
    assert_eq!(rt; count_of(ran.sink.written(), b"found"), 1);
    Ok(())
}

#[test]
fn a_workload_goes_on_from_the_last(rt: HostRuntime) -> Result<(), Fail> {
    let mut folder = fresh_folder(rt.alloc());
    let want = b"workload 1: sessions 8, lines 40, full 0, objects 7, actions 3\n".as_slice();
    let words = ["--workload", "1"];
    assert!(rt; writes(&rt, &mut folder, &words, b"", want)?);
    assert!(rt; writes(&rt, &mut folder, &words, b"", want)?);
    assert!(rt; tells(&rt, &mut folder, b"valid v1.1 7 3\n")?);
    Ok(())
}
