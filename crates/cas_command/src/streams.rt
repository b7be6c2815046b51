// The numbers of the standard streams.
use std::fs::{File, OpenOptions};
use std::os::fd::AsRawFd;
use std::rt::Files;

/// Files that stand where standard streams are closed.
#[derive(Drop)]
pub struct Kept {
    _input: Option<File>,
    _output: Option<File>,
    _errors: Option<File>,
}

/// Takes the number of each standard stream that is closed, so that no file that is opened later gets it. The file that
/// stands there is opened the wrong way round, so reading the input and writing the others fail as they would.
pub fn keep_streams<R: Files<File = File>>(rt: &R) -> Kept {
    Kept {
        _input: keep(rt, false, 0),
        _output: keep(rt, true, 2),
        _errors: keep(rt, true, 2),
    }
}

// A file that can be read or written, and not both, where its number is at most this one.
fn keep<R: Files<File = File>>(rt: &R, reads: bool, most: i32) -> Option<File> {
    let opened = OpenOptions::new()
        .read(reads)
        .write(!reads)
        .open(rt, "/dev/null");
    match opened {
        Ok(file) if file.as_raw_fd() <= most => Some(file),
        _ => None,
    }
}
