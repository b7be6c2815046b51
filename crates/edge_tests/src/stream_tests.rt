// Each object once on its happy path, with the faults that its list plans, and the adapters over std's readers and writers.
ghost use Rattle.cas_outside.specs.Folder.{MayEnter};

use cas_model::Who;
use cas_outside::{
    Bytes, Failed, Folder, FolderError, Gate, MemSink, MemSource, Name, NoFolder, NoGate,
    ReadSource, Sink, Source, WriteSink,
};
use std::io::{self, ErrorKind, Read, Write};
use std::test::Fail;

// What one read of at most three bytes gives.
fn read_three<S: Source>(source: &mut S) -> (Result<usize, Failed>, [u8; 3]) {
    let mut into = [0; 3];
    let count = source.read(&mut into);
    (count, into)
}

#[test]
fn a_source_in_memory_gives_its_bytes(rt: HostRuntime) -> Result<(), Fail> {
    let mut source = MemSource::new(b"hello".to_vec(rt.alloc())?, [2, 4].to_vec(rt.alloc())?);
    let cases = [
        (Ok(3), *b"hel"),
        (Err(Failed), [0; 3]),
        (Ok(2), *b"lo\0"),
        (Err(Failed), [0; 3]),
        (Ok(0), [0; 3]),
    ];
    for (count, bytes) in cases {
        let (found, into) = read_three(&mut source);
        assert_eq!(rt; found, count);
        assert_eq!(rt; into, bytes);
    }
    Ok(())
}

#[test]
fn a_sink_in_memory_takes_what_it_may(rt: HostRuntime) -> Result<(), Fail> {
    let mut sink = MemSink::new(rt.alloc(), 6, 4, [2].to_vec(rt.alloc())?)?;
    let cases = [Ok(4), Err(Failed), Ok(2), Err(Failed)];
    for taken in cases {
        assert_eq!(rt; sink.write(b"hello"), taken);
    }
    assert_eq!(rt; sink.written(), b"hellhe".as_slice());
    Ok(())
}

#[test]
fn readers_and_writers_are_sources_and_sinks(rt: HostRuntime) -> Result<(), Fail> {
    let mut source = ReadSource::new(b"hello".as_slice());
    assert_eq!(rt; read_three(&mut source), (Ok(3), *b"hel"));
    assert_eq!(rt; read_three(&mut source), (Ok(2), *b"lo\0"));
    assert_eq!(rt; read_three(&mut source), (Ok(0), [0; 3]));
    let mut buffer = [0; 4];
    let mut sink = WriteSink::new(buffer.as_mut_slice());
    assert_eq!(rt; sink.write(b"hello"), Ok(4));
    assert_eq!(rt; sink.write(b"o"), Err(Failed));
    Ok(())
}

// A pipe of one byte. Every other call of it is interrupted.
#[derive(Drop)]
struct Trickle {
    byte: Option<u8>,
    interrupted: bool,
}

impl Trickle {
    // Whether this call is interrupted.
    fn interrupts(&mut self) -> bool {
        self.interrupted = !self.interrupted;
        self.interrupted
    }
}

impl Write for Trickle {
    fn write(&mut self, buf: &[u8]) -> io::Result<usize> {
        if self.interrupts() {
            return Err(ErrorKind::Interrupted.into());
        }
        self.byte = buf.first().copied();
        Ok(buf.len().min(1))
    }

    fn flush(&mut self) -> io::Result<()> {
        Ok(())
    }
}

impl Read for Trickle {
    fn read(&mut self, buf: &mut [u8]) -> io::Result<usize> {
        if self.interrupts() {
            return Err(ErrorKind::Interrupted.into());
        }
        match (self.byte.take(), buf.first_mut()) {
            (Some(byte), Some(into)) => {
                *into = byte;
                Ok(1)
            }
            _ => Ok(0),
        }
    }
}

#[test]
fn a_byte_at_a_time_is_taken_and_given(rt: HostRuntime) -> Result<(), Fail> {
    let mut pipe = Trickle {
        byte: None,
        interrupted: false,
    };
    let mut sink = WriteSink::new(&mut pipe);
    assert_eq!(rt; sink.write(b"hello"), Ok(1));
    assert_eq!(rt; sink.write(b"ello"), Ok(1));
    let mut source = ReadSource::new(&mut pipe);
    assert_eq!(rt; read_three(&mut source), (Ok(1), *b"e\0\0"));
    assert_eq!(rt; read_three(&mut source), (Ok(0), [0; 3]));
    Ok(())
}

// What no folder answers to `enter`.
fn entered<F: Folder>(folder: &mut F) -> Result<(), FolderError>
    requires { MayEnter (F.view folder.old) }
{
    folder.enter("store")
}

#[test]
fn names_bytes_and_no_folder(rt: HostRuntime) -> Result<(), Fail> {
    assert_eq!(rt; Name::of(rt.alloc(), b"v1.1")?.list(), b"v1.1".as_slice());
    assert_eq!(rt; Bytes::of(rt.alloc(), b"some")?.list(), b"some".as_slice());
    let mut folder = NoFolder::new();
    assert_eq!(rt; entered(&mut folder), Err(FolderError::Memory));
    let who = Who {
        session: 0,
        index: 0,
    };
    pass(&NoGate, who);
    Ok(())
}

// A call between the gate's two sides.
fn pass<G: Gate>(gate: &G, who: Who) {
    gate.before(who);
    gate.after(who);
}
