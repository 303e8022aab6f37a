use crate::{
    Failed, Gate, HoldGate, MemorySink, MemorySource, NoGate, ReadStop, StdSink, StdSource,
    SteadySource, read_all, write_all,
};
use std::io::{self, ErrorKind, Read, Write};
use std::test::Fail;

const TEXT: &[u8] = b"mixedcells 1\n";

#[test]
fn sources_are_read_to_the_end(rt: HostRuntime) -> Result<(), Fail> {
    for piece in [1, 4, 13, 100] {
        assert!(rt; piece > 0);
        let bytes = TEXT.to_vec(rt.alloc())?;
        let mut source = MemorySource::new(bytes, piece, Vec::new(rt.alloc()));
        let read = read_all(rt.alloc(), &mut source)?;
        assert_eq!(rt; read.as_slice(), TEXT, "in pieces of {piece}");
    }
    let mut steady = SteadySource::new(TEXT.to_vec(rt.alloc())?);
    let read = read_all(rt.alloc(), &mut steady)?;
    assert_eq!(rt; read.as_slice(), TEXT);
    Ok(())
}

#[test]
fn input_past_the_limit(rt: HostRuntime) -> Result<(), Fail> {
    for (length, want) in [
        (16_777_216, Ok(16_777_216)),
        (16_777_217, Err(ReadStop::TooLong)),
    ] {
        let bytes = vec![in rt.alloc(); b'#'; length]?;
        let mut source = MemorySource::new(bytes, usize::MAX, Vec::new(rt.alloc()));
        let found = match read_all(rt.alloc(), &mut source) {
            Ok(read) => Ok(read.len()),
            Err(stop) => Err(stop),
        };
        assert_eq!(rt; found, want, "at {length} bytes");
    }
    Ok(())
}

#[test]
fn a_failed_read_leaves_the_bytes(rt: HostRuntime) -> Result<(), Fail> {
    let bytes = TEXT.to_vec(rt.alloc())?;
    let failing = [1].to_vec(rt.alloc())?;
    let mut source = MemorySource::new(bytes, 100, failing);
    let first = read_all(rt.alloc(), &mut source);
    assert_eq!(rt; first.err(), Some(ReadStop::Fault));
    let read = read_all(rt.alloc(), &mut source)?;
    assert_eq!(rt; read.as_slice(), TEXT);
    Ok(())
}

#[test]
fn sinks_take_pieces(rt: HostRuntime) -> Result<(), Fail> {
    let rows: [(usize, u64, &[u8], Result<(), Failed>); 4] = [
        (100, 0, TEXT, Ok(())),
        (13, 0, TEXT, Ok(())),
        (100, 3, b"mixedcel", Err(Failed)),
        (5, 0, b"mixed", Err(Failed)),
    ];
    for (room, failing, held, want) in rows {
        let failing = [failing].to_vec(rt.alloc())?;
        let made = MemorySink::new(rt.alloc(), room, 4, failing);
        let Ok(mut sink) = made else {
            return Err(Fail::from("out of memory"));
        };
        let found = write_all(&mut sink, TEXT);
        assert_eq!(rt; found, want, "with room for {room}");
        assert_eq!(rt; sink.bytes(), held, "with room for {room}");
    }
    Ok(())
}

#[test]
fn std_ends_in_memory(rt: HostRuntime) -> Result<(), Fail> {
    let mut source = StdSource::new(TEXT);
    let read = read_all(rt.alloc(), &mut source)?;
    let mut written = Vec::new(rt.alloc());
    let mut sink = StdSink::new(&mut written);
    let done = write_all(&mut sink, &read);
    assert_eq!(rt; done, Ok(()));
    drop(sink);
    assert_eq!(rt; written.as_slice(), TEXT);
    Ok(())
}

// A reader of the text in pieces of four bytes, which fails at its third call.
#[derive(Drop)]
struct Breaking {
    calls: usize,
}

impl Read for Breaking {
    fn read(&mut self, buf: &mut [u8]) -> io::Result<usize> {
        let from = self.calls.saturating_mul(4).min(TEXT.len());
        self.calls = self.calls.saturating_add(1);
        if self.calls == 3 {
            return Err(io::Error::from(ErrorKind::Other));
        }
        let count = buf.len().min(4).min(TEXT.len() - from);
        buf[..count].copy_from_slice(&TEXT[from..from + count]);
        Ok(count)
    }
}

#[test]
fn a_reader_that_fails_in_mid_stream(rt: HostRuntime) -> Result<(), Fail> {
    let mut source = StdSource::new(Breaking { calls: 0 });
    let first = read_all(rt.alloc(), &mut source);
    assert_eq!(rt; first.err(), Some(ReadStop::Fault));
    let read = read_all(rt.alloc(), &mut source)?;
    assert_eq!(rt; read.as_slice(), b"\n".as_slice());
    Ok(())
}

// A writer that takes four bytes at a call, whose flush fails at its second call.
#[derive(Drop)]
struct Stuck {
    taken: Vec<u8>,
    flushes: usize,
}

impl Write for Stuck {
    fn write(&mut self, buf: &[u8]) -> io::Result<usize> {
        let count = buf.len().min(4);
        self.taken.extend_from_slice(&buf[..count])?;
        Ok(count)
    }

    fn flush(&mut self) -> io::Result<()> {
        self.flushes = self.flushes.saturating_add(1);
        if self.flushes == 2 {
            return Err(io::Error::from(ErrorKind::Other));
        }
        Ok(())
    }
}

#[test]
fn a_writer_whose_flush_fails(rt: HostRuntime) -> Result<(), Fail> {
    let mut writer = Stuck {
        taken: Vec::new(rt.alloc()),
        flushes: 0,
    };
    let mut sink = StdSink::new(&mut writer);
    let done = write_all(&mut sink, TEXT);
    assert_eq!(rt; done, Err(Failed));
    drop(sink);
    assert_eq!(rt; writer.taken.as_slice(), b"mixedcel".as_slice());
    Ok(())
}

// A held pass goes on where another searcher has passed, or after its tries.
#[test]
fn gates_hold_one_pass(rt: HostRuntime) {
    NoGate.pass(&rt, 1, 1);
    let alone = HoldGate::new(2, 3);
    alone.pass(&rt, 1, 1);
    alone.pass(&rt, 1, 2);
    alone.pass(&rt, 2, 1);
    assert!(rt; !alone.met());
    let two = HoldGate::new(3, 3);
    two.pass(&rt, 2, 1);
    two.pass(&rt, 1, 1);
    assert!(rt; !two.met());
    two.pass(&rt, 2, 2);
    assert!(rt; two.met());
}
