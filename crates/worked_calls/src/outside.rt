use ibp_outside::{
    Failed, Gate, MemorySink, MemorySource, OpenGate, Sink, Source, StdSink, StdSource,
};
use std::io::{self, Cursor, ErrorKind, Write};
use std::test::Fail;

#[test]
fn a_source_in_memory_gives_pieces_and_fails_once(rt: HostRuntime) -> Result<(), Fail> {
    let alloc = rt.alloc();
    let bytes = vec![in alloc; 1, 2, 3]?;
    let mut source = MemorySource::new(bytes, 2, vec![in alloc; 2]?);
    let mut buf = [0; 4];
    assert_eq!(rt; source.read(&mut buf), Ok(2));
    assert_eq!(rt; source.read(&mut buf), Err(Failed));
    assert_eq!(rt; source.read(&mut buf), Ok(1));
    assert_eq!(rt; buf[0], 3);
    assert_eq!(rt; source.read(&mut buf), Ok(0));
    Ok(())
}

#[test]
fn a_sink_in_memory_takes_pieces_while_there_is_room(rt: HostRuntime) -> Result<(), Fail> {
    let alloc = rt.alloc();
    let mut sink = MemorySink::new(vec![in alloc; 0; 3]?, 2, Vec::new(alloc));
    assert_eq!(rt; sink.write(&[1, 2, 3]), Ok(2));
    assert_eq!(rt; sink.write(&[3, 4]), Ok(1));
    assert_eq!(rt; sink.write(&[4]), Err(Failed));
    assert_eq!(rt; sink.write(&[]), Ok(0));
    assert_eq!(rt; sink.taken(), [1, 2, 3].as_slice());
    Ok(())
}

#[test]
fn readers_and_writers_of_std(rt: HostRuntime) -> Result<(), Fail> {
    let mut source = StdSource::new([7u8, 8].as_slice());
    let mut buf = [0; 4];
    assert_eq!(rt; source.read(&mut buf), Ok(2));
    assert_eq!(rt; buf[1], 8);
    let mut sink = StdSink::new(Cursor::new([0u8; 2]));
    assert_eq!(rt; sink.write(&[1, 2, 3]), Ok(2));
    assert_eq!(rt; sink.write(&[3]), Err(Failed));
    Ok(())
}

// Takes every byte, and fails at each flush.
#[derive(Drop)]
struct Unflushed;

impl Write for Unflushed {
    fn write(&mut self, buf: &[u8]) -> io::Result<usize> {
        Ok(buf.len())
    }

    fn flush(&mut self) -> io::Result<()> {
        Err(io::Error::from(ErrorKind::BrokenPipe))
    }
}

// No clause sees a writer's flush, so this test alone refuses a sink that ignores a flush that fails. That
// each Err is counted is a clause.
#[test]
fn a_flush_that_fails_is_a_failed_write(rt: HostRuntime) {
    let mut sink = StdSink::new(Unflushed);
    assert_eq!(rt; sink.write(&[1, 2, 3]), Err(Failed));
    assert_eq!(rt; sink.write(&[]), Err(Failed));
}

#[test]
fn the_open_gate_lets_through() {
    OpenGate.pass(1, 3);
}
