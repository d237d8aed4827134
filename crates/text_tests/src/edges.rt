//! Sources and sinks.

use edge_kit::{
    Failed, MemSink, MemSource, Sink, SinkFault, Source, StdSink, StdSource, SureSink, SureSource,
};
use std::test::Fail;

#[test]
fn a_source_in_memory_gives_its_bytes_and_fails_where_told(rt: HostRuntime) -> Result<(), Fail> {
    let bytes = Vec::from_slice(rt.alloc(), b"abcde")?;
    let mut source = MemSource::new(bytes, vec![in rt.alloc(); 1]?);
    let mut into = [0; 3];
    assert_eq!(rt; source.read(&mut into), Ok(3));
    assert_eq!(rt; into.as_slice(), b"abc".as_slice());
    assert_eq!(rt; source.read(&mut into), Err(Failed));
    assert_eq!(rt; source.read(&mut into), Ok(2));
    assert_eq!(rt; into.as_slice(), b"dec".as_slice());
    assert_eq!(rt; source.read(&mut into), Ok(0));
    Ok(())
}

#[test]
fn a_sink_in_memory_keeps_bytes_and_fails_where_told(rt: HostRuntime) -> Result<(), Fail> {
    let mut sink = MemSink::new(rt.alloc(), vec![in rt.alloc(); 1]?);
    assert_eq!(rt; sink.write(b"ab"), Ok(2));
    assert_eq!(rt; sink.write(b"cd"), Err(SinkFault::Failed));
    assert_eq!(rt; sink.write(b"ef"), Ok(2));
    assert_eq!(rt; sink.bytes(), b"abef".as_slice());
    Ok(())
}

#[test]
fn the_sure_edges_pass_all_bytes(rt: HostRuntime) -> Result<(), Fail> {
    let mut source = SureSource::new(Vec::from_slice(rt.alloc(), b"abc")?);
    let mut into = [0; 8];
    assert_eq!(rt; source.read(&mut into), Ok(3));
    assert_eq!(rt; source.read(&mut into), Ok(0));
    let mut sink = SureSink::new(rt.alloc());
    assert_eq!(rt; sink.write(b"abc"), Ok(3));
    assert_eq!(rt; sink.bytes(), b"abc".as_slice());
    Ok(())
}

#[test]
fn a_reader_and_a_writer_of_std_are_edges(rt: HostRuntime) -> Result<(), Fail> {
    let mut source = StdSource::new(b"abc".as_slice());
    let mut into = [0; 2];
    assert_eq!(rt; source.read(&mut into), Ok(2));
    assert_eq!(rt; into.as_slice(), b"ab".as_slice());
    let mut sink = StdSink::new(Vec::new(rt.alloc()));
    assert_eq!(rt; sink.write(b"abc"), Ok(3));
    Ok(())
}
