//! The tests of `sp_outside`: its calls, with failing ones among them, and one run of each real adapter.

use crate::byte_lists::add;
use sp_base::{List, Text};
use sp_outside::*;
use std::alloc::Global;
use std::io::{ErrorKind, Write};
use std::test::Fail;
use std::{fs, io};

/// A writer that takes all bytes and fails at each flush.
#[derive(Drop)]
struct Unflushed;

impl Write for Unflushed {
    fn write(&mut self, buf: &[u8]) -> io::Result<usize> {
        Ok(buf.len())
    }

    fn flush(&mut self) -> io::Result<()> {
        Err(io::Error::from(ErrorKind::Other))
    }
}

// Bytes of their own.
fn copy(alloc: Global, bytes: &[u8]) -> Vec<u8> {
    let mut all = Vec::new(alloc);
    add(&mut all, bytes);
    all
}

fn text(alloc: Global, bytes: &[u8]) -> Text {
    Text::of(copy(alloc, bytes))
}

fn files(alloc: Global) -> List<(Text, Text)> {
    let mut files = List::new(alloc);
    let _ = files.push((text(alloc, b"a"), text(alloc, b"abc")));
    files
}

// The calls that fail.
fn calls(alloc: Global, failing: &[u32]) -> List<u32> {
    match List::from_slice(alloc, failing) {
        Ok(calls) => calls,
        Err(_) => List::new(alloc),
    }
}

fn filled(alloc: Global, count: usize) -> Vec<u8> {
    match vec![in alloc; 7u8; count] {
        Ok(bytes) => bytes,
        Err(_) => Vec::new(alloc),
    }
}

fn loads<L: Library>(library: &mut L, alloc: Global, name: &str, wanted: &[u8]) -> bool {
    match library.load(alloc, name, 3) {
        Ok(bytes) => bytes.as_slice() == wanted,
        Err(_) => false,
    }
}

fn refuses<L: Library>(
    library: &mut L,
    alloc: Global,
    name: &str,
    limit: u32,
    wanted: LoadError,
) -> bool {
    match library.load(alloc, name, limit) {
        Ok(_) => false,
        Err(error) => error == wanted,
    }
}

#[test]
fn a_library_in_memory(rt: HostRuntime) {
    let alloc = rt.alloc();
    let mut library = MemoryLibrary::new(files(alloc), calls(alloc, &[1]));
    assert!(rt; loads(&mut library, alloc, "a", b"abc"));
    assert!(rt; refuses(&mut library, alloc, "a", 3, LoadError::Failed));
    assert!(rt; refuses(&mut library, alloc, "b", 3, LoadError::Failed));
    assert!(rt; refuses(&mut library, alloc, "a", 2, LoadError::TooLong));
    drop(library);
}

#[test]
fn a_name_that_is_not_there(rt: HostRuntime) {
    let mut sure = SureLibrary::new(files(rt.alloc()));
    assert!(rt; loads(&mut sure, rt.alloc(), "b", b""));
    drop(sure);
}

fn sink(alloc: Global, failing: &[u32]) -> MemorySink {
    MemorySink::new(filled(alloc, 8), 1, calls(alloc, failing))
}

#[test]
fn a_sink_that_takes_one_byte_a_call(rt: HostRuntime) {
    let mut sink = sink(rt.alloc(), &[]);
    assert!(rt; put_all(&mut sink, b"42").is_ok());
    assert!(rt; sink.bytes() == b"42".as_slice());
    drop(sink);
}

// Whether a sink of which this call fails has as many bytes then.
fn fails_at(alloc: Global, call: u32) -> bool {
    let mut sink = sink(alloc, &[call]);
    let failed = put_all(&mut sink, b"42").is_err();
    let bytes = sink.bytes().len();
    drop(sink);
    failed && bytes == call as usize
}

#[test]
fn a_sink_that_fails(rt: HostRuntime) {
    assert!(rt; fails_at(rt.alloc(), 0));
    assert!(rt; fails_at(rt.alloc(), 1));
}

#[test]
fn a_sink_that_gets_full(rt: HostRuntime) {
    let mut sink = SureSink::new(filled(rt.alloc(), 3));
    assert!(rt; put_all(&mut sink, b"ab").is_ok());
    assert!(rt; put_all(&mut sink, b"cde").is_ok());
    assert!(rt; sink.bytes() == b"abc".as_slice());
    drop(sink);
}

fn source(alloc: Global, failing: &[u32]) -> MemorySource {
    MemorySource::new(copy(alloc, b"abc"), 1, calls(alloc, failing))
}

// Whether that is all that a source gives.
fn reads<S: Source>(source: &mut S, alloc: Global, limit: u32, wanted: &[u8]) -> bool {
    match read_all(alloc, source, limit) {
        Ok(all) => all.bytes() == wanted,
        Err(_) => false,
    }
}

// How long it is.
fn length_read<S: Source>(source: &mut S, alloc: Global, limit: u32) -> Result<usize, ReadError> {
    match read_all(alloc, source, limit) {
        Ok(all) => Ok(all.bytes().len()),
        Err(error) => Err(error),
    }
}

#[test]
fn a_source_that_gives_one_byte_a_call(rt: HostRuntime) {
    let mut source = source(rt.alloc(), &[]);
    let mut buf = *b"xyz";
    assert!(rt; source.take(&mut buf) == Ok(1));
    assert!(rt; buf.as_slice() == b"ayz".as_slice());
    assert!(rt; reads(&mut source, rt.alloc(), 2, b"bc"));
    drop(source);
}

// Whether a source of which this call fails is not read.
fn fails_to_read(alloc: Global, call: u32) -> bool {
    let mut source = source(alloc, &[call]);
    let read = length_read(&mut source, alloc, 3);
    drop(source);
    read == Err(ReadError::Failed)
}

#[test]
fn a_source_that_fails(rt: HostRuntime) {
    for k in 0..4u32 {
        assert!(rt; fails_to_read(rt.alloc(), k), "{k}");
    }
}

// What comes of an input of so many bytes.
fn read_of(alloc: Global, count: usize) -> Result<usize, ReadError> {
    let mut source = SureSource::new(filled(alloc, count));
    let read = length_read(&mut source, alloc, 16_777_216);
    drop(source);
    read
}

#[test]
fn the_greatest_input_and_one_byte_more(rt: HostRuntime) {
    assert!(rt; read_of(rt.alloc(), 16_777_216) == Ok(16_777_216));
    assert!(rt; read_of(rt.alloc(), 16_777_217) == Err(ReadError::TooLong));
}

#[test]
fn a_file_of_the_system(rt: HostRuntime) -> Result<(), Fail> {
    let name = "sp_outside_test.txt";
    fs::write(&rt, name, b"abc")?;
    let mut library = FileLibrary::new(&rt);
    assert!(rt; loads(&mut library, rt.alloc(), name, b"abc"));
    fs::remove_file(&rt, name)?;
    assert!(rt; refuses(&mut library, rt.alloc(), name, 3, LoadError::Failed));
    Ok(())
}

// A file that a sink over a stream has written.
fn written(rt: &HostRuntime, name: &str) -> io::Result<()> {
    let mut sink = StreamSink::new(fs::create(rt, name)?);
    put_all(&mut sink, b"42").map_err(|_| io::Error::from(ErrorKind::Other))
}

// Whether that is a file, by a source over a stream.
fn reads_back(rt: &HostRuntime, name: &str, wanted: &[u8]) -> io::Result<bool> {
    let mut source = StreamSource::new(fs::open(rt, name)?);
    Ok(reads(&mut source, rt.alloc(), 3, wanted))
}

#[test]
fn streams_of_a_file_of_the_system(rt: HostRuntime) -> Result<(), Fail> {
    let name = "sp_outside_stream.txt";
    written(&rt, name)?;
    assert!(rt; reads_back(&rt, name, b"42")?);
    fs::remove_file(&rt, name)?;
    Ok(())
}

#[test]
fn streams_of_bytes(rt: HostRuntime) {
    let mut source = StreamSource::new(b"abc".as_slice());
    assert!(rt; reads(&mut source, rt.alloc(), 3, b"abc"));
    let mut room = [0u8; 2];
    let mut sink = StreamSink::new(room.as_mut_slice());
    assert!(rt; put_all(&mut sink, b"42").is_ok());
    assert!(rt; put_all(&mut sink, b"!").is_err());
}

#[test]
fn a_stream_whose_flush_fails(rt: HostRuntime) {
    let mut sink = StreamSink::new(Unflushed);
    assert!(rt; sink.put(b"42").is_err());
    assert!(rt; sink.put(b"") == Ok(0));
    assert!(rt; put_all(&mut sink, b"42").is_err());
}

#[test]
fn an_open_gate() {
    OpenGate.enter(0, 1);
}
