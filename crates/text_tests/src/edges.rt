//! What no clause says: that calls succeed, and what reaches real files.
use knox_edge::{FileShelf, MemShelf, MemSink, Shelf, ShelfEnd, Sink, SinkEnd, StreamSink};
use std::alloc::{AllocError, Global};
use std::fs::File;
use std::test::Fail;
use std::{fs, process};

/// A path below the folder for temporary files that no other run of the tests has.
fn path_of(rt: &HostRuntime, name: &str) -> Result<String, AllocError> {
    let run = process::id(rt.process());
    format!(in rt.alloc(); "/tmp/knox-edge-{run}-{name}")
}

fn bytes(alloc: Global, text: &str) -> Result<Vec<u8>, AllocError> {
    Vec::from_slice(alloc, text.as_bytes())
}

#[test]
fn a_shelf_of_files_reads_whole_files(rt: HostRuntime) -> Result<(), Fail> {
    let path = path_of(&rt, "text")?;
    let text = vec![in rt.alloc(); b'a'; 20_000]?;
    fs::write(&rt, path.as_str(), text.as_slice())?;
    let mut shelf = FileShelf::new(&rt, rt.alloc());
    let place = shelf.read(path.as_bytes())?;
    assert!(rt; shelf.text(place) == text.as_slice());
    // One byte more than a text may have.
    let long = File::create(&rt, path.as_str())?;
    long.set_len(67_108_865)?;
    assert_eq!(rt; shelf.read(path.as_bytes()), Err(ShelfEnd::TooLong));
    fs::remove_file(&rt, path.as_str())?;
    assert_eq!(rt;
        shelf.read(path.as_bytes()),
        Err(ShelfEnd::Failed),
        "the file is gone"
    );
    assert_eq!(rt; shelf.read(b"/tmp"), Err(ShelfEnd::Failed), "a folder");
    assert_eq!(rt; shelf.read(b"\xff"), Err(ShelfEnd::Failed), "no UTF-8");
    Ok(())
}

#[test]
fn a_sink_over_a_file_writes_each_piece(rt: HostRuntime) -> Result<(), Fail> {
    let path = path_of(&rt, "pieces")?;
    let mut sink = StreamSink::new(File::create(&rt, path.as_str())?);
    sink.put(b"undecided 2\n")?;
    sink.put(b"")?;
    sink.put(b"choices 1 0\n")?;
    let text = fs::read(&rt, path.as_str())?;
    assert!(rt; text.as_slice() == b"undecided 2\nchoices 1 0\n".as_slice());
    let mut closed = StreamSink::new(File::open(&rt, path.as_str())?);
    fs::remove_file(&rt, path.as_str())?;
    assert_eq!(rt;
        closed.put(b"yes\n"),
        Err(SinkEnd::Failed),
        "opened for reading alone"
    );
    assert_eq!(rt; closed.put(b""), Ok(()));
    Ok(())
}

#[test]
fn a_shelf_in_memory_gives_the_first_of_a_name(rt: HostRuntime) -> Result<(), Fail> {
    let alloc = rt.alloc();
    let mut held = Vec::new(alloc);
    held.push((bytes(alloc, "a")?, bytes(alloc, "one")?))?;
    held.push((bytes(alloc, "a")?, bytes(alloc, "two")?))?;
    let mut shelf = MemShelf::new(alloc, held, vec![in alloc; 3]?);
    let first = shelf.read(b"a")?;
    assert!(rt; shelf.text(first) == b"one".as_slice());
    assert_eq!(rt; shelf.read(b"b"), Err(ShelfEnd::Failed), "not held");
    assert_eq!(rt; shelf.read(b"a"), Err(ShelfEnd::Failed), "the third read");
    let second = shelf.read(b"a")?;
    assert!(rt; shelf.text(second) == b"one".as_slice());
    Ok(())
}

#[test]
fn a_sink_in_memory_keeps_what_it_is_told_to(rt: HostRuntime) -> Result<(), Fail> {
    let alloc = rt.alloc();
    let mut sink = MemSink::new(alloc, vec![in alloc; 1, 3]?, 2);
    assert_eq!(rt; sink.put(b""), Ok(()), "not counted");
    assert_eq!(rt; sink.put(b"yes\n"), Err(SinkEnd::Failed));
    assert_eq!(rt; sink.put(b"no"), Ok(()));
    assert_eq!(rt; sink.put(b"!"), Err(SinkEnd::Failed));
    assert!(rt; sink.written() == b"yeno!".as_slice());
    Ok(())
}
