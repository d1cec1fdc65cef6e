//! The adapters over memory, and the numbering of the fakes' calls.

use crate::*;
use std::fs::File;
use std::io::BufWriter;
use std::test::Fail;

// Whether a reader of these five bytes gives three of them, then two, and then none.
fn is_read_to_its_end(bytes: &[u8]) -> bool {
    let mut source = ReadSource::new(bytes);
    let mut front = [0u8; 3];
    let mut rest = [0u8; 3];
    matches!(fill(&mut source, &mut front), Ok(3))
        && matches!(fill(&mut source, &mut rest), Ok(2))
        && &front[..] == b"abc".as_slice()
        && &rest[..2] == b"de".as_slice()
        && matches!(source.take(&mut rest), Ok(0))
}

#[test]
fn a_reader_is_read_to_its_end(rt: HostRuntime) {
    assert!(rt; is_read_to_its_end(b"abcde"));
}

// Whether both pieces are put.
fn are_put(text: &mut Vec<u8>) -> bool {
    let mut sink = WriteSink::new(text);
    sink.put(b"abc").is_ok() && sink.put(b"de").is_ok() && sink.done().is_ok()
}

#[test]
fn a_writer_is_given_each_piece(rt: HostRuntime) {
    let mut text = Vec::new(rt.alloc());
    assert!(rt; are_put(&mut text));
    assert_eq!(rt; text.as_slice(), b"abcde".as_slice());
}

// A slice that is full takes nothing of a piece.
#[test]
fn a_writer_that_takes_nothing_fails(rt: HostRuntime) -> Result<(), Fail> {
    let mut room = [0u8; 3];
    let mut sink = WriteSink::new(&mut room[..]);
    assert_eq!(rt; sink.put(b"ab"), Ok(()));
    assert_eq!(rt; sink.put(b"cd"), Err(Failed));
    Ok(())
}

// A file that ends at once, and a folder, which no read gives bytes of.
#[test]
fn files_end_and_fail(rt: HostRuntime) -> Result<(), Fail> {
    let mut buf = [0u8; 4];
    let mut empty = ReadSource::new(File::open(&rt, "/dev/null")?);
    assert_eq!(rt; empty.take(&mut buf), Ok(0));
    let mut folder = ReadSource::new(File::open(&rt, "/")?);
    assert_eq!(rt; folder.take(&mut buf), Err(Failed));
    Ok(())
}

// Whether a file holds this one line.
fn holds_line(file: File) -> bool {
    let mut source = ReadSource::new(file);
    let mut line = [0u8; 8];
    matches!(fill(&mut source, &mut line), Ok(6)) && &line[..6] == b"Linux\n".as_slice()
}

// Whether a file takes a piece.
fn takes_piece(file: File) -> bool {
    let mut device = WriteSink::new(file);
    device.put(b"ab").is_ok() && device.done().is_ok()
}

// A file of the kernel's that holds one known line, and a device that takes all.
#[test]
fn files_are_read_and_written(rt: HostRuntime) -> Result<(), Fail> {
    assert!(rt; holds_line(File::open(&rt, "/proc/sys/kernel/ostype")?));
    assert!(rt; takes_piece(File::create(&rt, "/dev/null")?));
    Ok(())
}

// A device that is always full.
#[test]
fn a_full_file_fails(rt: HostRuntime) -> Result<(), Fail> {
    let mut full = WriteSink::new(File::create(&rt, "/dev/full")?);
    assert_eq!(rt; full.put(b"ab"), Err(Failed));
    Ok(())
}

// What waits in a buffer is written by `done` alone, and fails there.
#[test]
fn a_flush_that_fails_is_told(rt: HostRuntime) -> Result<(), Fail> {
    let writer = BufWriter::new(rt.alloc(), File::create(&rt, "/dev/full")?)?;
    let mut sink = WriteSink::new(writer);
    assert_eq!(rt; sink.put(b"ab"), Ok(()));
    assert_eq!(rt; sink.done(), Err(Failed));
    Ok(())
}

// Whether a source fails at its second call alone, and what came before is gone then.
fn source_fails_once() -> bool {
    let mut source = MemSource::new(b"abcde", 2, &[2]);
    let mut buf = [0u8; 4];
    matches!(fill(&mut source, &mut buf), Err(Failed))
        && source.rest() == b"cde".as_slice()
        && matches!(fill(&mut source, &mut buf), Ok(3))
}

// Whether a plain one gives all that it has.
fn plain_source_gives_all() -> bool {
    let mut plain = PlainSource::new(b"abc");
    let mut buf = [0u8; 4];
    matches!(fill(&mut plain, &mut buf), Ok(3)) && plain.rest().is_empty()
}

// Whether a sink fails at its second and third call, and where it is full.
fn sink_fails_where_told(room: Vec<u8>) -> bool {
    let mut sink = MemSink::new(room, &[2, 3], 1);
    sink.put(b"abc").is_ok()
        && sink.put(b"de").is_err()
        && sink.done().is_err()
        && sink.put(b"fgh").is_err()
        && sink.bytes() == b"abcdfg".as_slice()
        && sink.done().is_ok()
}

#[test]
fn the_fakes_fail_at_the_calls_named(rt: HostRuntime) -> Result<(), Fail> {
    assert!(rt; source_fails_once());
    assert!(rt; plain_source_gives_all());
    assert!(rt; sink_fails_where_told(vec![in rt.alloc(); 0; 6]?));
    Ok(())
}

// Whether a block puts nothing until it is full, and then what is left.
fn puts_full_pieces(room: Vec<u8>) -> bool {
    let mut sink = MemSink::new(room, &[], 0);
    let mut block = Block::new();
    block.add(&mut sink, &[1; 2000]).is_ok()
        && sink.bytes().len() == 0
        && block.add(&mut sink, &[2; 890]).is_ok()
        && sink.bytes().len() == 2880
        && block.flush(&mut sink).is_ok()
        && sink.bytes().len() == 2890
        && block.flush(&mut sink).is_ok()
}

#[test]
fn a_block_puts_full_pieces(rt: HostRuntime) -> Result<(), Fail> {
    assert!(rt; puts_full_pieces(vec![in rt.alloc(); 0; 2900]?));
    Ok(())
}
