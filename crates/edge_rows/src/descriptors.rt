// The adapter of each standard stream over real descriptors: a pipe, a file, and one that fails.

use login_edge::{Got, Sink, Source, Took, WriteEnd, write_all};
use login_real::{ReaderSource, WriterSink};
use std::test::Fail;
use std::{env, fs, io, process};

/// Where a test may keep a file or a folder, in the folder for such. No other run has the same place.
pub(crate) fn own_path(rt: &HostRuntime, name: &str) -> Result<String, Fail> {
    let id = process::id(rt.process());
    let folder = env::temp_dir(rt)?;
    let folder = folder.as_str();
    Ok(format!(in rt.alloc(); "{folder}/edge_rows-{name}-{id}")?)
}

fn read_once<S: Source>(source: &mut S, buf: &mut [u8; 2]) -> Got {
    source.read(buf)
}

/// Whether the source gives these three bytes, as many at once as fit, and then the end.
fn gives<S: Source>(source: &mut S, text: &[u8; 3]) -> bool {
    let mut buf = [0; 2];
    read_once(source, &mut buf) == Got::Bytes(2)
        && buf == [text[0], text[1]]
        && read_once(source, &mut buf) == Got::Bytes(1)
        && buf[0] == text[2]
        && read_once(source, &mut buf) == Got::End
}

/// Whether a file gives what it holds.
fn file_gives(rt: &HostRuntime, path: &str) -> io::Result<bool> {
    fs::write(rt, path, b"abc".as_slice())?;
    let file = fs::open(rt, path)?;
    Ok(gives(&mut ReaderSource::new(file), b"abc"))
}

/// Whether a read of a file fails that was opened to be written alone.
fn read_fails(rt: &HostRuntime, path: &str) -> io::Result<bool> {
    let write_only = fs::create(rt, path)?;
    let read = read_once(&mut ReaderSource::new(write_only), &mut [0; 2]);
    Ok(read == Got::Failed)
}

/// Whether a file, once made, gives what it should, and is then no more.
fn files_give(rt: &HostRuntime, path: &str) -> io::Result<bool> {
    let is_given = file_gives(rt, path)?;
    let has_failed = read_fails(rt, path)?;
    fs::remove_file(rt, path)?;
    Ok(is_given && has_failed)
}

fn write_once<K: Sink>(sink: &mut K, piece: &[u8; 3]) -> Took {
    sink.write(piece)
}

/// Whether a pipe gives what was written to it.
fn pipe_gives(rt: &HostRuntime) -> Result<bool, Fail> {
    let (reader, writer) = io::pipe(rt)?;
    let took = write_once(&mut WriterSink::new(writer), b"abc");
    let is_given = gives(&mut ReaderSource::new(reader), b"abc");
    Ok(is_given && took == Took::Bytes(3))
}

#[test]
fn input_gives_what_a_descriptor_holds(rt: HostRuntime) -> Result<(), Fail> {
    let path = own_path(&rt, "input")?;
    let is_given = files_give(&rt, path.as_str());
    assert!(rt; matches!(is_given, Ok(true)));
    assert!(rt; pipe_gives(&rt)?);
    Ok(())
}

/// Whether a piece is refused by a pipe whose other end is gone.
fn pipe_refuses(rt: &HostRuntime) -> Result<bool, Fail> {
    let (reader, writer) = io::pipe(rt)?;
    drop(reader);
    Ok(write_once(&mut WriterSink::new(writer), b"abc") == Took::Failed)
}

/// Whether two pieces are taken.
fn takes_two<K: Sink>(sink: &mut K) -> bool {
    write_once(sink, b"abc") == Took::Bytes(3) && write_once(sink, b"def") == Took::Bytes(3)
}

/// Whether a file holds what was written to it, and is then no more.
fn file_takes(rt: &HostRuntime, path: &str) -> io::Result<bool> {
    let file = fs::create(rt, path)?;
    let has_taken = takes_two(&mut WriterSink::new(file));
    let is_held = fs::read(rt, path)?.as_slice() == b"abcdef".as_slice();
    fs::remove_file(rt, path)?;
    Ok(has_taken && is_held)
}

/// Whether a line is refused by a device on which no space is ever left.
fn full_refuses(rt: &HostRuntime) -> io::Result<bool> {
    let full = fs::create(rt, "/dev/full")?;
    let written = write_all(&mut WriterSink::new(full), b"read fault\n");
    Ok(written == WriteEnd::Fault)
}

#[test]
fn output_comes_to_its_descriptor(rt: HostRuntime) -> Result<(), Fail> {
    let path = own_path(&rt, "output")?;
    let has_taken = file_takes(&rt, path.as_str());
    assert!(rt; matches!(has_taken, Ok(true)));
    assert!(rt; pipe_refuses(&rt)? && full_refuses(&rt)?);
    Ok(())
}
