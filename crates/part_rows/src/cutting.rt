// Lines out of pieces of many sizes, and a read that fails.

ghost use Rattle.std.specs.Prelude.{None, length};

use login_base::{Bytes, Items, NoMemory};
use login_edge::{Got, MemSource, Source};
use recording::{LineReader, Next};
use std::alloc::Global;
use std::test::Fail;

/// A source that gives at most so many bytes at once.
#[derive(Drop)]
struct Slow {
    source: MemSource,
    most: usize,
}

impl Source for Slow {
    ghost left = { λ _. None };

    ghost faults = { λ s. s.source.faults };

    ghost remaining = { λ s. length s.source.rest };

    fn read(&mut self, buf: &mut [u8]) -> Got {
        let most = self.most.min(buf.len()).max(1);
        self.source.read(&mut buf[..most])
    }
}

/// A source of this text, no read of which fails.
fn source_of(alloc: Global, text: &[u8]) -> Result<MemSource, NoMemory> {
    let bytes = Bytes::from_vec(Vec::from_slice(alloc, text)?);
    MemSource::new(alloc, bytes, Items::new(alloc))
}

fn letters(alloc: Global, count: usize, end: &[u8]) -> Result<Vec<u8>, NoMemory> {
    let mut text = vec![in alloc; b'x'; count]?;
    text.extend_from_slice(end)?;
    Ok(text)
}

/// Whether what the reader tells next is this, with this line.
fn tells(reader: &mut LineReader, source: &mut Slow, next: Next, line: &[u8]) -> bool {
    reader.next(source) == next && reader.line() == line
}

/// Whether the reader gives these lines, and then the end.
fn gives(reader: &mut LineReader, source: &mut Slow, lines: &[&[u8]]) -> bool {
    for line in lines {
        if !tells(reader, source, Next::Line, line) {
            return false;
        }
    }
    tells(reader, source, Next::End, b"")
}

/// Whether the text has these lines, where at most so many bytes come at once.
fn has_lines(alloc: Global, text: &[u8], most: usize, lines: &[&[u8]]) -> Result<bool, NoMemory> {
    let mut reader = LineReader::new(alloc)?;
    let source = source_of(alloc, text)?;
    Ok(gives(&mut reader, &mut Slow { source, most }, lines))
}

/// At most how many bytes come at once.
const SIZES: [usize; 5] = [1, 2, 3, 4096, 100000];

/// Texts, and their lines.
const TEXTS: [(&[u8], &[&[u8]]); 3] = [
    (b"", &[]),
    (b"a\nbc\n", &[b"a\n", b"bc\n"]),
    (b"\n\nlast", &[b"\n", b"\n", b"last"]),
];

#[test]
fn lines_come_out_of_pieces_of_any_size(rt: HostRuntime) -> Result<(), Fail> {
    for (text, lines) in &TEXTS {
        for most in &SIZES {
            assert!(rt; has_lines(rt.alloc(), text, *most, lines)?, "{most}");
        }
    }
    Ok(())
}

/// Whether the text, which is one long line, comes as its first 16385 bytes and the others, if there are any.
fn has_long_line(alloc: Global, text: &[u8], most: usize) -> Result<bool, NoMemory> {
    let (first, rest) = text.split_at(text.len().min(16385));
    if rest.is_empty() {
        has_lines(alloc, text, most, &[first])
    } else {
        has_lines(alloc, text, most, &[first, rest])
    }
}

#[test]
fn of_a_long_line_16385_bytes_come_at_once(rt: HostRuntime) -> Result<(), Fail> {
    for (count, end) in [(16384, b"".as_slice()), (16384, b"\n"), (20000, b"\n")] {
        let text = letters(rt.alloc(), count, end)?;
        for most in &SIZES {
            assert!(rt; has_long_line(rt.alloc(), &text, *most)?, "{count} {most}");
        }
    }
    Ok(())
}

/// A source of two lines, whose third read fails.
fn failing_source(alloc: Global) -> Result<MemSource, NoMemory> {
    let fails = Items::from_vec(Vec::from_slice(alloc, &[3])?);
    let bytes = Bytes::from_vec(Vec::from_slice(alloc, b"ab\ncd\n")?);
    MemSource::new(alloc, bytes, fails)
}

#[test]
fn fault_in_a_line_is_told(rt: HostRuntime) -> Result<(), Fail> {
    let mut reader = LineReader::new(rt.alloc())?;
    let source = failing_source(rt.alloc())?;
    let mut slow = Slow { source, most: 2 };
    assert!(rt; tells(&mut reader, &mut slow, Next::Line, b"ab\n"));
    assert!(rt; tells(&mut reader, &mut slow, Next::ReadFault, b"c"));
    assert!(rt; tells(&mut reader, &mut slow, Next::Line, b"d\n"));
    assert!(rt; tells(&mut reader, &mut slow, Next::End, b""));
    Ok(())
}
