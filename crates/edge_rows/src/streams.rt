// A source and a sink in memory: each call once, where it is listed as failing and where it is not.

use login_base::{Items, NoMemory};
use login_edge::{Got, MemSink, MemSource, Source, WriteEnd, write_all};
use std::alloc::Global;

fn numbers(alloc: Global, numbers: &[u64]) -> Result<Items<u64>, NoMemory> {
    Ok(Items::from_vec(Vec::from_slice(alloc, numbers)?))
}

/// A source of five bytes, whose second and fifth calls fail.
fn source(alloc: Global) -> Result<MemSource, NoMemory> {
    let bytes = Items::from_vec(Vec::from_slice(alloc, b"abcde")?);
    MemSource::new(alloc, bytes, numbers(alloc, &[2, 5])?)
}

fn read_once<S: Source>(source: &mut S, buf: &mut [u8; 2]) -> Got {
    source.read(buf)
}

/// What a read answers, what the buffer then holds, and what is left.
type Read<'t> = (Got, &'t [u8], &'t [u8]);

const READS: [Read; 6] = [
    (Got::Bytes(2), b"ab", b"cde"),
    (Got::Failed, b"ab", b"cde"),
    (Got::Bytes(2), b"cd", b"e"),
    (Got::Bytes(1), b"ed", b""),
    (Got::Failed, b"ed", b""),
    (Got::End, b"ed", b""),
];

/// Whether reads into one buffer come to this, one after the other.
fn are_read(source: &mut MemSource, reads: &[Read]) -> bool {
    let mut buf = [0; 2];
    for (answer, text, rest) in reads {
        if read_once(source, &mut buf) != *answer
            || buf.as_slice() != *text
            || source.rest() != *rest
        {
            return false;
        }
    }
    true
}

#[test]
fn source_gives_its_bytes_and_fails_where_listed(rt: HostRuntime) -> Result<(), NoMemory> {
    let mut source = source(rt.alloc())?;
    assert!(rt; are_read(&mut source, &READS));
    Ok(())
}

/// What is written, how that ends, and what the sink then holds.
type Write<'t> = (&'t [u8], WriteEnd, &'t [u8]);

const WRITES: [Write; 6] = [
    (b"abc", WriteEnd::Done, b"abc"),
    (b"de", WriteEnd::Fault, b"abc"),
    (b"", WriteEnd::Done, b"abc"),
    (b"de", WriteEnd::Done, b"abcde"),
    (b"fg", WriteEnd::Fault, b"abcde"),
    (b"f", WriteEnd::Done, b"abcdef"),
];

/// Whether writes come to this, one after the other.
fn are_written(sink: &mut MemSink, writes: &[Write]) -> bool {
    for (text, end, held) in writes {
        if write_all(sink, text) != *end || sink.held() != *held {
            return false;
        }
    }
    true
}

#[test]
fn sink_keeps_what_it_takes(rt: HostRuntime) -> Result<(), NoMemory> {
    let alloc = rt.alloc();
    let mut sink = MemSink::new(alloc, 6, numbers(alloc, &[2])?)?;
    assert!(rt; are_written(&mut sink, &WRITES));
    Ok(())
}
