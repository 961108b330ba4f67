// What no clause can show: that a teller hears where there is memory.

use super::cases::{CASES, Case};
use login_base::{ConnId, Items, NoMemory, Uid, Word};
use login_model::{Answer, Entry, Event, Request, Verdict};
use login_office::{HeardPiece, LinkEnd, Teller};
use recording::entry_text;
use std::alloc::Global;
use std::process::Abort;

/// What a teller has told of its link so far.
#[derive(Drop)]
struct HeardSoFar {
    replies: Vec<u8>,
    begins: usize,
    calls: Items<Request>,
    end: Option<LinkEnd>,
}

impl HeardSoFar {
    /// Puts what a piece led to at the end.
    fn add(&mut self, heard: HeardPiece) -> Result<(), NoMemory> {
        let HeardPiece {
            replies,
            begins,
            calls,
            end,
        } = heard;
        self.replies.extend_from_slice(replies.as_slice())?;
        self.begins = self.begins.saturating_add(usize::from(begins));
        for call in calls.into_vec() {
            self.calls.push(call)?;
        }
        self.end = end;
        Ok(())
    }
}

/// What a teller tells of what a client sent, in pieces of such a size.
fn tell(alloc: Global, case: &Case, size: usize) -> Result<HeardSoFar, NoMemory> {
    let guid = Word::from_slice(alloc, b"0123456789abcdef0123456789abcdef")?;
    let mut teller = Teller::new(alloc, ConnId(2), Uid(1000), &guid)?;
    let mut sent = Vec::new(alloc);
    for part in case.sent {
        sent.extend_from_slice(part)?;
    }
    let mut so_far = HeardSoFar {
        replies: Vec::new(alloc),
        begins: 0,
        calls: Items::new(alloc),
        end: None,
    };
    for piece in sent.chunks(size.max(1)) {
        so_far.add(teller.hear(alloc, piece)?)?;
    }
    Ok(so_far)
}

/// Whether these are the calls of these lines.
fn are_calls(alloc: Global, calls: Items<Request>, lines: &[&[u8]]) -> Result<bool, NoMemory> {
    if calls.len() != lines.len() {
        return Ok(false);
    }
    let mut entries = Items::new(alloc);
    for call in calls.into_vec() {
        entries.push(Entry {
            event: Event::Call(call),
            verdict: Verdict::Granted,
            answer: Answer::Nothing,
            marks: Items::new(alloc),
        })?;
    }
    for (entry, line) in entries.as_slice().iter().zip(lines) {
        let text = entry_text(alloc, 1, entry)?;
        let rest = text.as_slice().strip_prefix(b"1 ".as_slice());
        let rest = rest.and_then(|rest| rest.strip_prefix(*line));
        if rest != Some(b"\n granted\n".as_slice()) {
            return Ok(false);
        }
    }
    Ok(true)
}

/// Whether a teller tells what a case has, in pieces of such a size.
fn is_told(alloc: Global, case: &Case, size: usize) -> Result<bool, NoMemory> {
    let so_far = tell(alloc, case, size)?;
    let HeardSoFar {
        replies,
        begins,
        calls,
        end,
    } = so_far;
    let same = replies.as_slice() == case.replies
        && begins == usize::from(case.begins)
        && end == case.end;
    Ok(are_calls(alloc, calls, case.calls)? && same)
}

const SIZES: [usize; 6] = [1, 2, 3, 7, 64, 4096];

#[test]
fn links_in_pieces(rt: HostRuntime) -> Result<(), NoMemory> {
    for (index, case) in CASES.iter().enumerate() {
        for size in SIZES {
            assert!(rt;
                is_told(rt.alloc(), case, size)?,
                "case {index} in pieces of {size}"
            );
        }
    }
    Ok(())
}
