//! The program `login`: the top call over the standard streams, Unix sockets, and the machine's clock and threads.
#![tactic(auto)]

mod heap;
mod words;

use heap::share_mappings;
use login_edge::write_all;
use login_prog::{Outside, StatusLine, run};
use login_real::{
    LinkWaker, MonotonicClock, ReaderSource, SocketListener, ThreadSpawner, WakingGate, WriterSink,
};
use std::process::ExitCode;
use words::words_of;

/// The exit status where there is no memory for what a run is given, as that of `run`.
const NO_MEMORY: u8 = 5;

fn main(rt: HostRuntime) -> ExitCode {
    share_mappings(rt.alloc());
    let mut errors = WriterSink::new(rt.stderr());
    let Ok(words) = words_of(&rt) else {
        let _end = write_all(&mut errors, StatusLine::NoMemory.text());
        return ExitCode::from(NO_MEMORY);
    };
    let waker = LinkWaker::new(&rt);
    let outside = Outside {
        input: ReaderSource::new(rt.stdin()),
        output: WriterSink::new(rt.stdout()),
        errors,
        listener: SocketListener::new(&rt, rt.alloc(), &waker),
        clock: MonotonicClock::new(&rt),
        spawner: ThreadSpawner::new(),
    };
    let (status, outside) = run(&rt, rt.alloc(), &words, outside, &WakingGate::new(&waker));
    let Outside {
        input: _,
        output: _,
        errors: _,
        listener,
        clock: _,
        spawner: _,
    } = outside;
    listener.close();
    ExitCode::from(status)
}
