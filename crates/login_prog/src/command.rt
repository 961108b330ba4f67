// The top call: what the command that the words are does, and its status.

ghost use Rattle.std.specs.Prelude.{◌≡◌, ◌≤◌, ◌⊎◌, ◌↔◌, ℕ, List, IfSome};
ghost use Rattle.login_edge.specs.Faults.{Rose};
ghost use Rattle.replay.specs.Outcome.{Replayed, Broken, Fronted};
ghost use Rattle.login_prog.specs.Outcome.{Serves, change, given};
ghost use Rattle.login_prog.specs.Words.{AreNone, AreReplay, ServesIn, ServesNot};
ghost use Rattle.login_prog.specs.Statuses.{RefusedSo, FullSo, Says, Stays, Completes, Refuses, Fills};

use crate::outside::Outside;
use crate::serve::serve;
use crate::words::{Command, command_of};
use login_base::{Items, Word};
use login_edge::{Clock, Gate, Link, Listener, Sink, Source, Spawner};
use replay::{ReplayEnd, StatusLine, replay_all, report};
use std::alloc::Global;
use std::sync::Wait;
use std::thread::Threads;

/// Runs `login` with these words, and answers its status and what it was given of the outside. `replay` reads a
/// recording from the input and writes its transcript to the output. `serve` reads a setup and events of the hardware,
/// serves the links of the listener until the stop, and writes the recording of the run. Each status but 0 has its line
/// on the errors.
pub fn run<
    R: Wait + Threads + Sync,
    S: Source + Drop + Send,
    K: Sink,
    E: Sink,
    L: Link + Send,
    N: Listener<Link = L> + Drop,
    C: Clock + Drop,
    P: Spawner + Drop,
    G: Gate + Sync,
>(
    rt: &R,
    alloc: Global,
    words: &Items<Word>,
    outside: Outside<S, K, E, N, C, P>,
    gate: &G,
) -> (u8, Outside<S, K, E, N, C, P>)
    requires new { (dir : List ℕ) → ServesIn dir words.now → N.given outside.listener ≡ 0 }
    ensures status { result.0 ≤ 8 }
    ensures usage { (result.0 ≡ 1) ↔ AreNone words.now }
    ensures untouched { result.0 ≡ 1 → Stays (S.left outside.input) (S.left result.1.input) (S.faults outside.input) (S.faults result.1.input)
        × Stays (K.held outside.output) (K.held result.1.output) (K.faults outside.output) (K.faults result.1.output) }

    // But for `serve` nobody asks these.
    ensures listener { ServesNot words.now → result.1.listener ≡ outside.listener }
    ensures clock { ServesNot words.now → result.1.clock ≡ outside.clock }
    ensures spawner { ServesNot words.now → result.1.spawner ≡ outside.spawner }

    // Each fault has its cause.
    ensures read { result.0 ≡ 3 → Rose (S.faults outside.input) (S.faults result.1.input) }
    ensures write { result.0 ≡ 4 → Rose (K.faults outside.output) (K.faults result.1.output) ⊎ Rose (E.faults outside.errors) (E.faults result.1.errors) }
    ensures asked { result.0 ≡ 7 → Rose (N.faults outside.listener) (N.faults result.1.listener) ⊎ Rose (C.faults outside.clock) (C.faults result.1.clock) }
    ensures started { result.0 ≡ 8 → Rose (P.faults outside.spawner) (P.faults result.1.spawner) }

    // `replay`: the input is a recording, read to its end; its transcript was written; nothing failed.
    ensures done { AreReplay words.now → result.0 ≡ 0 → IfSome (S.left outside.input) (λ text. Replayed text (S.left result.1.input) (K.held outside.output) (K.held result.1.output)) }
    ensures quiet { AreReplay words.now → result.0 ≡ 0 → Stays (E.held outside.errors) (E.held result.1.errors) (E.faults outside.errors) (E.faults result.1.errors) }
    ensures steady { AreReplay words.now → result.0 ≡ 0 → (S.faults result.1.input ≡ S.faults outside.input) × (K.faults result.1.output ≡ K.faults outside.output) }

    ensures refused { AreReplay words.now → result.0 ≡ 2 → RefusedSo (S.left outside.input) (K.held outside.output) (K.held result.1.output)
        (E.held outside.errors) (E.held result.1.errors) (E.faults outside.errors) (E.faults result.1.errors) }
    ensures full { AreReplay words.now → result.0 ≡ 6 → FullSo (S.left outside.input) (K.held outside.output) (K.held result.1.output)
        (E.held outside.errors) (E.held result.1.errors) (E.faults outside.errors) (E.faults result.1.errors) }
    ensures broken { AreReplay words.now → result.0 ≡ 3 → IfSome (S.left outside.input) (λ text. Broken text (S.left result.1.input) (K.held outside.output) (K.held result.1.output)) }
    ensures unwritten { AreReplay words.now → result.0 ≡ 4 → Rose (K.faults outside.output) (K.faults result.1.output) }
    ensures front { AreReplay words.now → (result.0 ≡ 4) ⊎ (result.0 ≡ 5) → IfSome (S.left outside.input) (λ text. Fronted text (S.left result.1.input) (K.held outside.output) (K.held result.1.output)) }
    ensures few { AreReplay words.now → result.0 ≤ 6 }
    ensures said { ServesNot words.now → Says result.0 (E.held outside.errors) (E.held result.1.errors) (E.faults outside.errors) (E.faults result.1.errors) }

    // Where nothing fails and memory lasts, the text says the status: a recording is replayed, a line is
    // refused, or an event finds the journal full.
    ensures complete { AreReplay words.now → Completes result.0 (S.left outside.input)
        (Rose (S.faults outside.input) (S.faults result.1.input)) (Rose (K.faults outside.output) (K.faults result.1.output)) }
    ensures refuses { AreReplay words.now → Refuses result.0 (S.left outside.input)
        (Rose (S.faults outside.input) (S.faults result.1.input)) (Rose (K.faults outside.output) (K.faults result.1.output)) }
    ensures fills { AreReplay words.now → Fills result.0 (S.left outside.input)
        (Rose (S.faults outside.input) (S.faults result.1.input)) (Rose (K.faults outside.output) (K.faults result.1.output)) }

    // `serve`: links were served, and the recording of the run was written; or nothing was served.
    ensures serves { (dir : List ℕ) → ServesIn dir words.now → Serves L.talk L.left L.faults result.0 (given
        (change (S.left outside.input) (S.left result.1.input) (S.faults outside.input) (S.faults result.1.input))
        (change (K.held outside.output) (K.held result.1.output) (K.faults outside.output) (K.faults result.1.output))
        (change (E.held outside.errors) (E.held result.1.errors) (E.faults outside.errors) (E.faults result.1.errors))
        (change (N.told outside.listener) (N.told result.1.listener) (N.faults outside.listener) (N.faults result.1.listener))
        (change (C.told outside.clock) (C.told result.1.clock) (C.faults outside.clock) (C.faults result.1.clock))
        (P.faults outside.spawner) (P.faults result.1.spawner)) }
{
    let mut outside = outside;
    match command_of(words) {
        Some(Command::Replay) => match replay_all(
            alloc,
            &mut outside.input,
            &mut outside.output,
            &mut outside.errors,
        ) {
            ReplayEnd::Done => (0, outside),
            ReplayEnd::Script(_, _) => (2, outside),
            ReplayEnd::ReadFault => (3, outside),
            ReplayEnd::WriteFault => (4, outside),
            ReplayEnd::NoMemory => (5, outside),
            ReplayEnd::Full(_) => (6, outside),
        },
        Some(Command::Serve(dir)) => serve(rt, alloc, dir, outside, gate),
        None => {
            report(&mut outside.errors, StatusLine::Usage.text());
            (1, outside)
        }
    }
}
