// A handshake, heard in any pieces.

ghost use Rattle.std.specs.Prelude.{◌≡◌, ◌≢◌, ◌↔◌, ◌++◌, List, ℕ, [], IsTrue, IsOk, IfOk, OnOk, OnErr, ◌<◌};
ghost use Rattle.bus_auth.specs.Greeting.{WaitingForNul, Begun, Ended, greet, run};
ghost use Rattle.bus_auth.specs.inner.Greeting.{resume};
ghost use Rattle.bus_auth.specs.Standing.{ending_of, kept};
ghost use Rattle.bus_auth.specs.inner.Standing.{state_of, open_line, IsKept};
ghost use Rattle.bus_auth.specs.Hearing.{HasHeard, Hears, shown, Tells, IsEnded};
ghost use Rattle.bus_auth.specs.inner.Hearing.{Gives};
ghost use Rattle.bus_auth.specs.Cutting.{cut};
ghost use Rattle.bus_auth.specs.inner.Outcomes.{state_in, IsOpenIn};

use crate::hearing::{Heard, Outcome, Progress, Talk, hear_lines};
use crate::step::{AuthState, AuthStep};
use crate::table::{Ending, Stage};
use login_base::{Bytes, NoMemory, Uid, Word, drop_front};
use std::alloc::Global;
use std::marker::Model;

/// The server's side of a handshake with a client that is to be the user of its socket.
#[derive(Drop)]
pub struct Auth {
    uid: Uid,
    guid: Word,
    progress: Progress,
    /// The line that is open.
    line: Vec<u8>,
}

impl Model for Auth {
    ghost use Rattle.bus_auth.specs.Standing.{Handshake};
    ghost use Rattle.bus_auth.specs.inner.Standing.{state_of, IsKept};

    ghost Value = { Handshake };

    ghost view = { λ a. record { uid = a.uid; guid = a.guid; state = state_of a.progress a.line.items } };

    ghost invariant = { λ a. IsKept a.progress a.line.items };
}

/// A step with no reply.
fn quiet(alloc: Global, state: AuthState) -> AuthStep
    ensures replies { result.replies ≡ [] }
    ensures state { result.state ≡ state }
{
    AuthStep {
        replies: Bytes::new(alloc),
        state,
    }
}

/// Keeps what is left of the bytes that were heard, and tells the rest.
fn settle(alloc: Global, progress: &mut Progress, line: &mut Vec<u8>, heard: Heard) -> AuthStep
    requires { IsOpenIn line.old.items heard.outcome }
    ensures replies { result.replies ≡ heard.replies }
    ensures state { result.state ≡ shown (state_in line.old.items heard.outcome) }
    ensures kept { state_of progress.new line.new.items ≡ kept (state_in line.old.items heard.outcome) }
    ensures line { IsKept progress.new line.new.items }
{
    let Heard { replies, outcome } = heard;
    match outcome {
        Outcome::Talking(talk, taken) => {
            drop_front(alloc, line, taken);
            *progress = Progress::Talking(talk);
            AuthStep {
                replies,
                state: AuthState::Going,
            }
        }
        Outcome::Begun(rest) => {
            line.clear();
            *progress = Progress::Begun;
            AuthStep {
                replies,
                state: AuthState::Begun(rest),
            }
        }
        Outcome::Ended(ending) => {
            line.clear();
            *progress = Progress::Ended(ending);
            AuthStep {
                replies,
                state: AuthState::Ended(ending),
            }
        }
    }
}

impl Auth {
    /// A handshake of which nothing was heard. It takes no memory.
    pub fn new(alloc: Global, uid: Uid, guid: Word) -> Auth
        ensures uid { result.uid ≡ uid }
        ensures guid { result.guid ≡ guid }
        ensures heard { HasHeard result [] }
    {
        Auth {
            uid,
            guid,
            progress: Progress::WaitingForNul,
            line: Vec::new(alloc),
        }
    }

    /// Whether the client began to send messages.
    pub fn is_begun(&self) -> bool
        ensures { IsTrue result ↔ (self.now.state ≡ Begun []) }
    {
        matches!(self.progress, Progress::Begun)
    }

    /// How it ended with no connection, where it has.
    pub fn ending(&self) -> Option<Ending>
        ensures value { result ≡ ending_of self.now.state }
        // Of the bytes behind BEGIN none are kept.
        ensures kept { self.now.state ≡ kept self.now.state }
    {
        match self.progress {
            Progress::Ended(ending) => Some(ending),
            Progress::WaitingForNul | Progress::Talking(_) | Progress::Begun => None,
        }
    }

    /// A copy, which goes on by itself.
    pub fn copied(&self) -> Result<Auth, NoMemory>
        ensures { IfOk result (λ auth. auth ≡ self.now) }
    {
        Ok(Auth {
            uid: self.uid,
            guid: self.guid.copied()?,
            progress: self.progress,
            line: self.line.clone()?,
        })
    }

    /// Hears what the client sent next. A handshake that has ended takes no memory.
    pub fn feed(&mut self, alloc: Global, piece: &[u8]) -> Result<AuthStep, NoMemory>
        requires { self.old.state ≢ Begun [] }

        // It goes on as one that hears all bytes at once.
        ensures heard { IfOk result (λ step. Hears self.old piece.now self.new step) }
        ensures shown { IfOk result (λ step. Tells step.state self.new.state) }
        ensures uid { self.new.uid ≡ self.old.uid }
        ensures guid { self.new.guid ≡ self.old.guid }

        // An ended handshake stays as it is, and replies nothing.
        ensures ended { (ending : Ending) → self.old.state ≡ Ended ending → IsEnded result ending }
        ensures err { OnErr result (self.new ≡ self.old) }
    {
        self.hear(alloc, piece)
    }

    /// Hears what the client sent next, from where the handshake is.
    fn hear(&mut self, alloc: Global, piece: &[u8]) -> Result<AuthStep, NoMemory>
        requires { self.old.state ≢ Begun [] }
        ensures step { IfOk result (λ step. Gives
            (resume self.old.uid self.old.guid self.old.state piece.now) self.old self.new step) }
        ensures ended { (ending : Ending) → self.old.state ≡ Ended ending → IsOk result }
        ensures err { OnErr result (self.new ≡ self.old) }
    {
        match self.progress {
            Progress::WaitingForNul => self.first_bytes(alloc, piece),
            Progress::Talking(talk) => self.more_lines(alloc, talk, piece),
            Progress::Begun => unreachable!(),
            Progress::Ended(ending) => Ok(quiet(alloc, AuthState::Ended(ending))),
        }
    }

    /// Hears the NUL and what comes behind it.
    fn first_bytes(&mut self, alloc: Global, piece: &[u8]) -> Result<AuthStep, NoMemory>
        requires { self.old.state ≡ WaitingForNul }
        ensures step { IfOk result (λ step. Gives
            (greet self.old.uid self.old.guid piece.now) self.old self.new step) }
        ensures err { OnErr result (self.new ≡ self.old) }
    {
        match piece.split_first() {
            None => Ok(quiet(alloc, AuthState::Going)),
            Some((first, rest)) => {
                if *first == 0 {
                    let talk = Talk {
                        stage: Stage::WaitingForAuth,
                        lines: 0,
                    };
                    self.more_lines(alloc, talk, rest)
                } else {
                    self.progress = Progress::Ended(Ending::NoNul);
                    Ok(quiet(alloc, AuthState::Ended(Ending::NoNul)))
                }
            }
        }
    }

    /// Hears more of a talk.
    fn more_lines(&mut self, alloc: Global, talk: Talk, piece: &[u8]) -> Result<AuthStep, NoMemory>
        ensures step { IfOk result (λ step. Gives (run self.old.uid self.old.guid talk
            (cut (open_line self.old.state ++ piece.now))) self.old self.new step) }
        ensures err { OnErr result (self.new ≡ self.old) }
    {
        let kept = self.line.len();
        self.line.extend_from_slice(piece)?;
        match hear_lines(
            alloc,
            self.uid,
            self.guid.as_slice(),
            talk,
            self.line.as_slice(),
            kept,
        ) {
            Ok(heard) => Ok(settle(alloc, &mut self.progress, &mut self.line, heard)),
            Err(NoMemory) => {
                self.line.truncate(kept);
                Err(NoMemory)
            }
        }
    }
}
