// What an event does: the facts that it sets, and the notices that it sends.

use crate::answer::Answer;
use crate::event::Event;
use crate::fact::{Fact, Key};
use crate::rule::Verdict;
use login_base::{ConnId, DevNo, HandleNo, Items, SeatName, SessId, Uid};

/// Why a device is paused (org.freedesktop.login1(5), PauseDevice).
#[derive(Clone, Copy, PartialEq, Eq)]
pub enum PauseKind {
    /// The session is asked to let go of it, and has to acknowledge that.
    Pause,
    /// It was taken away.
    Force,
    /// It is gone.
    Gone,
}

impl PauseKind {
    ghost use Rattle.std.specs.Prelude.{◌≡◌};
    ghost use Rattle.login_model.specs.Words.{pause_word};

    /// The word for the kind.
    pub fn name(self) -> &'static [u8]
        ensures { result.now ≡ pause_word self }
    {
        match self {
            PauseKind::Pause => b"pause",
            PauseKind::Force => b"force",
            PauseKind::Gone => b"gone",
        }
    }
}

/// What clients are told by a signal of org.freedesktop.login1(5).
#[derive(Clone, Copy)]
pub enum Notice {
    /// Session.PauseDevice.
    Pause(SessId, DevNo, PauseKind),
    /// Session.ResumeDevice.
    Resume(SessId, DevNo, HandleNo),
    /// Session.Lock.
    Lock(SessId),
    /// Session.Unlock.
    Unlock(SessId),
    /// Manager.SessionNew.
    SessionNew(SessId),
    /// Manager.SessionRemoved.
    SessionRemoved(SessId),
    /// Manager.UserNew.
    UserNew(Uid),
    /// Manager.UserRemoved.
    UserRemoved(Uid),
    /// Manager.SeatNew.
    SeatNew(SeatName),
    /// Manager.SeatRemoved.
    SeatRemoved(SeatName),
    /// Manager.PrepareForShutdown: whether it is about to begin, or is over.
    PrepareShutdown(bool),
    /// Manager.PrepareForSleep: whether it is about to begin, or is over.
    PrepareSleep(bool),
    /// PropertiesChanged of the seat and of its active session before and now.
    Active(SeatName, Option<SessId>, Option<SessId>),
}

/// Whom a notice goes to.
#[derive(Clone, Copy, PartialEq, Eq)]
pub enum Whom {
    One(ConnId),
    All,
}

/// One thing that an event does.
#[derive(Drop)]
pub enum Mark {
    Set(Key, Fact),
    Say(Whom, Notice),
}

/// One step of the journal: an event, what the policy said to it, the answer, and what it did.
#[derive(Drop)]
pub struct Entry {
    pub event: Event,
    pub verdict: Verdict,
    pub answer: Answer,
    pub marks: Items<Mark>,
}
