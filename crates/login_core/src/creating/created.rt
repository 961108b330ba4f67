// The session that a call creates, and what the texts of the call name.

ghost use Rattle.std.specs.Prelude.{◌≡◌};
ghost use Rattle.login_model.specs.Creating.{seat_of, leader_of, created_session, session_texts};
ghost use Rattle.login_model.specs.Words.{type_of, class_of};

use login_base::{ConnId, HandleNo, SeatName};
use login_model::{Class, Creation, Phase, Session, SessionTexts, SessionType};

/// The type that a text names; the empty one is unspecified.
fn type_of(text: &[u8]) -> SessionType
    ensures { result ≡ type_of text.now }
{
    SessionType::read(text).unwrap_or(SessionType::Unspecified)
}

/// The class that a text names; the empty one is user.
fn class_of(text: &[u8]) -> Class
    ensures { result ≡ class_of text.now }
{
    Class::read(text).unwrap_or(Class::User)
}

/// The seat that a text names, if it names one.
pub(crate) fn seat_of(text: &[u8]) -> Option<SeatName>
    ensures { result ≡ seat_of text.now }
{
    match SeatName::read(text) {
        Ok(seat) => Some(seat),
        Err(_) => None,
    }
}

/// The process that leads a session: process 0 stands for the caller.
fn leader_of(who: ConnId, process: u32) -> ConnId
    ensures { result ≡ leader_of who process }
{
    if process == 0 { who } else { ConnId(process) }
}

/// The session that a call creates, with a copy of its texts.
pub(crate) fn created_session(
    who: ConnId,
    creation: &Creation,
    fifo: HandleNo,
    texts: SessionTexts,
) -> Session
    requires { texts ≡ session_texts creation.now }
    ensures { result ≡ created_session who creation.now fifo }
{
    Session {
        phase: Phase::Open,
        uid: creation.uid,
        seat: seat_of(creation.seat.as_slice()),
        vt: creation.vt,
        session_type: type_of(creation.session_type.as_slice()),
        class: class_of(creation.class.as_slice()),
        leader: leader_of(who, creation.process),
        fifo,
        remote: creation.remote,
        texts,
    }
}
