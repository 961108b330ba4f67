//! The worked cases of the tests that cross crates: recordings and their transcripts, lines and what they are
//! answered, lines that are refused, and mail.
//!
//! The expected bytes are written by hand from docs/PROFILE.md, those that links are sent by libdbus, and none are
//! taken from the program's own output.
#![tactic(auto)]

pub mod answers;
pub mod configuration;
pub mod denials;
pub mod devices;
pub mod limits;
pub mod links;
pub mod mail;
pub mod messages;
pub mod places;
pub mod power;
pub mod properties;
pub mod refusals;
pub mod rules;
pub mod session_lives;
pub mod terminals;
pub mod turns;

/// Some lines of a recording, and what its transcript has of them.
pub type Piece = (&'static str, &'static str);

/// A recording that is accepted whole, in pieces.
#[derive(Clone, Copy)]
pub struct Case {
    pub name: &'static str,
    pub pieces: &'static [Piece],
}

/// What a recording begins with, through some of its events, and how many these are.
#[derive(Clone, Copy)]
pub struct Beginning {
    pub piece: Piece,
    pub entries: u32,
}

/// Lines behind a beginning that make no marks, each with what it is answered.
#[derive(Clone, Copy)]
pub struct Answered {
    pub name: &'static str,
    pub beginning: Beginning,
    pub lines: &'static [(&'static str, &'static str)],
}

/// Lines each of which is refused behind a front, as line `number` and for its cause; and what the transcript has then.
#[derive(Clone, Copy)]
pub struct Refused {
    pub name: &'static str,
    pub front: &'static [u8],
    pub lines: &'static [(&'static [u8], &'static str)],
    pub number: u32,
    pub transcript: &'static [u8],
}
