// How signatures are read: letter by letter, with the containers that are open.

ghost use Rattle.std.specs.Prelude.{◌≡◌, ◌<◌, ◌≤◌, ◌^◌, ◌+◌, length, OnOk, IsTrue};
ghost use Rattle.bus_names.specs.Limits.{most_letters, most_nested};
ghost use Rattle.bus_names.specs.Parsing.{complete, open_array, open_struct, open_entry, close_struct, other_letter, first_letter, key_letter, end_letter, step, is_ready, start, parse_from, Parses};
ghost use Rattle.bus_names.specs.inner.Parsing.{Steps};

use crate::basic::Basic;
use crate::fault::NameFault;
use crate::frames::Frames;
use crate::types::Type;
use login_base::{Items, NoMemory};
use std::alloc::{AllocError, AllocFailed, Global};
use std::mem;

/// How deep arrays are nested at most, and structs too.
pub const MOST_DEEP: usize = 32;

/// A container that is open and waits for a type.
#[derive(Drop)]
pub enum Frame {
    Array,
    /// A struct, with the fields so far.
    Struct(Items<Type>),
    /// A dict entry behind its key.
    Value(Basic),
}

/// What the next letter has to be.
#[derive(Drop)]
pub enum Turn {
    /// The first letter of a type, or the end of a struct.
    First,
    /// The key of a dict entry.
    Key,
    /// The end of a dict entry.
    End(Basic, Type),
}

/// The types so far, the containers that are open, and what comes next.
#[derive(Drop)]
pub struct Parser {
    pub done: Items<Type>,
    pub frames: Frames,
    pub turn: Turn,
}

/// Why a letter is refused.
#[derive(Clone, Copy, PartialEq, Eq)]
pub enum Refusal {
    /// No signature goes on so.
    Bad,
    /// It opens a container too many.
    Deep,
    NoMemory,
}

impl From<NoMemory> for Refusal {
    ghost use Rattle.std.specs.Prelude.{◌≡◌};
    ghost use Rattle.bus_names.specs.declared.parse.Refusal.TheVariants.{NoMemory as no_memory};

    ghost from_gives = { λ _ e. e ≡ no_memory };

    fn from(_e: NoMemory) -> Refusal {
        Refusal::NoMemory
    }
}

impl Parser {
    /// Nothing was read.
    fn new(alloc: Global) -> Parser
        ensures { result ≡ start }
    {
        Parser {
            done: Items::new(alloc),
            frames: Frames::new(alloc),
            turn: Turn::First,
        }
    }

    /// Whether the types so far are whole.
    fn is_ready(&self) -> bool
        ensures { result ≡ is_ready self.now }
    {
        self.frames.is_empty() && matches!(self.turn, Turn::First)
    }

    /// Puts a type where one is wanted, and closes the arrays that it completes.
    fn complete(&mut self, alloc: Global, made: Type) -> Result<(), NoMemory>
        ensures { OnOk result (self.new ≡ complete made self.old.done self.old.frames) }
    {
        match self.frames.pop() {
            None => {
                self.done.push(made)?;
                self.turn = Turn::First;
                Ok(())
            }
            Some(Frame::Array) => self.complete(alloc, Type::array(alloc, made)?),
            Some(Frame::Struct(mut fields)) => {
                fields.push(made)?;
                self.frames.push(Frame::Struct(fields))?;
                self.turn = Turn::First;
                Ok(())
            }
            Some(Frame::Value(key)) => {
                self.turn = Turn::End(key, made);
                Ok(())
            }
        }
    }

    /// Opens an array.
    fn open_array(&mut self) -> Result<(), Refusal>
        ensures { Steps result self.new (open_array most_nested self.old.done self.old.frames) }
    {
        if self.frames.array_count() >= MOST_DEEP {
            return Err(Refusal::Deep);
        }
        self.frames.push(Frame::Array)?;
        self.turn = Turn::First;
        Ok(())
    }

    /// Opens a struct.
    fn open_struct(&mut self, alloc: Global) -> Result<(), Refusal>
        ensures { Steps result self.new (open_struct most_nested self.old.done self.old.frames) }
    {
        if self.frames.struct_count() >= MOST_DEEP {
            return Err(Refusal::Deep);
        }
        self.frames.push(Frame::Struct(Items::new(alloc)))?;
        self.turn = Turn::First;
        Ok(())
    }

    /// Opens a dict entry.
    fn open_entry(&mut self) -> Result<(), Refusal>
        ensures { Steps result self.new (open_entry self.old.done self.old.frames) }
    {
        match self.frames.pop() {
            Some(Frame::Array) => {
                self.turn = Turn::Key;
                Ok(())
            }
            _ => Err(Refusal::Bad),
        }
    }

    /// Closes a struct.
    fn close_struct(&mut self, alloc: Global) -> Result<(), Refusal>
        ensures { Steps result self.new (close_struct self.old.done self.old.frames) }
    {
        match self.frames.pop() {
            Some(Frame::Struct(fields)) if !fields.is_empty() => {
                self.complete(alloc, Type::structure(alloc, fields.into_vec())?)?;
                Ok(())
            }
            _ => Err(Refusal::Bad),
        }
    }

    /// Takes a letter that is of no basic type.
    fn other_letter(&mut self, alloc: Global, letter: u8) -> Result<(), Refusal>
        ensures { Steps result self.new (other_letter most_nested self.old.done self.old.frames letter) }
    {
        match letter {
            b'v' => {
                self.complete(alloc, Type::variant())?;
                Ok(())
            }
            b'a' => self.open_array(),
            b'(' => self.open_struct(alloc),
            b'{' => self.open_entry(),
            b')' => self.close_struct(alloc),
            _ => Err(Refusal::Bad),
        }
    }

    /// Takes the first letter of a type, or the end of a struct.
    fn first_letter(&mut self, alloc: Global, letter: u8) -> Result<(), Refusal>
        ensures { Steps result self.new (first_letter most_nested self.old.done self.old.frames letter) }
    {
        match Basic::from_letter(letter) {
            Some(kind) => {
                self.complete(alloc, Type::basic(kind))?;
                Ok(())
            }
            None => self.other_letter(alloc, letter),
        }
    }

    /// Takes the key of a dict entry.
    fn key_letter(&mut self, letter: u8) -> Result<(), Refusal>
        ensures { Steps result self.new (key_letter self.old.done self.old.frames letter) }
    {
        match Basic::from_letter(letter) {
            Some(key) => {
                self.frames.push(Frame::Value(key))?;
                self.turn = Turn::First;
                Ok(())
            }
            None => Err(Refusal::Bad),
        }
    }

    /// Takes the end of a dict entry.
    fn end_letter(
        &mut self,
        alloc: Global,
        key: Basic,
        value: Type,
        letter: u8,
    ) -> Result<(), Refusal>
        ensures { Steps result self.new (end_letter key value self.old.done self.old.frames letter) }
    {
        if letter != b'}' {
            return Err(Refusal::Bad);
        }
        self.complete(alloc, Type::dict(alloc, key, value)?)?;
        Ok(())
    }

    /// Takes the next letter. An `Err` leaves it unfit for further letters.
    fn step(&mut self, alloc: Global, letter: u8) -> Result<(), Refusal>
        ensures { Steps result self.new (step most_nested self.old letter) }
    {
        match mem::replace(&mut self.turn, Turn::First) {
            Turn::First => self.first_letter(alloc, letter),
            Turn::Key => self.key_letter(letter),
            Turn::End(key, value) => self.end_letter(alloc, key, value, letter),
        }
    }
}

/// The types whose signatures stand in the text one after another.
pub fn parse(alloc: Global, text: &[u8]) -> Result<Items<Type>, NameFault>
    requires { length text.now ≤ most_letters }
    ensures { Parses result (parse_from most_nested start 0 text.now) }
{
    let mut parser = Parser::new(alloc);
    let mut at = 0;
    for letter in text {
        match parser.step(alloc, *letter) {
            Ok(()) => {}
            Err(Refusal::Bad) => return Err(NameFault::BadSignature(at)),
            Err(Refusal::Deep) => return Err(NameFault::TooDeep(at)),
            Err(Refusal::NoMemory) => return Err(NameFault::NoMemory),
        }
        at += 1;
    }
    if parser.is_ready() {
        Ok(parser.done)
    } else {
        Err(NameFault::BadSignature(at))
    }
}
