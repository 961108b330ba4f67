// The text of lines while it is printed.

ghost use Rattle.std.specs.Prelude.{◌≡◌, ◌+◌, ◌*◌, ◌≤◌, ◌++◌, ◌∷◌, [], OnOk, IfOk, vec_len, vec_capacity};
ghost use Rattle.std.specs.Fmt.{decimal, signed_decimal};
ghost use Rattle.std.specs.List.{flat_map};
ghost use Rattle.login_base.specs.SessionId.{session_text};
ghost use Rattle.recording.specs.Text.{spell_byte, spell_text, spell_flag};

use crate::word::stands_for_itself;
use login_base::{NoMemory, SessId, Word, append_decimal, hex_digit};
use std::alloc::Global;
use std::marker::Model;

/// The text of lines while it is printed. After want of memory it may hold a part of what was to be added.
#[derive(Drop)]
pub struct LineText {
    alloc: Global,
    bytes: Vec<u8>,
}

impl Model for LineText {
    ghost use Rattle.std.specs.Prelude.{List, ℕ};

    ghost Value = { List ℕ };

    ghost view = { λ s. s.bytes.items };
}

impl LineText {
    /// The empty text. It takes no memory.
    pub fn new(alloc: Global) -> LineText
        ensures { result ≡ [] }
    {
        LineText {
            alloc,
            bytes: Vec::new(alloc),
        }
    }

    /// The allocator of the text.
    pub(crate) fn alloc(&self) -> Global {
        self.alloc
    }

    /// The bytes so far. It takes no memory.
    pub fn into_word(self) -> Word
        ensures { result ≡ self }
    {
        let LineText { bytes, .. } = self;
        Word::from_vec(bytes)
    }

    /// The bytes so far, with room for so many more.
    pub(crate) fn with_room(self, count: usize) -> Result<Vec<u8>, NoMemory>
        ensures items { IfOk result (λ bytes. bytes.items ≡ self) }
        ensures room { IfOk result (λ bytes. vec_len bytes + count ≤ vec_capacity bytes) }
    {
        let LineText { mut bytes, .. } = self;
        bytes.reserve(count)?;
        Ok(bytes)
    }

    /// Adds bytes as they are.
    pub fn push(&mut self, bytes: &[u8]) -> Result<(), NoMemory>
        ensures { OnOk result (self.new ≡ self.old ++ bytes.now) }
    {
        self.bytes.extend_from_slice(bytes)?;
        Ok(())
    }

    /// Adds a space and a word as it is.
    pub fn word(&mut self, word: &[u8]) -> Result<(), NoMemory>
        ensures { OnOk result (self.new ≡ self.old ++ 32 ∷ word.now) }
    {
        self.push(b" ")?;
        self.push(word)
    }

    /// Adds a number in decimal.
    fn decimal(&mut self, n: u64) -> Result<(), NoMemory>
        ensures { OnOk result (self.new ≡ self.old ++ decimal n) }
    {
        append_decimal(&mut self.bytes, n)
    }

    /// Adds a number of 32 bits in decimal.
    pub(crate) fn digits(&mut self, n: u32) -> Result<(), NoMemory>
        ensures { OnOk result (self.new ≡ self.old ++ decimal n) }
    {
        self.decimal(u64::from(n))
    }

    /// Adds a space and a number in decimal.
    pub fn number(&mut self, n: u32) -> Result<(), NoMemory>
        ensures { OnOk result (self.new ≡ self.old ++ 32 ∷ decimal n) }
    {
        self.push(b" ")?;
        self.digits(n)
    }

    /// Adds a space and a number of 64 bits in decimal.
    pub fn moment(&mut self, n: u64) -> Result<(), NoMemory>
        ensures { OnOk result (self.new ≡ self.old ++ 32 ∷ decimal n) }
    {
        self.push(b" ")?;
        self.decimal(n)
    }

    /// Adds a number of milliseconds as microseconds.
    pub(crate) fn microseconds(&mut self, n: u64) -> Result<(), NoMemory>
        ensures { OnOk result (self.new ≡ self.old ++ decimal (n * 1000)) }
    {
        self.decimal(n)?;
        if n == 0 {
            return Ok(());
        }
        self.push(b"000")
    }

    /// Adds a space and a signed number in decimal.
    pub(crate) fn signed(&mut self, n: i32) -> Result<(), NoMemory>
        ensures { OnOk result (self.new ≡ self.old ++ 32 ∷ signed_decimal n) }
    {
        if n < 0 {
            self.push(b" -")?;
        } else {
            self.push(b" ")?;
        }
        self.digits(n.unsigned_abs())
    }

    /// Adds a space and a session's id.
    pub(crate) fn session(&mut self, session: SessId) -> Result<(), NoMemory>
        ensures { OnOk result (self.new ≡ self.old ++ 32 ∷ session_text session) }
    {
        self.push(b" c")?;
        self.digits(session.0)
    }

    /// Adds a space and a flag.
    pub(crate) fn flag(&mut self, flag: bool) -> Result<(), NoMemory>
        ensures { OnOk result (self.new ≡ self.old ++ 32 ∷ spell_flag flag) }
    {
        if flag {
            self.push(b" true")
        } else {
            self.push(b" false")
        }
    }

    /// Adds a byte of a text.
    fn byte(&mut self, byte: u8) -> Result<(), NoMemory>
        ensures { OnOk result (self.new ≡ self.old ++ spell_byte byte) }
    {
        if stands_for_itself(byte) {
            self.push(&[byte])
        } else {
            self.push(&[b'%', hex_digit(byte / 16), hex_digit(byte % 16)])
        }
    }

    /// Adds the bytes of a text.
    fn spelled(&mut self, text: &[u8]) -> Result<(), NoMemory>
        ensures { OnOk result (self.new ≡ self.old ++ flat_map spell_byte text.now) }
    {
        for byte in text {
            self.byte(*byte)?;
        }
        Ok(())
    }

    /// Adds a text as one word.
    pub(crate) fn value(&mut self, text: &[u8]) -> Result<(), NoMemory>
        ensures { OnOk result (self.new ≡ self.old ++ spell_text text.now) }
    {
        if text.is_empty() {
            self.push(b"%")
        } else {
            self.spelled(text)
        }
    }

    /// Adds a space and a text as one word.
    pub(crate) fn text(&mut self, text: &[u8]) -> Result<(), NoMemory>
        ensures { OnOk result (self.new ≡ self.old ++ 32 ∷ spell_text text.now) }
    {
        self.push(b" ")?;
        self.value(text)
    }
}
