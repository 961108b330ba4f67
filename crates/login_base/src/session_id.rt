// Ids of sessions, as texts.

ghost use Rattle.std.specs.Prelude.{◌≡◌, IfOk};
ghost use Rattle.login_base.specs.SessionId.{session_text, session_of};

use crate::decimal::append_decimal;
use crate::ids::SessId;
use crate::memory::NoMemory;
use crate::number::read_number;
use crate::word::Word;
use std::alloc::Global;

impl SessId {
    /// The session's id: `c` and its number in decimal.
    pub fn text(&self, alloc: Global) -> Result<Word, NoMemory>
        ensures { IfOk result (λ word. word ≡ session_text self.now) }
    {
        let mut text = Vec::from_slice(alloc, b"c")?;
        append_decimal(&mut text, u64::from(self.0))?;
        Ok(Word::from_vec(text))
    }

    /// The session whose id the text is.
    pub fn read(text: &[u8]) -> Option<SessId>
        ensures { result ≡ session_of text.now }
    {
        let (first, digits) = text.split_first()?;
        if *first != b'c' {
            return None;
        }
        let number = read_number(digits)?;
        Some(SessId(number))
    }
}
