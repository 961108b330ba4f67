// Words, numbers and line feeds behind a text.

ghost use Rattle.std.specs.Prelude.{◌≡◌, ◌+◌, ◌≤◌, ◌++◌, ◌∷◌, [], OnOk, length, vec_len, vec_capacity};
ghost use Rattle.std.specs.Fmt.{decimal};
ghost use Rattle.replay.specs.Closing.{number_room};

use login_base::{NoMemory, append_decimal, push_decimal};

/// Adds words and a number.
pub fn append_numbered(out: &mut Vec<u8>, words: &[u8], number: u64) -> Result<(), NoMemory>
    ensures { OnOk result (out.new.items ≡ out.old.items ++ (words.now ++ decimal number)) }
{
    out.extend_from_slice(words)?;
    append_decimal(out, number)
}

/// Adds words and a number, which end a line.
pub fn end_numbered(out: &mut Vec<u8>, words: &[u8], number: u64) -> Result<(), NoMemory>
    ensures { OnOk result (out.new.items ≡ out.old.items ++ (words.now ++ (decimal number ++ 10 ∷ []))) }
{
    append_numbered(out, words, number)?;
    out.push(b'\n')?;
    Ok(())
}

/// Puts a text at the end, without memory.
pub(crate) fn push_text(out: &mut Vec<u8>, text: &[u8])
    requires { vec_len out.old + length text.now ≤ vec_capacity out.old }
    ensures items { out.new.items ≡ out.old.items ++ text.now }
    ensures len { vec_len out.new ≡ vec_len out.old + length text.now }
    ensures capacity { vec_capacity out.old ≤ vec_capacity out.new }
{
    out.extend_from_slice(text).unwrap();
}

/// Puts words and a number at the end of a text, without memory.
pub fn push_counted(out: &mut Vec<u8>, words: &[u8], number: u64)
    requires room { vec_len out.old + (length words.now + number_room) ≤ vec_capacity out.old }
    ensures items { out.new.items ≡ out.old.items ++ (words.now ++ decimal number) }
    ensures len { vec_len out.new ≤ vec_len out.old + (length words.now + number_room) }
    ensures capacity { vec_capacity out.old ≤ vec_capacity out.new }
{
    push_text(out, words);
    push_decimal(out, number);
}
