// The words that the program was started with.

use login_base::{Items, NoMemory, Word};
use std::env::{Env, FillError};

/// The argument of this number, as its bytes, where there is one. Number 0 is the program's name.
fn argument(rt: &HostRuntime, number: usize) -> Result<Option<Word>, NoMemory> {
    let mut room: usize = 256;
    for _ in 0..usize::BITS {
        let mut bytes = vec![in rt.alloc(); 0; room]?;
        match rt.arg(number, bytes.as_mut_slice()) {
            Ok(count) => {
                bytes.truncate(count);
                return Ok(Some(Word::from_vec(bytes)));
            }
            Err(FillError::NotPresent) => return Ok(None),
            Err(FillError::TooLong) => room = room.saturating_mul(2),
        }
    }
    Err(NoMemory)
}

/// The words after the program's name. A word need not be text.
pub fn words_of(rt: &HostRuntime) -> Result<Items<Word>, NoMemory> {
    let mut words = Items::new(rt.alloc());
    for number in 1..usize::MAX {
        match argument(rt, number)? {
            Some(word) => words.push(word)?,
            None => break,
        }
    }
    Ok(words)
}
