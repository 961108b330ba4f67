// Numbers in decimal.

ghost use Rattle.std.specs.Prelude.{◌≡◌, ◌≢◌, ◌<◌, ◌^◌, ◌↔◌, ℕ, IsTrue, length, slice_index};
ghost use Rattle.login_base.specs.Number.{number_of, whole_of};
ghost use Rattle.login_base.specs.inner.Plain.{IsPlain};

/// Whether a word is not empty, and has neither a sign nor a leading zero.
fn is_plain(word: &[u8]) -> bool
    ensures { IsTrue result ↔ IsPlain word.now }
{
    !word.is_empty() && word[0] != b'+' && (word[0] != b'0' || word.len() == 1)
}

/// The number that a word spells in decimal, below 2^32, without sign or leading zeros.
pub fn read_number(word: &[u8]) -> Option<u32>
    ensures { result ≡ number_of word.now }
{
    if !is_plain(word) {
        return None;
    }
    match str::from_utf8(word) {
        Ok(text) => match text.parse::<u32>() {
            Ok(n) => Some(n),
            Err(_) => None,
        },
        Err(_) => None,
    }
}

/// The number that a word spells in decimal, below 2^64, without sign or leading zeros.
pub fn read_whole(word: &[u8]) -> Option<u64>
    ensures { result ≡ whole_of word.now }
{
    if !is_plain(word) {
        return None;
    }
    match str::from_utf8(word) {
        Ok(text) => match text.parse::<u64>() {
            Ok(n) => Some(n),
            Err(_) => None,
        },
        Err(_) => None,
    }
}
