// The words of the command line, and which command they are.

ghost use Rattle.std.specs.Prelude.{ℕ, List, ◌≡◌, ◌≢◌, ◌++◌, ◌↔◌, codes, IsTrue, MatchOption};
ghost use Rattle.login_prog.specs.Words.{AreReplay, IsFolder, NamesFolder, ServesIn, ServesNot};
ghost use Rattle.login_prog.specs.inner.Words.{Means};

use login_base::{Items, Word};

/// What the program is told to do.
#[derive(Clone, Copy)]
pub enum Command<'w> {
    /// To read a recording and to write its transcript.
    Replay,
    /// To serve clients over sockets in this folder.
    Serve(&'w [u8]),
}

/// Whether a word is this text.
fn is_word(word: &[u8], text: &[u8]) -> bool
    ensures { IsTrue result ↔ (word.now ≡ text.now) }
{
    word == text
}

/// Whether a word may be the name of a folder: it is not empty, and no option.
fn is_folder(word: &[u8]) -> bool
    ensures { IsTrue result ↔ IsFolder word.now }
{
    match word.first() {
        Some(first) => *first != b'-',
        None => false,
    }
}

/// The folder that a word is.
fn folder(word: &[u8]) -> Option<&[u8]>
    ensures { MatchOption result (IsFolder word.now → ⊥) (λ dir. (dir.now ≡ word.now) × IsFolder word.now) }
{
    if is_folder(word) { Some(word) } else { None }
}

/// What follows `--dir=` in a word.
fn behind_dir(word: &[u8]) -> Option<&[u8]>
    ensures { MatchOption result ((rest : List ℕ) → word.now ≢ codes "--dir=" ++ rest) (λ rest. word.now ≡ codes "--dir=" ++ rest.now) }
{
    word.strip_prefix(b"--dir=")
}

/// The name that these words give a folder.
fn named_folder(options: &[Word]) -> Option<&[u8]>
    ensures { MatchOption result ((dir : List ℕ) → NamesFolder dir options.now → ⊥) (λ dir. NamesFolder dir.now options.now) }
{
    match options {
        [option] => behind_dir(option.as_slice()),
        [option, dir] if is_word(option.as_slice(), b"--dir") => Some(dir.as_slice()),
        _ => None,
    }
}

/// The folder in which links are served, where the words are those of `serve`.
fn served_folder(words: &[Word]) -> Option<&[u8]>
    ensures { MatchOption result (ServesNot words.now) (λ dir. ServesIn dir.now words.now) }
{
    match words {
        [serve, options @ ..] if is_word(serve.as_slice(), b"serve") => {
            match named_folder(options) {
                Some(name) => folder(name),
                None => None,
            }
        }
        _ => None,
    }
}

/// Whether the words are `replay` alone.
fn are_replay(words: &Items<Word>) -> bool
    ensures { IsTrue result ↔ AreReplay words.now }
{
    let words = words.as_slice();
    words.len() == 1 && is_word(words[0].as_slice(), b"replay")
}

/// The command that the whole list of words is. Every other list is none, one that asks for help too.
pub fn command_of(words: &Items<Word>) -> Option<Command<'_>>
    ensures { Means words.now result }
{
    if are_replay(words) {
        return Some(Command::Replay);
    }
    match served_folder(words.as_slice()) {
        Some(dir) => Some(Command::Serve(dir)),
        None => None,
    }
}
