// What a line says.

ghost use Rattle.std.specs.Prelude.{◌≡◌};
ghost use Rattle.login_conf.specs.Sayings.{is_silent, is_section_line, section_of, assignment, login_line, saying};

use crate::cut::{cut, trimmed};
use crate::diagnostic::ConfFault;
use crate::key::{is_skipped, read_key};
use crate::setting::{Setting, read_setting};

/// Where a line stands.
#[derive(Clone, Copy)]
pub enum Section {
    /// Before any section.
    Before,
    /// In the section `[Login]`.
    Login,
    /// In another section.
    Other,
}

/// What a line says.
#[derive(Clone, Copy)]
pub enum Saying {
    Nothing,
    /// A section begins.
    Opens(Section),
    /// A key has a value.
    Sets(Setting),
    Wrong(ConfFault),
}

/// Whether a line without blanks at its ends is empty or a comment.
fn is_silent(line: &[u8]) -> bool
    ensures { result ≡ is_silent line.now }
{
    line.is_empty() || line[0] == b'#' || line[0] == b';'
}

/// Whether a line begins a section.
fn is_section_line(line: &[u8]) -> bool
    ensures { result ≡ is_section_line line.now }
{
    !line.is_empty() && line[0] == b'[' && line[line.len() - 1] == b']'
}

/// The section that a line begins.
fn section_of(line: &[u8]) -> Section
    ensures { result ≡ section_of line.now }
{
    if line == b"[Login]".as_slice() {
        Section::Login
    } else {
        Section::Other
    }
}

/// What it says that a key is assigned a value.
#[tactic(auto, unfolding(crate::specs::Sayings::assignment))]
fn assignment(key: &[u8], value: &[u8]) -> Saying
    ensures { result ≡ assignment key.now value.now }
{
    match read_key(key) {
        Some(key) => match read_setting(key, value) {
            Some(setting) => Saying::Sets(setting),
            None => Saying::Wrong(ConfFault::BadValue),
        },
        None => {
            if is_skipped(key) {
                Saying::Nothing
            } else {
                Saying::Wrong(ConfFault::UnknownKey)
            }
        }
    }
}

/// What a line of the section `[Login]` says.
#[tactic(auto, unfolding(crate::specs::Sayings::login_line))]
fn login_line(line: &[u8]) -> Saying
    ensures { result ≡ login_line line.now }
{
    let (key, value) = cut(line, b'=');
    match value {
        Some(value) => assignment(trimmed(key), trimmed(value)),
        None => Saying::Wrong(ConfFault::NoEqualsSign),
    }
}

/// What a line says where it stands.
#[tactic(auto, unfolding(crate::specs::Sayings::saying))]
pub(crate) fn read_line(section: Section, text: &[u8]) -> Saying
    ensures { result ≡ saying section text.now }
{
    let line = trimmed(text);
    if is_silent(line) {
        return Saying::Nothing;
    }
    if is_section_line(line) {
        return Saying::Opens(section_of(line));
    }
    match section {
        Section::Before => Saying::Wrong(ConfFault::BeforeSections),
        Section::Login => login_line(line),
        Section::Other => Saying::Nothing,
    }
}
