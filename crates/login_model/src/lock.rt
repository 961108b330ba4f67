// Inhibitor locks (org.freedesktop.login1(5), Manager.Inhibit).

ghost use Rattle.std.specs.Prelude.{◌≡◌, ◌++◌, IfOk, OnOk};
ghost use Rattle.login_model.specs.inner.Prefixed.{prefixed};
ghost use Rattle.login_model.specs.Locks.{has_word, is_what, words_in};
ghost use Rattle.login_model.specs.Words.{general_words, handled_words, lock_words, word_if};

use crate::hardware::HardKey;
use crate::operation::OpKind;
use login_base::{ConnId, NoMemory, Uid, Word};
use std::alloc::Global;

// The words of what a lock holds up.
const SHUTDOWN: &[u8] = b"shutdown";

const SLEEP: &[u8] = b"sleep";

const IDLE: &[u8] = b"idle";

const HANDLE_POWER_KEY: &[u8] = b"handle-power-key";

const HANDLE_SUSPEND_KEY: &[u8] = b"handle-suspend-key";

const HANDLE_HIBERNATE_KEY: &[u8] = b"handle-hibernate-key";

const HANDLE_LID_SWITCH: &[u8] = b"handle-lid-switch";

/// All words of what a lock holds up.
const WORDS: [&[u8]; 7] = [
    SHUTDOWN,
    SLEEP,
    IDLE,
    HANDLE_POWER_KEY,
    HANDLE_SUSPEND_KEY,
    HANDLE_HIBERNATE_KEY,
    HANDLE_LID_SWITCH,
];

fn is_lock_word(word: &[u8]) -> bool
    ensures { result ≡ has_word lock_words word.now }
{
    WORDS.iter().any(|known| *known == word)
}

/// Whether each word of a text is known.
fn are_lock_words(text: &[u8]) -> bool
    ensures { result ≡ is_what text.now }
{
    text.split(|byte| *byte == b':')
        .all(|word| is_lock_word(word))
}

/// Whether a text has this word.
fn has_word(text: &[u8], word: &[u8]) -> bool
    ensures { result ≡ has_word (words_in text.now) word.now }
{
    text.split(|byte| *byte == b':').any(|part| part == word)
}

/// Adds a colon and a word, if it is there.
fn push_word_if(out: &mut Vec<u8>, there: bool, word: &[u8]) -> Result<(), NoMemory>
    ensures { OnOk result (out.new.items ≡ out.old.items ++ prefixed 58 (word_if there word.now)) }
{
    if there {
        out.push(b':')?;
        out.extend_from_slice(word)?;
    }
    Ok(())
}

/// What a lock holds up.
#[derive(Clone, Copy)]
pub struct Inhibited {
    pub shutdown: bool,
    pub sleep: bool,
    pub idle: bool,
    pub handle_power_key: bool,
    pub handle_suspend_key: bool,
    pub handle_hibernate_key: bool,
    pub handle_lid_switch: bool,
}

impl Inhibited {
    ghost use Rattle.std.specs.Prelude.{◌≡◌, ◌++◌, if◌then◌else◌, IfOk, None, OnOk, Some};
    ghost use Rattle.login_model.specs.inner.Prefixed.{prefixed};
    ghost use Rattle.login_model.specs.Facts.{holds_up, holds_key};
    ghost use Rattle.login_model.specs.Locks.{is_what, what_of};
    ghost use Rattle.login_model.specs.Policy.{names_more};
    ghost use Rattle.login_model.specs.Properties.{either_inhibited};
    ghost use Rattle.login_model.specs.Words.{general_words, handled_words, what_text};

    /// Nothing is held up.
    pub const NOTHING: Inhibited = Inhibited {
        shutdown: false,
        sleep: false,
        idle: false,
        handle_power_key: false,
        handle_suspend_key: false,
        handle_hibernate_key: false,
        handle_lid_switch: false,
    };

    /// What either of two holds up.
    pub fn or(self, other: Inhibited) -> Inhibited
        ensures { result ≡ either_inhibited self other }
    {
        Inhibited {
            shutdown: self.shutdown || other.shutdown,
            sleep: self.sleep || other.sleep,
            idle: self.idle || other.idle,
            handle_power_key: self.handle_power_key || other.handle_power_key,
            handle_suspend_key: self.handle_suspend_key || other.handle_suspend_key,
            handle_hibernate_key: self.handle_hibernate_key || other.handle_hibernate_key,
            handle_lid_switch: self.handle_lid_switch || other.handle_lid_switch,
        }
    }

    /// What a text names: words that colons part, in any order. None where a word is none of these, as the
    /// empty one is.
    #[tactic(auto, unfolding(crate::specs::Locks::what_of))]
    pub fn read(text: &[u8]) -> Option<Inhibited>
        ensures { result ≡ if is_what text.now then Some (what_of text.now) else None }
    {
        if !are_lock_words(text) {
            return None;
        }
        Some(Inhibited {
            shutdown: has_word(text, SHUTDOWN),
            sleep: has_word(text, SLEEP),
            idle: has_word(text, IDLE),
            handle_power_key: has_word(text, HANDLE_POWER_KEY),
            handle_suspend_key: has_word(text, HANDLE_SUSPEND_KEY),
            handle_hibernate_key: has_word(text, HANDLE_HIBERNATE_KEY),
            handle_lid_switch: has_word(text, HANDLE_LID_SWITCH),
        })
    }

    /// Adds which of the operations and of idleness it has, a colon before each.
    fn push_general(&self, out: &mut Vec<u8>) -> Result<(), NoMemory>
        ensures { OnOk result (out.new.items ≡ out.old.items ++ prefixed 58 (general_words self.now)) }
    {
        push_word_if(out, self.shutdown, SHUTDOWN)?;
        push_word_if(out, self.sleep, SLEEP)?;
        push_word_if(out, self.idle, IDLE)
    }

    /// Adds which of the keys and the lid, a colon before each.
    fn push_handled(&self, out: &mut Vec<u8>) -> Result<(), NoMemory>
        ensures { OnOk result (out.new.items ≡ out.old.items ++ prefixed 58 (handled_words self.now)) }
    {
        push_word_if(out, self.handle_power_key, HANDLE_POWER_KEY)?;
        push_word_if(out, self.handle_suspend_key, HANDLE_SUSPEND_KEY)?;
        push_word_if(out, self.handle_hibernate_key, HANDLE_HIBERNATE_KEY)?;
        push_word_if(out, self.handle_lid_switch, HANDLE_LID_SWITCH)
    }

    /// All its words, a colon before each.
    fn words(&self, alloc: Global) -> Result<Vec<u8>, NoMemory>
        ensures { IfOk result (λ words. words.items ≡ prefixed 58 (general_words self.now ++ handled_words self.now)) }
    {
        let mut out = Vec::new(alloc);
        self.push_general(&mut out)?;
        self.push_handled(&mut out)?;
        Ok(out)
    }

    /// Its words in their order, with colons between them.
    pub fn text(&self, alloc: Global) -> Result<Vec<u8>, NoMemory>
        ensures { IfOk result (λ text. text.items ≡ what_text self.now) }
    {
        let words = self.words(alloc)?;
        let mut out = Vec::new(alloc);
        if let [_, rest @ ..] = words.as_slice() {
            out.extend_from_slice(rest)?;
        }
        Ok(out)
    }

    /// Whether it has the word of an operation: shutdown for those that end the machine's run, else sleep.
    pub fn holds_up(&self, kind: OpKind) -> bool
        ensures { result ≡ holds_up kind self.now }
    {
        match kind {
            OpKind::PowerOff | OpKind::Reboot | OpKind::Halt => self.shutdown,
            _ => self.sleep,
        }
    }

    /// Whether it has the word of a key, or of the lid.
    pub fn holds_key(&self, key: HardKey) -> bool
        ensures { result ≡ holds_key key self.now }
    {
        match key {
            HardKey::Power => self.handle_power_key,
            HardKey::Suspend => self.handle_suspend_key,
            HardKey::Hibernate => self.handle_hibernate_key,
            HardKey::Lid => self.handle_lid_switch,
        }
    }

    /// Whether it names more than shutdown and sleep, which alone can be delayed.
    pub fn names_more(&self) -> bool
        ensures { result ≡ names_more self.now }
    {
        self.idle
            || self.handle_power_key
            || self.handle_suspend_key
            || self.handle_hibernate_key
            || self.handle_lid_switch
    }
}

/// How a lock holds it up.
#[derive(Clone, Copy, PartialEq, Eq)]
pub enum LockMode {
    /// It is refused.
    Block,
    /// It waits for a limited time.
    Delay,
}

impl LockMode {
    ghost use Rattle.std.specs.Prelude.{◌≡◌, IfSome, Some};
    ghost use Rattle.login_model.specs.declared.lock.LockMode.{LockMode};
    ghost use Rattle.login_model.specs.Words.{mode_word, mode_named};

    /// All modes.
    pub const ALL: [LockMode; 2] = [LockMode::Block, LockMode::Delay];

    /// The word for the mode.
    pub fn name(self) -> &'static [u8]
        ensures value { result.now ≡ mode_word self }
        ensures distinct { (other : LockMode) → mode_word other ≡ mode_word self → other ≡ self }
    {
        match self {
            LockMode::Block => b"block",
            LockMode::Delay => b"delay",
        }
    }

    /// The mode of a word.
    pub fn read(text: &[u8]) -> Option<LockMode>
        ensures value { result ≡ mode_named text.now }
        ensures found { IfSome result (λ mode. mode_word mode ≡ text.now) }
        ensures all { (mode : LockMode) → mode_word mode ≡ text.now → result ≡ Some mode }
    {
        LockMode::ALL
            .iter()
            .copied()
            .find(|mode| mode.name() == text)
    }
}

/// A lock that stands.
#[derive(Drop)]
pub struct Lock {
    pub what: Inhibited,
    pub mode: LockMode,
    pub uid: Uid,
    /// Who asked for it, for people to read.
    pub who: Word,
    /// Why, for people to read.
    pub why: Word,
    /// The connection that asked for it.
    pub holder: ConnId,
}

impl Lock {
    ghost use Rattle.std.specs.Prelude.{◌≡◌, if◌then◌else◌};
    ghost use Rattle.login_model.specs.Facts.{nothing_inhibited};
    ghost use Rattle.login_model.specs.Same.{same_mode};

    /// What it holds up, if it has this mode; else nothing.
    pub fn inhibited(&self, mode: LockMode) -> Inhibited
        ensures { result ≡ if same_mode self.now.mode mode then self.now.what else nothing_inhibited }
    {
        if self.mode == mode {
            self.what
        } else {
            Inhibited::NOTHING
        }
    }
}
