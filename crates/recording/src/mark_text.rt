// How marks are printed.

ghost use Rattle.std.specs.Prelude.{◌≡◌, ◌++◌, OnOk};
ghost use Rattle.recording.specs.MarkWords.{whom_words, mark_words};
ghost use Rattle.login_model.specs.inner.Prefixed.{spaced};

use crate::fact_text::push_fact;
use crate::key_text::push_key;
use crate::line_text::LineText;
use crate::notice_text::push_notice;
use login_base::NoMemory;
use login_model::{Mark, Whom};

fn push_whom(text: &mut LineText, whom: Whom) -> Result<(), NoMemory>
    ensures { OnOk result (text.new ≡ text.old ++ spaced (whom_words whom)) }
{
    match whom {
        Whom::One(who) => {
            text.push(b" say")?;
            text.number(who.0)
        }
        Whom::All => text.push(b" all"),
    }
}

/// Adds the words of a mark.
#[tactic(auto, unfolding(crate::specs::MarkWords::mark_words))]
pub(crate) fn push_mark(text: &mut LineText, mark: &Mark) -> Result<(), NoMemory>
    ensures { OnOk result (text.new ≡ text.old ++ spaced (mark_words mark.now)) }
{
    match mark {
        Mark::Set(key, fact) => {
            text.push(b" set")?;
            push_key(text, key)?;
            push_fact(text, key, fact)
        }
        Mark::Say(whom, notice) => {
            push_whom(text, *whom)?;
            push_notice(text, notice)
        }
    }
}
