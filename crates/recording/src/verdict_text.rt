// How verdicts are printed: the rule that was broken, or the answer.

ghost use Rattle.std.specs.Prelude.{◌≡◌, ◌++◌, OnOk};
ghost use Rattle.recording.specs.Print.{verdict_words};
ghost use Rattle.login_model.specs.RuleWords.{limit_words, detail_words, rule_words};
ghost use Rattle.login_model.specs.inner.Prefixed.{spaced};

use crate::answer_text::push_answer;
use crate::call::push_operation;
use crate::key_text::push_numbered;
use crate::line_text::LineText;
use login_base::NoMemory;
use login_model::{Answer, Limit, Rule, Verdict};

/// Adds the name and the number of a limit.
fn push_limit(text: &mut LineText, limit: Limit) -> Result<(), NoMemory>
    ensures { OnOk result (text.new ≡ text.old ++ spaced (limit_words limit)) }
{
    push_numbered(text, limit.name(), limit.number())
}

/// Adds what a rule names.
fn push_detail(text: &mut LineText, rule: Rule) -> Result<(), NoMemory>
    ensures { OnOk result (text.new ≡ text.old ++ spaced (detail_words rule)) }
{
    match rule {
        Rule::ActionRefused(action) => text.word(action.name()),
        Rule::ActionChallenge(action) => text.word(action.name()),
        Rule::Controlled(who) => text.number(who.0),
        Rule::VtBusy(session) => text.session(session),
        Rule::OperationInProgress(kind) => push_operation(text, kind),
        Rule::Inhibited(lock) => text.number(lock.0),
        Rule::Limit(limit) => push_limit(text, limit),
        Rule::ClockBackwards(moment) => text.moment(moment.0),
        _ => Ok(()),
    }
}

/// Adds the number and the name of a rule, and what it names.
fn push_rule(text: &mut LineText, rule: Rule) -> Result<(), NoMemory>
    ensures { OnOk result (text.new ≡ text.old ++ spaced (rule_words rule)) }
{
    text.word(rule.label())?;
    push_detail(text, rule)
}

/// Adds the words of a verdict with its answer.
pub(crate) fn push_verdict(
    text: &mut LineText,
    verdict: Verdict,
    answer: &Answer,
) -> Result<(), NoMemory>
    ensures { OnOk result (text.new ≡ text.old ++ spaced (verdict_words verdict answer.now)) }
{
    match verdict {
        Verdict::Granted => {
            text.push(b" granted")?;
            push_answer(text, answer)
        }
        Verdict::Denied(rule) => {
            text.push(b" denied")?;
            push_rule(text, rule)
        }
    }
}
