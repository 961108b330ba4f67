// What a transcript has before its entries.

ghost use Rattle.std.specs.Prelude.{◌≡◌, ◌++◌, IfOk, OnOk};
ghost use Rattle.replay.specs.Transcript.{diagnostic_number, diagnostic_line, start_of};

use crate::numbered::{append_numbered, end_numbered};
use login_base::NoMemory;
use login_conf::{ConfFault, Diagnostic};
use std::alloc::Global;

/// The number by which a transcript knows what is wrong with a line of the configuration.
fn diagnostic_number(cause: ConfFault) -> u64
    ensures { result ≡ diagnostic_number cause }
{
    match cause {
        ConfFault::BeforeSections => 1,
        ConfFault::OtherSection => 2,
        ConfFault::UnknownKey => 3,
        ConfFault::BadValue => 4,
        ConfFault::NoEqualsSign => 5,
    }
}

/// Puts what is wrong with a line of the configuration behind a text.
fn push_diagnostic(text: &mut Vec<u8>, diagnostic: Diagnostic) -> Result<(), NoMemory>
    ensures { OnOk result (text.new.items ≡ text.old.items ++ diagnostic_line diagnostic) }
{
    append_numbered(text, b"diag ", diagnostic.line)?;
    end_numbered(text, b" ", diagnostic_number(diagnostic.cause))
}

/// The first line of a transcript, and a line for each line of the configuration with which something is wrong.
#[tactic(auto, unfolding(crate::specs::Transcript::start_of))]
pub fn start_text(alloc: Global, wrong: &[Diagnostic]) -> Result<Vec<u8>, NoMemory>
    ensures { IfOk result (λ text. text.items ≡ start_of wrong.now) }
{
    let mut text = Vec::from_slice(alloc, b"login-transcript 1\n")?;
    for diagnostic in wrong {
        push_diagnostic(&mut text, *diagnostic)?;
    }
    Ok(text)
}
