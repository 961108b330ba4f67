// How the lines of a text are heard one by one.

ghost use Rattle.std.specs.Prelude.{◌≡◌, ◌<◌, ◌+◌, ◌^◌, ◌++◌, ◌==◌, [], ◌∷◌, List, ℕ, IfOk, OnOk};
ghost use Rattle.std.specs.List.{slice_split};
ghost use Rattle.login_model.specs.declared.conf.Conf.{Conf};
ghost use Rattle.login_conf.specs.declared.diagnostic.Diagnostic.{Diagnostic};
ghost use Rattle.login_conf.specs.Reading.{conf_of, diagnostics_of};
ghost use Rattle.login_conf.specs.inner.UnderWay.{IsRead, Hears, Grows, Begins, Leads, open_saying};

use crate::cut::{continued, cut};
use crate::diagnostic::{ConfFault, Diagnostic};
use crate::saying::{Saying, Section, read_line};
use crate::setting::with_setting;
use login_base::{Items, NoMemory};
use login_model::Conf;
use std::alloc::Global;

/// A text that is read in part.
#[derive(Drop)]
pub(crate) struct Reader {
    /// The section that is open.
    section: Section,
    /// What was set so far.
    conf: Conf,
    /// What was wrong so far.
    diagnostics: Items<Diagnostic>,
    /// The number of the line that is open.
    first: u64,
    /// What is known of it.
    line: Vec<u8>,
    /// The number of the next line.
    number: u64,
}

impl Reader {
    /// Nothing is read.
    fn new(alloc: Global) -> Reader
        ensures read { (text : List ℕ) → IsRead result (slice_split (λ x. x == 10) text) (conf_of text) (diagnostics_of text) }
        ensures number { result.number ≡ 1 }
    {
        Reader {
            section: Section::Before,
            conf: Conf::default(),
            diagnostics: Items::new(alloc),
            first: 1,
            line: Vec::new(alloc),
            number: 1,
        }
    }

    /// Something is wrong with the line that is open.
    fn complain(&mut self, cause: ConfFault) -> Result<(), NoMemory>
        ensures { OnOk result (self.new ≡ record self.old { diagnostics = self.old.diagnostics ++ record { line = self.old.first; cause = cause } ∷ [] }) }
    {
        let line = self.first;
        self.diagnostics.push(Diagnostic { line, cause })
    }

    /// The line that is open says this.
    fn hear(&mut self, saying: Saying) -> Result<(), NoMemory>
        ensures { OnOk result (Hears self.old self.new saying) }
    {
        match saying {
            Saying::Nothing => Ok(()),
            Saying::Opens(section) => {
                self.section = section;
                match section {
                    Section::Other => self.complain(ConfFault::OtherSection),
                    _ => Ok(()),
                }
            }
            Saying::Sets(setting) => {
                self.conf = with_setting(self.conf, setting);
                Ok(())
            }
            Saying::Wrong(cause) => self.complain(cause),
        }
    }

    /// The line that is open ends.
    fn close(&mut self) -> Result<(), NoMemory>
        ensures { OnOk result (Hears self.old self.new (open_saying self.old)) }
    {
        let saying = read_line(self.section, &self.line);
        self.hear(saying)
    }

    /// More is known of the line that is open.
    fn extend(&mut self, bytes: &[u8]) -> Result<(), NoMemory>
        ensures { OnOk result (Grows self.old self.new bytes.now) }
    {
        self.line.extend_from_slice(bytes)?;
        Ok(())
    }

    /// The next line is open.
    fn begin(&mut self)
        ensures { Begins self.old self.new }
    {
        self.line.clear();
        self.first = self.number;
    }

    /// Reads the next line of the text.
    fn add(&mut self, line: &[u8]) -> Result<(), NoMemory>
        requires { self.old.number + 1 < 2 ^ 64 }
        ensures read { OnOk result (Leads self.old self.new line.now) }
        ensures number { OnOk result (self.new.number ≡ self.old.number + 1) }
    {
        self.number += 1;
        match continued(line) {
            Some(front) => {
                self.extend(front)?;
                self.extend(b" ")?;
                Ok(())
            }
            None => {
                self.extend(line)?;
                self.close()?;
                self.begin();
                Ok(())
            }
        }
    }

    /// What the text said, where no line is left.
    fn finish(mut self) -> Result<(Conf, Items<Diagnostic>), NoMemory>
        ensures conf { (whole : Conf) (wrong : List Diagnostic) → IsRead self [] whole wrong → IfOk result (λ read. read.0 ≡ whole) }
        ensures diagnostics { (whole : Conf) (wrong : List Diagnostic) → IsRead self [] whole wrong → IfOk result (λ read. read.1 ≡ wrong) }
    {
        self.close()?;
        let Reader {
            section: _,
            conf,
            diagnostics,
            first: _,
            line: _,
            number: _,
        } = self;
        Ok((conf, diagnostics))
    }
}

/// Reads the text of a configuration. What a line is wrong about is told, and the line is left out.
pub fn read_conf(alloc: Global, bytes: &[u8]) -> Result<(Conf, Items<Diagnostic>), NoMemory>
    ensures conf { IfOk result (λ read. read.0 ≡ conf_of bytes.now) }
    ensures diagnostics { IfOk result (λ read. read.1 ≡ diagnostics_of bytes.now) }
{
    let mut reader = Reader::new(alloc);
    let mut rest = Some(bytes);
    while let Some(text) = rest {
        let (line, behind) = cut(text, b'\n');
        reader.add(line)?;
        rest = behind;
    }
    reader.finish()
}
