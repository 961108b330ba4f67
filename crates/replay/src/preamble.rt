// The preamble of a recording: its header, and the lines that say the setup.

ghost use Rattle.std.specs.Prelude.{ℕ, [], ◌∷◌, ◌++◌, ◌≡◌, ◌<◌, ◌+◌, ◌-◌, ◌↔◌, IsTrue, IfOk, OnOk, length, slice_index_or, None};
ghost use Rattle.login_model.specs.Setups.{IsNewUser, IsSetup};
ghost use Rattle.login_model.specs.Limits.{users_limit};
ghost use Rattle.recording.specs.Reading.{left_to};
ghost use Rattle.recording.specs.declared.line.Line.TheVariants.{Guid, User, Conf as ConfLine, Action};
ghost use Rattle.replay.specs.PreambleLines.{guid_or_default};
ghost use Rattle.replay.specs.Front.{fresh, takes_at};
ghost use Rattle.replay.specs.Recording.{most_lines};
ghost use Rattle.replay.specs.Preamble.{SetupGives, SetsUp, IsFromTexts, is_failed_setup};
ghost use Rattle.replay.specs.Rising.{Rises};
ghost use Rattle.replay.specs.Early.{failed, of_reading};
ghost use Rattle.replay.specs.inner.Opening.{HasTaken, TakesLine, MakesTable, MakesSetup, Opens, BehindHeader};

use crate::ahead::{MOST_LINES, next_line, read_past};
use crate::cause::Cause;
use crate::early::Early;
use login_base::{Bytes, Items, NoMemory, Uid, Word};
use login_conf::{Diagnostic, read_conf};
use login_edge::Source;
use login_model::{Setup, Table, UserRow};
use login_policy::read_table;
use recording::{Line, LineReader};
use std::alloc::Global;

/// The identity of the server where no line says one.
const DEFAULT_GUID: &[u8] = b"0123456789abcdef0123456789abcdef";

/// How the reading of a preamble ended.
#[derive(Drop)]
pub enum SetupEnd {
    /// The setup, what is wrong with the lines of the configuration, and how many lines were read, through `go`.
    Ready(Setup, Items<Diagnostic>, u32),
    /// The line with this number is refused for this cause.
    Script(u32, Cause),
    /// The input failed; the lines read before it had no fault.
    ReadFault,
    /// There was no memory.
    NoMemory,
}

/// How many users a setup may have.
const MOST_USERS: u32 = 1024;

/// What the lines through `go` said.
#[derive(Drop)]
pub struct Opening {
    pub setup: Setup,
    /// What is wrong with the lines of the configuration.
    pub wrong: Items<Diagnostic>,
    /// How many lines were read.
    pub lines_read: u32,
}

/// What the lines of a preamble said so far.
#[derive(Drop)]
struct Preamble {
    guid: Option<Word>,
    users: Items<UserRow>,
    /// The lines of the configuration, each with a line feed.
    conf: Vec<u8>,
    /// Those of the table of actions.
    table: Vec<u8>,
    /// The numbers of these.
    action_lines: Items<u32>,
}

/// What a line of the preamble does.
#[derive(Clone, Copy)]
enum Said {
    /// It says something of the setup.
    Row,
    Go,
    Refused,
}

/// Whether no row is of this user.
fn is_new_user(users: &Items<UserRow>, uid: Uid) -> bool
    ensures { IsTrue result ↔ IsNewUser uid.0 users.now }
{
    users.as_slice().iter().all(|row| row.uid.0 != uid.0)
}

/// Whether a user may come behind these.
fn is_next_user(users: &Items<UserRow>, uid: Uid) -> bool
    ensures { IsTrue result ↔ (IsNewUser uid.0 users.now × (length users.now < users_limit)) }
{
    users.len() < MOST_USERS as usize && is_new_user(users, uid)
}

/// Puts a line with its line feed behind a text.
fn push_line(text: &mut Vec<u8>, line: &Bytes) -> Result<(), NoMemory>
    ensures { OnOk result (text.new.items ≡ text.old.items ++ (line.now ++ 10 ∷ [])) }
{
    text.extend_from_slice(line.as_slice())?;
    text.push(b'\n')?;
    Ok(())
}

/// The number of the line of this action, counted from 1.
fn number_of(action_lines: &Items<u32>, action: u64) -> u32
    ensures { result ≡ slice_index_or action_lines.now (action - 1) 0 }
{
    match action_lines
        .as_slice()
        .get((action as usize).saturating_sub(1))
    {
        Some(number) => *number,
        None => 0,
    }
}

/// The identity that was given, or the default one.
fn guid_or_default(alloc: Global, guid: Option<Word>) -> Result<Word, NoMemory>
    ensures { IfOk result (λ word. word ≡ guid_or_default guid) }
{
    match guid {
        Some(guid) => Ok(guid),
        None => Word::from_slice(alloc, DEFAULT_GUID),
    }
}

impl Preamble {
    /// The preamble that says nothing. It takes no memory.
    fn new(alloc: Global) -> Preamble
        ensures guid { result.guid ≡ None }
        ensures users { result.users ≡ [] }
        ensures conf { result.conf.items ≡ [] }
        ensures table { result.table.items ≡ [] }
        ensures actions { result.action_lines ≡ [] }
    {
        Preamble {
            guid: None,
            users: Items::new(alloc),
            conf: Vec::new(alloc),
            table: Vec::new(alloc),
            action_lines: Items::new(alloc),
        }
    }

    /// Takes an identity behind these lines.
    fn take_guid(&mut self, guid: Word) -> Said
        ensures { (number : ℕ) → HasTaken number self.old (Guid guid) self.new result }
    {
        if self.guid.is_some() {
            return Said::Refused;
        }
        self.guid = Some(guid);
        Said::Row
    }

    /// Takes a user behind these lines.
    fn take_user(&mut self, row: UserRow) -> Result<Said, NoMemory>
        ensures { (number : ℕ) → TakesLine number self.old (User row) self.new result }
    {
        if !is_next_user(&self.users, row.uid) {
            return Ok(Said::Refused);
        }
        self.users.push(row)?;
        Ok(Said::Row)
    }

    /// Takes a line of the configuration behind these lines.
    fn take_conf(&mut self, text: &Bytes) -> Result<Said, NoMemory>
        ensures { (number : ℕ) → TakesLine number self.old (ConfLine text.now) self.new result }
    {
        push_line(&mut self.conf, text)?;
        Ok(Said::Row)
    }

    /// Takes a line of the table of actions behind so many lines.
    fn take_action(&mut self, text: &Bytes, number: u32) -> Result<Said, NoMemory>
        requires { number < most_lines }
        ensures { TakesLine number self.old (Action text.now) self.new result }
    {
        push_line(&mut self.table, text)?;
        self.action_lines.push(number + 1)?;
        Ok(Said::Row)
    }

    /// Takes a line behind so many.
    fn take_line(&mut self, line: Line, number: u32) -> Result<Said, NoMemory>
        requires { number < most_lines }
        ensures { TakesLine number self.old line self.new result }
    {
        match line {
            Line::Guid(guid) => Ok(self.take_guid(guid)),
            Line::User(row) => self.take_user(row),
            Line::Conf(text) => self.take_conf(&text),
            Line::Action(text) => self.take_action(&text, number),
            Line::Go => Ok(Said::Go),
            other => {
                drop(other);
                Ok(Said::Refused)
            }
        }
    }

    /// The table that the lines of actions say. It is refused at the line of the first action at fault.
    fn read_actions(&self, alloc: Global) -> Result<Table, Early>
        ensures { MakesTable self.now result }
    {
        match read_table(alloc, &self.table) {
            Ok(table) => Ok(table),
            Err(fault) => match fault.line() {
                Some(action) => Err(Early::Script(
                    number_of(&self.action_lines, action),
                    Cause::BadAction,
                )),
                None => Err(Early::NoMemory),
            },
        }
    }

    /// The setup that these lines say, and what is wrong with those of the configuration.
    fn setup(self, alloc: Global) -> Result<(Setup, Items<Diagnostic>), Early>
        ensures { MakesSetup self result }
    {
        let table = self.read_actions(alloc)?;
        let (conf, wrong) = read_conf(alloc, &self.conf)?;
        let Preamble {
            guid,
            users,
            conf: conf_text,
            table: table_text,
            action_lines: _,
        } = self;
        let guid = guid_or_default(alloc, guid)?;
        let setup = Setup {
            guid,
            users,
            conf,
            conf_text: Bytes::from_vec(conf_text),
            table,
            table_text: Bytes::from_vec(table_text),
        };
        Ok((setup, wrong))
    }
}

/// Reads the lines of a recording behind its header, through `go`.
fn read_lines<S: Source>(
    alloc: Global,
    lines: &mut LineReader,
    source: &mut S,
) -> Result<Opening, Early>
    ensures gives { BehindHeader (left_to lines.old (S.left source.old)) (left_to lines.new (S.left source.new)) (S.left source.new) result }
    ensures cause { Rises (failed of_reading result) (S.faults source.old) (S.faults source.new) }
{
    let mut preamble = Preamble::new(alloc);
    for number in 1..MOST_LINES {
        let line = next_line(alloc, lines, source, number)?;
        match preamble.take_line(line, number)? {
            Said::Row => {}
            Said::Go => {
                let (setup, wrong) = preamble.setup(alloc)?;
                return Ok(Opening {
                    setup,
                    wrong,
                    lines_read: number + 1,
                });
            }
            Said::Refused => return Err(Early::Script(number + 1, Cause::WrongPlace)),
        }
    }
    Err(read_past(alloc, lines, source))
}

/// Whether a line is the header.
fn is_header(line: &Line) -> bool
    ensures { IsTrue result ↔ takes_at fresh [] [] line.now }
{
    match line {
        Line::Header(_) => true,
        _ => false,
    }
}

/// Reads the lines of a recording through `go`.
pub fn read_opening<S: Source>(
    alloc: Global,
    lines: &mut LineReader,
    source: &mut S,
) -> Result<Opening, Early>
    ensures gives { Opens (left_to lines.old (S.left source.old)) (left_to lines.new (S.left source.new)) (S.left source.new) result }
    ensures set_up { IfOk result (λ opening. IsSetup opening.setup) }
    ensures from_texts { IfOk result (λ opening. IsFromTexts opening.setup opening.wrong) }
    ensures cause { Rises (failed of_reading result) (S.faults source.old) (S.faults source.new) }
{
    let line = next_line(alloc, lines, source, 0)?;
    let is_first = is_header(&line);
    drop(line);
    if is_first {
        read_lines(alloc, lines, source)
    } else {
        Err(Early::Script(1, Cause::WrongPlace))
    }
}

/// Reads the lines of a recording through `go`.
pub fn read_setup<S: Source>(alloc: Global, lines: &mut LineReader, source: &mut S) -> SetupEnd
    ensures gives { SetupGives (left_to lines.old (S.left source.old)) (left_to lines.new (S.left source.new)) (S.left source.new) result }
    ensures set_up { SetsUp result }
    ensures cause { Rises (is_failed_setup result) (S.faults source.old) (S.faults source.new) }
{
    match read_opening(alloc, lines, source) {
        Ok(opening) => SetupEnd::Ready(opening.setup, opening.wrong, opening.lines_read),
        Err(Early::Script(number, cause)) => SetupEnd::Script(number, cause),
        Err(Early::ReadFault) => SetupEnd::ReadFault,
        Err(Early::NoMemory) => SetupEnd::NoMemory,
        Err(Early::Full(_)) | Err(Early::WriteFault) => unreachable!(),
    }
}
