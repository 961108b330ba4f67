// How the text of a table is read.

ghost use Rattle.std.specs.Prelude.{◌≡◌, ◌<◌, ◌+◌, ◌^◌, ◌++◌, ◌∷◌, ◌==◌, [], IfOk, Some, map};
ghost use Rattle.std.specs.List.{slice_split, list_any};
ghost use Rattle.std.specs.Option.{option_map};
ghost use Rattle.login_model.specs.Action.{place};
ghost use Rattle.login_model.specs.Table.{default_table};
ghost use Rattle.login_policy.specs.Reading.{Saying, saying, say_named, row_named, saying_of, ReadsTable};
ghost use Rattle.login_policy.specs.inner.UnderWay.{Takes};

use crate::fault::TableFault;
use login_base::{Items, first_line};
use login_model::{Action, Row, Say, Table};
use std::alloc::{AllocError, Global};

/// What a cell says.
fn read_say(word: &[u8]) -> Option<Say>
    ensures { result ≡ say_named word.now }
{
    [Say::Yes, Say::No, Say::Challenge]
        .into_iter()
        .find(|say| word == say.name())
}

/// The row of three cells.
fn read_row(any: &[u8], inactive: &[u8], active: &[u8]) -> Option<Row>
    ensures { result ≡ row_named any.now inactive.now active.now }
{
    let any = read_say(any)?;
    let inactive = read_say(inactive)?;
    let active = read_say(active)?;
    Some(Row {
        any,
        inactive,
        active,
    })
}

/// The words of a line, which single spaces part.
fn words(alloc: Global, line: &[u8]) -> Result<Vec<&[u8]>, AllocError>
    ensures { IfOk result (λ words. map (λ word. word.now) words.items ≡ slice_split (λ b. b == 32) line.now) }
{
    line.split(|byte| *byte == 32).collect(alloc)
}

/// What the words of a line say, if they are four and the last three are cells.
fn saying_of<'a>(words: &[&'a [u8]]) -> Option<(&'a [u8], Row)>
    ensures { option_map (λ said. record { name = said.0.now; row = said.1 }) result ≡ saying_of (map (λ word. word.now) words.now) }
{
    match words {
        [name, any, inactive, active] => match read_row(any, inactive, active) {
            Some(row) => Some((*name, row)),
            None => None,
        },
        _ => None,
    }
}

/// Whether an action is one of these.
fn is_among(actions: &[Action], action: Action) -> bool
    ensures { result ≡ list_any (λ one. place one == place action) actions.now }
{
    actions.iter().any(|one| one.place() == action.place())
}

/// A text that is read in part.
#[derive(Drop)]
pub(crate) struct Reader {
    /// The table where nothing more is said.
    table: Table,
    /// The actions of the lines so far. They are no more than there are actions.
    said: Items<Action>,
    /// The number of the next line.
    number: u64,
}

impl Reader {
    /// Nothing is read.
    fn new(alloc: Global) -> Reader
        ensures table { result.table ≡ default_table }
        ensures said { result.said ≡ [] }
        ensures number { result.number ≡ 1 }
    {
        Reader {
            table: Table::default(),
            said: Items::new(alloc),
            number: 1,
        }
    }

    /// The next line gives this row to the action of this name.
    fn give(&mut self, name: &[u8], row: Row) -> Result<(), TableFault>
        requires { self.old.number + 1 < 2 ^ 64 }
        ensures { Takes self.old self.new (Some (record { name = name.now; row = row })) result }
    {
        let Some(action) = Action::read(name) else {
            return Err(TableFault::UnknownAction(self.number));
        };
        if is_among(self.said.as_slice(), action) {
            return Err(TableFault::Repeated(self.number));
        }
        self.said.push(action)?;
        self.table.set_row(action, row);
        self.number += 1;
        Ok(())
    }

    /// Reads the next line.
    fn add(&mut self, alloc: Global, line: &[u8]) -> Result<(), TableFault>
        requires { self.old.number + 1 < 2 ^ 64 }
        ensures { Takes self.old self.new (saying (Some line.now)) result }
    {
        let words = words(alloc, line)?;
        match saying_of(&words) {
            Some((name, row)) => self.give(name, row),
            None => Err(TableFault::BadLine(self.number)),
        }
    }
}

/// Reads the text of a table. An action of which no line says anything has its default.
pub fn read_table(alloc: Global, bytes: &[u8]) -> Result<Table, TableFault>
    ensures { ReadsTable bytes.now result }
{
    let mut reader = Reader::new(alloc);
    let mut rest = bytes;
    while let Some((line, behind)) = first_line(rest) {
        reader.add(alloc, line)?;
        rest = behind;
    }
    if rest.is_empty() {
        Ok(reader.table)
    } else {
        Err(TableFault::BadLine(reader.number))
    }
}
