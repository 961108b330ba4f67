// The table of the policy: what it says to each action, by who asks.

ghost use Rattle.std.specs.Prelude.{◌≡◌, ◌≢◌};
ghost use Rattle.login_model.specs.declared.action.Action.{Action as ActionValue};
ghost use Rattle.login_model.specs.Table.{cells, default_row, row_of, with_row};

use crate::action::{Action, Qualifier};
use std::marker::Model;

/// What the policy says to an action.
#[derive(Clone, Copy, Debug, PartialEq, Eq)]
pub enum Say {
    Yes,
    No,
    /// Whoever asks would have to prove who they are.
    Challenge,
}

impl Say {
    ghost use Rattle.std.specs.Prelude.{◌≡◌};
    ghost use Rattle.login_model.specs.Words.{say_word};

    /// The word for it.
    pub fn name(self) -> &'static [u8]
        ensures { result.now ≡ say_word self }
    {
        match self {
            Say::No => b"no",
            Say::Challenge => b"challenge",
            Say::Yes => b"yes",
        }
    }
}

/// What the policy says to one action, to all but root.
#[derive(Clone, Copy, PartialEq, Eq)]
pub struct Row {
    /// To those whose user has no open session with a seat.
    pub any: Say,
    /// To those whose user has one, and none that is active on its seat.
    pub inactive: Say,
    /// To those whose user has a session that is active on its seat.
    pub active: Say,
}

/// A row for each action, in the order of `Action::ALL`.
#[derive(Clone, Copy)]
pub struct Table {
    rows: [Row; 29],
}

impl Model for Table {
    ghost use Rattle.std.specs.Prelude.{List};
    ghost use Rattle.login_model.specs.declared.table.Row.{Row};

    ghost Value = { List Row };

    ghost view = { λ table. table.rows };

    ghost inverse = { λ rows. record { rows = rows } };
}

fn cells(any: Say, inactive: Say, active: Say) -> Row
    ensures { result ≡ cells any inactive active }
{
    Row {
        any,
        inactive,
        active,
    }
}

/// The row of an action of which nothing was said.
fn default_row(action: Action) -> Row
    ensures { result ≡ default_row action }
{
    match action {
        Action::LockSessions
        | Action::Manage
        | Action::SetUserLinger
        | Action::Power(_, Qualifier::IgnoreInhibit) => {
            cells(Say::Challenge, Say::Challenge, Say::Challenge)
        }
        Action::ChangeVt | Action::Power(_, Qualifier::Plain | Qualifier::MultipleSessions) => {
            cells(Say::Challenge, Say::Challenge, Say::Yes)
        }
        Action::SetSelfLinger | Action::InhibitDelayShutdown | Action::InhibitDelaySleep => {
            cells(Say::Yes, Say::Yes, Say::Yes)
        }
        Action::InhibitBlockShutdown => cells(Say::No, Say::Challenge, Say::Yes),
        Action::InhibitBlockSleep
        | Action::InhibitBlockIdle
        | Action::InhibitHandlePowerKey
        | Action::InhibitHandleSuspendKey
        | Action::InhibitHandleHibernateKey
        | Action::InhibitHandleLidSwitch => cells(Say::No, Say::Yes, Say::Yes),
    }
}

impl Table {
    /// The row of an action.
    pub fn row(&self, action: Action) -> Row
        ensures { result ≡ row_of self.now action }
    {
        self.rows[action.place()]
    }

    /// Replaces the row of an action.
    pub fn set_row(&mut self, action: Action, row: Row)
        ensures value { self.new ≡ with_row self.old action row }
        ensures set { row_of self.new action ≡ row }
        ensures others { (other : ActionValue) → other ≢ action → row_of self.new other ≡ row_of self.old other }
    {
        self.rows[action.place()] = row;
    }
}

/// The table where nothing was said of any action.
impl Default for Table {
    ghost use Rattle.login_model.specs.Table.{IsDefault};

    ghost is_default = { IsDefault };

    fn default() -> Table {
        Table {
            rows: Action::ALL.map(default_row),
        }
    }
}
