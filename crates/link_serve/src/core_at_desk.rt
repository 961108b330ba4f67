// The core, as threads share it at a desk.

ghost use Rattle.std.specs.Prelude.{◌≡◌, ◌≤◌, [], length, IfOk};
ghost use Rattle.login_laws.specs.Lawful.{IsLawful};
ghost use Rattle.login_model.specs.Conf.{IsAllowed};
ghost use Rattle.login_model.specs.Full.{mark_count};
ghost use Rattle.login_model.specs.Limits.{entries_limit, marks_limit};
ghost use Rattle.login_model.specs.Reading.{is_granted};
ghost use Rattle.login_model.specs.Setups.{IsSetup};
ghost use Rattle.login_model.specs.Stopping.{stop_from};
ghost use Rattle.wire_out.specs.Conditions.{IsMailable};
ghost use Rattle.link_serve.specs.Acting.{FitsAlone, FitsBehind};
ghost use Rattle.link_serve.specs.inner.Acting.{Closes, StepsNow};
ghost use Rattle.link_serve.specs.Owners.{entries_of, event_who};

use crate::acts::Made;
use desk::{Desk, Journaled, Pass};
use login_base::{ConnId, NoMemory};
use login_core::{Core, Refused};
use login_model::{Entry, Event, Journal, Key, Look, Mark, Setup, Verdict};
use std::alloc::Global;
use std::marker::Model;

/// A core with a setup that is allowed, as a desk keeps it.
#[derive(Drop)]
pub struct CoreAtDesk {
    core: Core,
}

/// A desk of the core.
pub type DeskOfCore = Desk<CoreAtDesk>;

/// A pass of such a desk.
pub type PassOfCore = Pass<Setup, Entry>;

impl Model for CoreAtDesk {
    ghost use Rattle.login_core.specs.State.{CoreState};
    ghost use Rattle.link_serve.specs.inner.Inside.{IsAtDesk};

    ghost Value = { CoreState };

    ghost view = { λ c. c.core };

    ghost invariant = { λ c. IsAtDesk c.core };
}

impl Journaled for CoreAtDesk {
    ghost use Rattle.link_serve.specs.Owners.{entry_who};

    type Setup = Setup;

    type Entry = Entry;

    ghost who = { entry_who };

    ghost setup = { λ c. c.setup };

    ghost journal = { λ c. c.journal };
}

/// Whether an entry tells something: it has notices, or is the stop.
fn tells(entry: &Entry) -> bool {
    let has_notices = entry
        .marks
        .as_slice()
        .iter()
        .any(|mark| matches!(mark, Mark::Say(_, _)));
    has_notices || matches!(entry.event, Event::Stop)
}

/// What an entry is answered as.
fn made(entry: &Entry) -> Made
    ensures { result.granted ≡ is_granted entry.now.verdict }
{
    Made {
        granted: matches!(entry.verdict, Verdict::Granted),
        tells: tells(entry),
    }
}

impl CoreAtDesk {
    /// The core of a setup, before the first event.
    pub fn new(alloc: Global, setup: Setup) -> Result<CoreAtDesk, NoMemory>
        requires set_up { IsSetup setup }
        requires allowed { IsAllowed setup.conf }
        ensures setup { IfOk result (λ core. core.setup ≡ setup) }
        ensures journal { IfOk result (λ core. core.journal ≡ []) }
    {
        Ok(CoreAtDesk {
            core: Core::new(alloc, setup)?,
        })
    }

    /// The setup.
    pub fn setup(&self) -> &Setup
        ensures value { result.now ≡ self.now.setup }
        ensures set_up { IsSetup self.now.setup }
        ensures allowed { IsAllowed self.now.setup.conf }
    {
        self.core.setup()
    }

    /// The journal, which is legal under the setup, with all that every legal journal has.
    pub fn journal(&self) -> &Journal
        ensures entries { result.now.items ≡ self.now.journal }
        ensures lawful { IsLawful self.now.setup self.now.journal }
        ensures few_entries { length self.now.journal ≤ entries_limit }
        ensures few_marks { mark_count self.now.journal ≤ marks_limit }
        ensures mailable { IsMailable self.now.journal }
    {
        self.core.journal()
    }

    /// The number of the stop's entry, if it is there.
    pub fn stop(&self) -> Option<u32>
        ensures { result ≡ stop_from 1 self.now.journal }
    {
        self.core.stopped(&Event::Stop)
    }

    /// Makes room for an event and steps it.
    pub(crate) fn step(&mut self, event: Event) -> Result<Made, Refused>
        requires alone { FitsAlone event }
        requires behind { FitsBehind event (entries_of (record { 0 = event_who event }) self.old.journal) }
        ensures { StepsNow event self.old self.new result }
    {
        match self.core.room(&event) {
            Ok(()) => Ok(made(self.core.step(event))),
            Err(why) => {
                drop(event);
                Err(why)
            }
        }
    }

    /// Steps the disconnect of a connection, if it is connected. It takes no memory. Whether an entry was made that
    /// tells something.
    pub(crate) fn close(&mut self, who: ConnId) -> bool
        ensures { Closes who self.old self.new }
    {
        if self.core.fact(&Key::Conn(who)).is_connected() {
            made(self.core.close_link(who)).tells
        } else {
            false
        }
    }
}
