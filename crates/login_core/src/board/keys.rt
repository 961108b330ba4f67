// How many keys an event may set for the first time, for which tables get rows.

ghost use Rattle.std.specs.Prelude.{◌≡◌, ◌&&◌, nat_le, ◌+◌, ◌*◌, ◌<◌, ◌≤◌, ◌^◌, ◌||◌, if◌then◌else◌, length};
ghost use Rattle.login_model.specs.Where.{sessions};
ghost use Rattle.login_laws.specs.Amounts.{Part as AnyPart};
ghost use Rattle.login_laws.specs.Few.{most_taken};
ghost use Rattle.login_laws.specs.Keys.{asks_to_turn, call_turns, kills_all, most_keys};
ghost use Rattle.login_laws.specs.Need.{may_switch};
ghost use Rattle.login_facts.specs.KeyRooms.{keys_of};
ghost use Rattle.login_facts.specs.Counts.{HoldersAreThere};

use crate::board::Draft;
use login_facts::KeyRoom;
use login_model::{Call, Event, Hardware, Key, Look, Verdict};

/// The keys of an event by itself, beside those of devices and of signals.
const KEYS_BESIDE: u64 = 4;

/// The keys of a device of a session that comes or goes: of a fresh handle its owner and that it is live, or that its pause
/// is awaited.
const KEYS_OF_DEVICE: u64 = 2;

/// The keys of a switch beside those of devices: the terminal, a getty.
const KEYS_OF_SWITCH: u64 = 2;

/// Whether a call asks for another active session of a seat.
fn call_turns(call: &Call) -> bool
    ensures { result ≡ call_turns call.now }
{
    matches!(
        call,
        Call::Activate(_)
            | Call::ActivateOnSeat(_, _)
            | Call::SwitchTo(_, _)
            | Call::SwitchToNext(_)
            | Call::SwitchToPrevious(_)
    )
}

/// Whether an event asks for another active session of a seat.
fn asks_to_turn(event: &Event) -> bool
    ensures { result ≡ asks_to_turn event.now }
{
    match event {
        Event::Call(request) => call_turns(&request.call),
        Event::Hardware(Hardware::VtKey(_)) => true,
        _ => false,
    }
}

/// Whether an event sends a signal to all sessions of a user.
fn kills_all(event: &Event) -> bool
    ensures { result ≡ kills_all event.now }
{
    match event {
        Event::Call(request) => matches!(&request.call, Call::KillUser(_, _)),
        _ => false,
    }
}

impl Draft {
    /// The keys of signals: one for each session at most.
    fn keys_of_signals(&self, event: &Event) -> u64
        ensures value { result ≡ (if kills_all event.now then length (sessions self.now.trail) else 0) }
        ensures bound { result < 2 ^ 32 }
    {
        if kills_all(event) {
            u64::from(self.counts().present)
        } else {
            0
        }
    }

    /// The keys of what a turn brings back by itself.
    fn keys_of_turn(&self, event: &Event) -> u64
        ensures value { HoldersAreThere self.now.trail → result ≡ (if asks_to_turn event.now then 2 * most_taken self.now.trail else 0) }
        ensures bound { result < 2 ^ 9 }
    {
        if asks_to_turn(event) {
            KEYS_OF_DEVICE * u64::from(self.counts().most_taken())
        } else {
            0
        }
    }

    /// Whether a switch may be pending behind an event.
    pub fn may_switch(&self, event: &Event) -> bool
        ensures { result ≡ may_switch self.now.trail event.now }
    {
        self.fact(&Key::Pending).is_number() || asks_to_turn(event)
    }

    /// The keys of the devices that a switch which may be pending behind an event brings back, or whose pauses it awaits. The
    /// event may take one device more.
    fn keys_brought_back(&self, event: &Event) -> u64
        ensures value { HoldersAreThere self.now.trail → result ≡ (if may_switch self.now.trail event.now then 2 * (most_taken self.now.trail + 1) else 0) }
        ensures bound { result < 2 ^ 9 }
    {
        if self.may_switch(event) {
            KEYS_OF_DEVICE * (u64::from(self.counts().most_taken()) + 1)
        } else {
            0
        }
    }

    /// The keys of such a switch beside those of devices.
    fn keys_of_switch(&self, event: &Event) -> u64
        ensures value { result ≡ (if may_switch self.now.trail event.now then 2 else 0) }
        ensures bound { result ≤ 2 }
    {
        if self.may_switch(event) {
            KEYS_OF_SWITCH
        } else {
            0
        }
    }

    /// The most keys of each part that an event other than a disconnect sets for the first time where it is granted, with
    /// those of a switch that it leaves pending.
    fn most_keys(&self, event: &Event) -> KeyRoom
        ensures value { (p : AnyPart) → HoldersAreThere self.now.trail → keys_of p result ≡ most_keys p self.now.trail event.now }
        ensures bound { (p : AnyPart) → keys_of p result < 2 ^ 33 }
    {
        let taken = KEYS_BESIDE + self.keys_of_turn(event) + self.keys_brought_back(event);
        let others = KEYS_BESIDE + self.keys_of_signals(event) + self.keys_of_switch(event);
        KeyRoom {
            taken: taken as usize,
            others: others as usize,
        }
    }

    /// For how many keys room is made for an event with this verdict. For one that is denied it is none: it sets none, and
    /// room for those of a pending switch is there.
    pub fn keys_needed(&self, event: &Event, verdict: Verdict) -> KeyRoom
        ensures granted { verdict ≡ Verdict.Granted → HoldersAreThere self.now.trail → (p : AnyPart) → keys_of p result ≡ most_keys p self.now.trail event.now }
        ensures bound { (p : AnyPart) → keys_of p result < 2 ^ 33 }
    {
        match verdict {
            Verdict::Granted => self.most_keys(event),
            Verdict::Denied(_) => KeyRoom::NONE,
        }
    }
}
