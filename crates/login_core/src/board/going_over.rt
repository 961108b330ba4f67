// How many marks an event may make, for which the list of its entry gets room.

ghost use Rattle.std.specs.Prelude.{◌≡◌, ◌<◌, ◌≤◌, ◌^◌, if◌then◌else◌};
ghost use Rattle.login_model.specs.Creating.{seat_of};
ghost use Rattle.login_laws.specs.Few.{most_taken};
ghost use Rattle.login_laws.specs.Need.{call_marks, hardware_marks, marks_over, marks_over_devices, may_switch, most_marks, seat_marks};
ghost use Rattle.login_facts.specs.Counts.{HoldersAreThere};

use crate::board::Draft;
use crate::creating::created::seat_of;
use login_model::{Call, Creation, Event, Hardware, Verdict};

/// The most marks of an event beside those of going over what is there.
const MARKS_BESIDE: u64 = 32;

impl Draft {
    /// The most marks of a session that comes to its seat, where another session than seat0's may have been active.
    fn seat_marks(&self, creation: &Creation) -> u64
        ensures value { HoldersAreThere self.now.trail → result ≡ seat_marks (most_taken self.now.trail) (seat_of creation.now.seat) }
        ensures bound { result < 2 ^ 36 }
    {
        match seat_of(creation.seat.as_slice()) {
            None => 0,
            Some(seat) => {
                if seat.is_seat0() {
                    0
                } else {
                    self.counts().marks_over_devices()
                }
            }
        }
    }

    /// The most marks of what a call goes over by itself.
    fn call_marks(&self, call: &Call) -> u64
        ensures value { HoldersAreThere self.now.trail → result ≡ call_marks (most_taken self.now.trail) self.now.trail call.now }
        ensures bound { result < 2 ^ 36 }
    {
        match call {
            Call::Create(creation) => self.seat_marks(creation.get()),
            Call::Activate(_)
            | Call::ActivateOnSeat(_, _)
            | Call::SwitchTo(_, _)
            | Call::SwitchToNext(_)
            | Call::SwitchToPrevious(_)
            | Call::Terminate(_)
            | Call::Control(_, _)
            | Call::Uncontrol(_)
            | Call::Close(_) => self.counts().marks_over_devices(),
            Call::LockAll | Call::UnlockAll | Call::KillUser(_, _) => self
                .counts()
                .marks_over_sessions(),
            Call::TerminateUser(_) | Call::TerminateSeat(_) => self.counts().marks_over_holders(),
            _ => 0,
        }
    }

    /// The most marks of what the hardware goes over.
    fn hardware_marks(&self, hardware: &Hardware) -> u64
        ensures value { HoldersAreThere self.now.trail → result ≡ hardware_marks (most_taken self.now.trail) self.now.trail hardware.now }
        ensures bound { result < 2 ^ 36 }
    {
        match hardware {
            Hardware::VtKey(_) | Hardware::Exit(_) => self.counts().marks_over_devices(),
            Hardware::Key(_) => self.counts().marks_over_sessions(),
            Hardware::Remove(_) => self.counts().marks_over_holders(),
            _ => 0,
        }
    }

    /// The most marks of what an event goes over by itself.
    fn marks_over(&self, event: &Event) -> u64
        ensures value { HoldersAreThere self.now.trail → result ≡ marks_over (most_taken self.now.trail) self.now.trail event.now }
        ensures bound { result < 2 ^ 36 }
    {
        match event {
            Event::Call(request) => self.call_marks(&request.call),
            Event::Hardware(hardware) => self.hardware_marks(hardware),
            Event::Tick(_) => self.counts().marks_over_users(),
            _ => 0,
        }
    }

    /// The most marks of a switch that may complete behind an event, beside a few.
    fn switch_marks(&self, event: &Event) -> u64
        ensures value { HoldersAreThere self.now.trail → result ≡ (if may_switch self.now.trail event.now then marks_over_devices (most_taken self.now.trail) else 0) }
        ensures bound { result < 2 ^ 36 }
    {
        if self.may_switch(event) {
            self.counts().marks_over_devices()
        } else {
            0
        }
    }

    /// The most marks that an event makes which is no disconnect.
    fn most_marks(&self, event: &Event) -> u64
        ensures { HoldersAreThere self.now.trail → result ≡ most_marks (most_taken self.now.trail) self.now.trail event.now }
    {
        self.marks_over(event) + self.switch_marks(event) + MARKS_BESIDE
    }

    /// For how many marks there has to be room in the list of an event with this verdict. One that is denied makes none.
    pub fn entry_marks(&self, event: &Event, verdict: Verdict) -> u64
        ensures granted { verdict ≡ Verdict.Granted → HoldersAreThere self.now.trail → result ≡ most_marks (most_taken self.now.trail) self.now.trail event.now }
        ensures most { HoldersAreThere self.now.trail → result ≤ most_marks (most_taken self.now.trail) self.now.trail event.now }
    {
        match verdict {
            Verdict::Granted => self.most_marks(event),
            Verdict::Denied(_) => 0,
        }
    }
}
