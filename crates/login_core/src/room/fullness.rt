// Whether the journal is full.

ghost use Rattle.std.specs.Prelude.{◌≡◌, ◌≤◌, ◌+◌, ◌^◌, length, List};
ghost use Rattle.login_model.specs.declared.mark.Entry.{Entry};
ghost use Rattle.login_model.specs.Legal.{trail_of};
ghost use Rattle.login_model.specs.declared.setup.Setup.{Setup};
ghost use Rattle.login_model.specs.Full.{is_granted, mark_count, full};
ghost use Rattle.login_model.specs.Policy.{verdict as policy_verdict};
ghost use Rattle.login_model.specs.Trail.{Trail};
ghost use Rattle.login_facts.specs.Counts.{AreCounted, HoldersAreThere};
ghost use Rattle.login_core.specs.Fullness.{always_fits};
ghost use Rattle.login_core.specs.inner.Fullness.{connected_by, full_by};

use login_facts::Counts;
use login_model::{Event, Fullness, Verdict};

/// The most entries of a journal.
const MOST_ENTRIES: u64 = 200_000;

/// The most marks of a journal.
const MOST_MARKS: u64 = 4_000_000;

fn is_granted(verdict: Verdict) -> bool
    ensures { result ≡ is_granted verdict }
{
    match verdict {
        Verdict::Granted => true,
        Verdict::Denied(_) => false,
    }
}

/// The connections that are connected after an event with this verdict.
pub fn connected_after(counts: Counts, event: &Event, verdict: Verdict) -> u64
    ensures value { (t : Trail) → AreCounted counts t → result ≡ connected_by verdict t event.now }
    ensures bound { result ≤ 2 ^ 33 }
{
    let connected = u64::from(counts.connections);
    match event {
        Event::Connect(_, _) => {
            if is_granted(verdict) {
                connected + 1
            } else {
                connected
            }
        }
        _ => connected,
    }
}

/// Whether an event is one for which the journal never is full.
pub fn always_fits(event: &Event) -> bool
    ensures { result ≡ always_fits event.now }
{
    matches!(event, Event::Disconnect(_) | Event::Stop)
}

/// The first count of the journal that is above its limit.
fn full_by(
    counts: Counts,
    entries: u32,
    marks: u32,
    event: &Event,
    verdict: Verdict,
) -> Option<Fullness>
    ensures { (t : Trail) → AreCounted counts t → HoldersAreThere t → result ≡ full_by verdict t entries marks event.now }
{
    let entries = u64::from(entries) + connected_after(counts, event, verdict) + 2;
    if entries > MOST_ENTRIES {
        return Some(Fullness::Entries(entries));
    }
    let marks = counts.marks_needed(marks);
    if marks > MOST_MARKS {
        return Some(Fullness::Marks(marks));
    }
    None
}

/// Whether a journal of so many entries and marks, after which these are the counts, is full for an event with
/// this verdict, and of what.
pub fn full(
    counts: Counts,
    entries: u32,
    marks: u32,
    event: &Event,
    verdict: Verdict,
) -> Option<Fullness>
    ensures { (U : Setup) (before : List Entry) → AreCounted counts (trail_of before) → HoldersAreThere (trail_of before) → length before ≡ entries → mark_count before ≡ marks → verdict ≡ policy_verdict U (trail_of before) event.now → result ≡ full U before event.now }
{
    if always_fits(event) {
        None
    } else {
        full_by(counts, entries, marks, event, verdict)
    }
}
