// What holds of every legal journal, as functions that do nothing and ensure it.

ghost use Rattle.login_laws.specs.Amounts.{Part};
ghost use Rattle.login_laws.specs.Few.{EachTakesFew, LivesAreFew};
ghost use Rattle.login_laws.specs.Handles.{NextHandleIsLeastFree};
ghost use Rattle.login_laws.specs.Hearing.{HearingGoesOn, ReadsAreHeard};
ghost use Rattle.login_laws.specs.Keys.{KeysAreKept};
ghost use Rattle.login_laws.specs.Lawful.{LegalIsLawful};
ghost use Rattle.login_laws.specs.Left.{HandlesAreLeft};
ghost use Rattle.login_laws.specs.Named.{LegalIsNamed};
ghost use Rattle.login_laws.specs.Need.{EndsShareNeed, RoomIsKept};
ghost use Rattle.login_laws.specs.OneJournal.{OneJournal};
ghost use Rattle.login_laws.specs.Shares.{EachEndFits, EndsHaveShares, SharesFit, SharesMove};
ghost use Rattle.login_laws.specs.Withdrawing.{WithdrawsEach};
ghost use Rattle.login_model.specs.declared.setup.Setup.{Setup};

/// Every legal journal is sound, also before an entry is settled; a live handle is that of the controller of its
/// seat's active session; a switch completes exactly when its last awaited pause ends; no operation starts past a
/// lock that stands in its way, where neither the policy nor the key's setting lets it.
pub fn legal_is_lawful()
    ensures { LegalIsLawful }
{}

/// Where a switch is withdrawn, each awaited device is not awaited, in order.
pub fn withdrawal_is_of_each_awaited()
    ensures { WithdrawsEach }
{}

/// The next handle is the least from 1 on that has no owner, in every legal journal and after any of the
/// marks of its next legal entry.
pub fn next_handle_is_least_free()
    ensures { (U : Setup) → NextHandleIsLeastFree U }
{}

/// A list of events in place has exactly one legal journal.
pub fn one_journal()
    ensures { OneJournal }
{}

/// What a live handle reads goes on from entry to entry: one that an entry makes live has heard nothing, and
/// another keeps the last 64 of what it read before and what the entry brings.
pub fn hearing_goes_on()
    ensures { HearingGoesOn }
{}

/// The handle of a read that is granted listens to a device, and what it has heard is the answer.
pub fn reads_are_heard()
    ensures { ReadsAreHeard }
{}

/// Live handles are at most as many as the devices that sessions have taken.
pub fn lives_are_few()
    ensures { LivesAreFew }
{}

/// In every legal journal no session has taken more devices than all have together, nor more than one may.
pub fn each_takes_few()
    ensures { EachTakesFew }
{}

/// The handles that were given out and the devices that sessions have taken are together at most as many as
/// the marks: while these are few, a handle is left for each device that is taken.
pub fn handles_are_left()
    ensures { HandlesAreLeft }
{}

/// The limits of a journal leave room for every end: an event that is no disconnect makes no more marks
/// than any may and no more than its kind may (`most_marks`), raises the need by as much as the limits leave
/// for it and takes one device at most; a disconnect pays for its marks and takes none, and the stop makes none.
pub fn room_is_kept()
    ensures { (U : Setup) → RoomIsKept U }
{}

/// How many keys of each part an event sets for the first time, with those that the switch which it leaves pending may
/// set, where no session has taken more devices than it may: a few; of what sessions have taken, two for each device
/// that one session may have taken, where it turns a seat, and as many where a switch completes; of the others, one for
/// each session where it sends a signal to all of a user. A disconnect sets none but those of the switch that was
/// pending.
pub fn keys_are_kept()
    ensures { (U : Setup) (p : Part) → KeysAreKept U p }
{}

/// Whichever connections end behind a legal journal, in whatever order, one after the other: all their ends
/// together make no more marks than the need before them.
pub fn ends_share_need()
    ensures { EndsShareNeed }
{}

/// The shares of all connections, the marks that each one's end may make, are together at most the need.
pub fn shares_fit()
    ensures { SharesFit }
{}

/// The end of each connection makes no more marks than its share, and no end raises a share.
pub fn ends_have_shares()
    ensures { (U : Setup) → EndsHaveShares U }
{}

/// Whichever connections end behind a legal journal, one after the other: the end of each makes no more marks than
/// its share before them.
pub fn each_end_fits()
    ensures { EachEndFits }
{}

/// An event that is no disconnect raises the share of no connection but those that it concerns, and these by no more
/// than the marks of a switch and of one device.
pub fn shares_move()
    ensures { (U : Setup) → SharesMove U }
{}

/// In every legal journal seats have seats' names, users are those of the setup, and who asked for a lock and why
/// are texts; and of sessions, locks, seats and users there are no more than may be.
pub fn legal_is_named()
    ensures { LegalIsNamed }
{}
