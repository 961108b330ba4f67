// Laws of recordings, and of refused lines.

ghost use Rattle.replay.specs.Causes.{OneCause};
ghost use Rattle.replay.specs.Recorded.{RecordingPlays};
ghost use Rattle.replay.specs.Refused.{FaultIsOfAnAction, OneRefusal};
ghost use Rattle.replay.specs.Spelled.{LinesHaveTurns, OneRecording, SpelledIsRecording};
ghost use Rattle.replay.specs.Stopping.{OneStop};
ghost use Rattle.replay.specs.LinkLaws.{CallsAreOfBytes, EndsForGood, OutsAreSaid};

/// At most one line of a text is refused.
pub fn one_refusal()
    ensures { OneRefusal }
{}

/// Behind the same lines, a line is refused for one cause.
pub fn one_cause()
    ensures { OneCause }
{}

/// A table that is refused is so at the line of one of its actions.
pub fn fault_is_of_an_action()
    ensures { FaultIsOfAnAction }
{}

/// A preamble and the events of a legal journal that was never full, spelled in at most 4000000000 lines,
/// are a recording, and it plays this journal.
pub fn spelled_recording()
    ensures { SpelledIsRecording }
{}

/// The recording of a legal journal, in at most 4000000000 lines, plays this journal and no other, also where an
/// event of it found the journal full; and where none did, it is replayed whole.
pub fn recording_plays()
    ensures { RecordingPlays }
{}

/// A text is a recording in one way at most: it has one setup, one journal and one transcript.
pub fn one_recording()
    ensures { OneRecording }
{}

/// A line that may come behind others has its entries: whether it may come is all that is asked of it.
pub fn lines_have_turns()
    ensures { LinesHaveTurns }
{}

/// A text is at most one of these: a recording, refused at a line, or with an event that finds the journal
/// full. It is refused, or finds it full, in one way and behind one front.
pub fn one_stop()
    ensures { OneStop }
{}

/// What a link's lines of the transcript say, joined, is what was said on it: the replies of its handshake,
/// and all of its mail by the journal.
pub fn outs_are_said()
    ensures { OutsAreSaid }
{}

/// The calls that a link's lines make are those of all its bytes, in order and once, if it was let in: it does
/// not matter how lines part them.
pub fn calls_are_of_bytes()
    ensures { CallsAreOfBytes }
{}

/// A link ends once: whatever lines follow, it has ended in the same way, and nothing more is said on it.
pub fn ends_for_good()
    ensures { EndsForGood }
{}
