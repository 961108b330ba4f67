// The core: the setup, the journal, and what is made ready for the next entry.

ghost use Rattle.std.specs.Prelude.{◌≡◌, ◌≢◌, ◌+◌, ◌^◌, ◌≤◌, ◌++◌, [], ◌∷◌, length, true, false, None, Err, IfOk, IfErr, OnOk};
ghost use Rattle.std.specs.Borrow.{sem};
ghost use Rattle.std.specs.Io.BufRead.{Rests};
ghost use Rattle.login_model.specs.Answers.{answer};
ghost use Rattle.login_model.specs.Full.{connected_after, full, mark_count, marks_needed};
ghost use Rattle.login_laws.specs.Lawful.{IsLawful};
ghost use Rattle.login_model.specs.Legal.{IsPlaced, IsAsked, answered, trail_of};
ghost use Rattle.login_model.specs.Policy.{verdict as policy_verdict};
ghost use Rattle.login_model.specs.Setups.{IsSetup};
ghost use Rattle.login_model.specs.Stopping.{is_stop, stopped};
ghost use Rattle.login_model.specs.Where.{is_connected};
ghost use Rattle.login_model.specs.declared.event.Event.TheVariants.{Disconnect};
ghost use Rattle.login_core.specs.Fullness.{always_fits};
ghost use Rattle.login_core.specs.State.{CoreState, IsReady, IsRoomFor, IsSame, Appends, RoomGives};
ghost use Rattle.login_core.specs.inner.State.{answer_next, stop_next};
ghost use Rattle.login_core.specs.contracts.state.Core.{the_row};
ghost use Rattle.login_model.specs.Limits.{entries_limit, marks_limit};

use crate::answering::{answer_of, read_answer, read_handle};
use crate::board::{Board, Draft};
use crate::room::fullness::{always_fits, connected_after, full};
use crate::room::ready::Ready;
use crate::room::texts::Texts;
use login_base::{ConnId, DevNo, HandleNo, LockNo, NoMemory, SeatName, SessId, Uid};
use login_judge::judge;
use login_model::{
    Answer, Entry, Event, Fact, Fullness, Inputs, Journal, Key, LockMode, Look, OpKind, Setup,
    Verdict,
};
use std::alloc::Global;
use std::marker::Model;
use std::mem;

/// Why no room was made.
#[derive(Clone, Copy, Debug, PartialEq, Eq)]
pub enum Refused {
    NoMemory,
    /// The journal is full: with the event and what all connections and the stop may still need, this
    /// count would pass its limit.
    Full(Fullness),
    /// The entry with this number is the stop. After it come only disconnects.
    Stopped(u32),
}

/// The answer of an event: that which was made ready. A disconnect and the stop have none.
fn answer_for(event: &Event, ready: &mut Answer) -> Answer
    ensures { result ≡ answer_next event.now ready.old }
{
    if always_fits(event) {
        Answer::Nothing
    } else {
        mem::replace(ready, Answer::Nothing)
    }
}

/// The verdict of an event: that which was found when room was made for it. A disconnect and the stop are
/// judged here.
fn verdict_for(draft: &Draft, setup: &Setup, ready: &Ready, event: &Event) -> Verdict
    requires ready { always_fits event.now ≡ false → ready.now.verdict ≡ policy_verdict setup.now draft.now.trail event.now }
    ensures { result ≡ policy_verdict setup.now draft.now.trail event.now }
{
    if always_fits(event) {
        judge(draft, setup, event)
    } else {
        ready.verdict
    }
}

fn is_stop(event: &Event) -> bool
    ensures { result ≡ is_stop event.now }
{
    matches!(event, Event::Stop)
}

/// The number of the stop's entry, after an event whose entry has this number.
fn stop_after(stop: Option<u32>, event: &Event, number: u32) -> Option<u32>
    ensures { result ≡ stop_next stop event.now number }
{
    match stop {
        Some(stop) => Some(stop),
        None => { if is_stop(event) { Some(number) } else { None } }
    }
}

/// The setup, the journal, and what is made ready for the next entry.
pub struct Core {
    setup: Setup,
    board: Board,
    texts: Texts,
    ready: Ready,
    stop: Option<u32>,
    /// What a read takes from its handle goes here, and is no longer wanted.
    read: Inputs,
}

// By hand, so that the ends of the types below are proved here, and not again in each crate that lets a core go.
impl Drop for Core {
    fn drop(self) {
        let Self {
            setup,
            board,
            texts,
            ready,
            stop: _,
            read,
        } = self;
        drop(setup);
        drop(board);
        drop(texts);
        drop(ready);
        drop(read);
    }
}

impl Model for Core {
    ghost use Rattle.login_core.specs.State.{CoreState};
    ghost use Rattle.login_facts.specs.Rings.{ring_count};
    ghost use Rattle.login_core.specs.inner.Inside.{IsCore};
    ghost use Rattle.login_core.specs.inner.Ledger.{next_room};

    ghost Value = { CoreState };

    ghost view = { λ c. record {
      setup = c.setup;
      journal = c.board.journal.items;
      entries = c.board.journal.entries;
      far = c.board.draft.far;
      keys = c.board.draft.keys;
      reach = c.board.draft.reach;
      ends = c.board.journal.ends;
      next_end = next_room c.board.journal;
      rings = ring_count c.board.draft.ears c.board.draft.rings;
      texts = c.texts;
      ready = c.ready;
    } };

    ghost invariant = { λ c. IsCore c.setup c.board c.texts c.stop };
}

impl Core {
    /// The core of a setup, before the first event. It takes the room of the stop's entry.
    pub fn new(alloc: Global, setup: Setup) -> Result<Core, NoMemory>
        requires { IsSetup setup }
        ensures setup { IfOk result (λ core. core.setup ≡ setup) }
        ensures journal { IfOk result (λ core. core.journal ≡ []) }
    {
        let read = Inputs::new(alloc)?;
        match Board::with_room(alloc) {
            Ok(board) => Ok(Core {
                setup,
                board,
                texts: Texts::new(alloc),
                ready: Ready {
                    verdict: Verdict::Granted,
                    answer: Answer::Nothing,
                },
                stop: None,
                read,
            }),
            Err(NoMemory) => {
                drop(setup);
                drop(read);
                Err(NoMemory)
            }
        }
    }

    /// Makes ready for an event: takes the memory of its entry, its marks, its answer, its texts and the
    /// inputs of a device that it takes, and of all that connections may need when they end, of each what its
    /// own end may make. A refusal leaves setup and journal as they were, and one that is not for want of
    /// memory leaves what was made ready before.
    /// The stop is looked at first, then whether the journal is full; memory is asked for last, and none
    /// for a disconnect or the stop, whose room is kept.
    pub fn room(&mut self, event: &Event) -> Result<(), Refused>
        requires asked { IsAsked self.old.journal event.now }
        ensures gives { RoomGives self.old self.new event.now result }
        ensures kept { result ≡ Err Refused.NoMemory → always_fits event.now ≡ false }
        ensures refused { IfErr result (λ why. why ≢ Refused.NoMemory → self.new ≡ self.old) }
        ensures same { IsSame self.old self.new }
    {
        if let Some(number) = self.stopped(event) {
            return Err(Refused::Stopped(number));
        }
        if always_fits(event) {
            return Ok(());
        }
        let verdict = judge(&self.board.draft, &self.setup, event);
        if let Some(count) = self.full(event, verdict) {
            return Err(Refused::Full(count));
        }
        match self.make_ready(event, verdict) {
            Ok(()) => Ok(()),
            Err(NoMemory) => Err(Refused::NoMemory),
        }
    }

    /// The number of the stop's entry, for an event that may not come after it: any but a disconnect. It
    /// takes no memory.
    pub fn stopped(&self, event: &Event) -> Option<u32>
        ensures { result ≡ stopped self.now.journal event.now }
    {
        match event {
            Event::Disconnect(_) => None,
            _ => self.stop,
        }
    }

    /// The facts, as the journal leaves them.
    fn draft(&self) -> &Draft
        ensures { result.now.trail ≡ trail_of self.now.journal }
    {
        &self.board.draft
    }

    /// Whether the journal is full for an event, and of what.
    fn full(&self, event: &Event, verdict: Verdict) -> Option<Fullness>
        requires { verdict ≡ policy_verdict self.now.setup (trail_of self.now.journal) event.now }
        ensures { result ≡ full self.now.setup self.now.journal event.now }
    {
        let entries = self.board.journal.journal().len() as u32;
        full(
            self.board.draft.counts(),
            entries,
            self.board.draft.made(),
            event,
            verdict,
        )
    }

    /// The answer of an event that is granted.
    fn granted_answer(&self, event: &Event) -> Result<Answer, NoMemory>
        requires granted { policy_verdict self.now.setup (trail_of self.now.journal) event.now ≡ Verdict.Granted }
        ensures { IfOk result (λ a. a ≡ answer self.now.setup self.now.journal event.now) }
    {
        let draft = &self.board.draft;
        match read_handle(event) {
            Some(handle) => read_answer(self.board.alloc, draft, handle),
            None => {
                let session = draft.fresh_session();
                answer_of(self.board.alloc, draft, &self.setup, session, event)
            }
        }
    }

    /// The answer of an event with this verdict.
    fn answer_to(&self, event: &Event, verdict: Verdict) -> Result<Answer, NoMemory>
        requires judged { verdict ≡ policy_verdict self.now.setup (trail_of self.now.journal) event.now }
        ensures { IfOk result (λ a. a ≡ answered self.now.setup verdict event.now self.now.journal) }
    {
        match verdict {
            Verdict::Granted => self.granted_answer(event),
            Verdict::Denied(_) => Ok(Answer::Nothing),
        }
    }

    /// How many entries an event, the ends of all connections after it, and the stop need.
    fn entries_for(&self, event: &Event, verdict: Verdict) -> u64
        requires { verdict ≡ policy_verdict self.now.setup (trail_of self.now.journal) event.now }
        ensures value { result ≡ connected_after self.now.setup (trail_of self.now.journal) event.now + 2 }
        ensures bound { result ≤ 2 ^ 33 + 2 }
    {
        connected_after(self.board.draft.counts(), event, verdict) + 2
    }

    /// How far the marks of an event and of all ends may reach.
    fn reach_for(&self) -> u64
        ensures { result ≡ marks_needed (trail_of self.now.journal) (mark_count self.now.journal) }
    {
        self.board
            .draft
            .counts()
            .marks_needed(self.board.draft.made())
    }

    /// Takes the memory of an event with this verdict and of the ends of all connections after it.
    fn make_ready(&mut self, event: &Event, verdict: Verdict) -> Result<(), NoMemory>
        requires judged { verdict ≡ policy_verdict self.old.setup (trail_of self.old.journal) event.now }
        requires other { always_fits event.now ≡ false }
        requires small { full self.old.setup self.old.journal event.now ≡ None }
        ensures ready { OnOk result (IsRoomFor self.new event.now) }
        ensures same { IsSame self.old self.new }
    {
        let entries = self.entries_for(event, verdict);
        let next = self.board.draft.entry_marks(event, verdict);
        let reach = self.reach_for();
        let keys = self.board.draft.keys_needed(event, verdict);
        self.board
            .reserve(entries as u32, next as u32, reach as u32, keys)?;
        self.board.make_ends(event, verdict)?;
        let taken = self.board.draft.counts().taken;
        self.board.draft.make_rings(taken as usize + 1)?;
        self.texts.prepare(self.board.alloc, event)?;
        let answer = self.answer_to(event, verdict)?;
        self.ready = Ready { verdict, answer };
        Ok(())
    }

    /// Steps an event that room was made for: puts its entry at the end of the journal, and answers
    /// that entry. It takes no memory.
    pub fn step(&mut self, event: Event) -> &Entry
        requires ready { IsReady self.old event }
        requires placed { IsPlaced self.old.journal event }
        ensures event { result.now.event ≡ event }
        ensures lawful { IsLawful self.old.setup (self.old.journal ++ result.now ∷ []) }
        ensures* after { sem 𝓛 (Rests the_row self.entry (λ core. Appends self.old result.now core)) }
    {
        let verdict = verdict_for(&self.board.draft, &self.setup, &self.ready, &event);
        let answer = answer_for(&event, &mut self.ready.answer);
        self.board.begin(&event);
        self.board
            .draft
            .perform(&self.setup, &event, verdict, &mut self.texts);
        self.board
            .draft
            .settle_ears(&event, verdict, &mut self.read);
        let number = (self.board.journal.journal().len() + 1) as u32;
        self.stop = stop_after(self.stop, &event, number);
        self.board.welcome(&event, verdict);
        self.board.close_entry(event, verdict, answer);
        let journal = self.board.journal.journal();
        journal.entry(journal.len() - 1)
    }

    /// Steps the disconnect of a connection, and answers its entry. Its room is kept from the connect on,
    /// so it takes no memory, and no room is made for it.
    pub fn close_link(&mut self, who: ConnId) -> &Entry
        requires connected { is_connected (trail_of self.old.journal) who ≡ true }
        ensures event { result.now.event ≡ Disconnect who }
        ensures lawful { IsLawful self.old.setup (self.old.journal ++ result.now ∷ []) }
        ensures* after { sem 𝓛 (Rests the_row self.entry (λ core. Appends self.old result.now core)) }
    {
        self.step(Event::Disconnect(who))
    }

    /// The journal, which is legal under the setup, with all that every legal journal has.
    pub fn journal(&self) -> &Journal
        ensures entries { result.now.items ≡ self.now.journal }
        ensures lawful { IsLawful self.now.setup self.now.journal }
        ensures few_entries { length self.now.journal ≤ entries_limit }
        ensures few_marks { mark_count self.now.journal ≤ marks_limit }
    {
        self.board.journal.journal()
    }

    /// The setup that the core was made with.
    pub fn setup(&self) -> &Setup
        ensures value { result.now ≡ self.now.setup }
        ensures set_up { IsSetup self.now.setup }
    {
        &self.setup
    }
}

impl Look for Core {
    ghost trail = { λ core. trail_of core.journal };

    fn fact(&self, key: &Key) -> &Fact {
        self.draft().fact(key)
    }

    fn fresh_handle(&self) -> HandleNo {
        self.draft().fresh_handle()
    }

    fn next_session(&self, after: Option<SessId>) -> Option<SessId> {
        self.draft().next_session(after)
    }

    fn next_user(&self, after: Option<Uid>) -> Option<Uid> {
        self.draft().next_user(after)
    }

    fn next_seat(&self, after: Option<SeatName>) -> Option<SeatName> {
        self.draft().next_seat(after)
    }

    fn next_device(&self, after: Option<DevNo>) -> Option<DevNo> {
        self.draft().next_device(after)
    }

    fn next_taken(&self, session: SessId, after: Option<DevNo>) -> Option<DevNo> {
        self.draft().next_taken(session, after)
    }

    fn next_taker(&self, device: DevNo, after: Option<SessId>) -> Option<SessId> {
        self.draft().next_taker(device, after)
    }

    fn next_lock(&self, after: Option<LockNo>) -> Option<LockNo> {
        self.draft().next_lock(after)
    }

    fn next_conn(&self, after: Option<ConnId>) -> Option<ConnId> {
        self.draft().next_conn(after)
    }

    fn session_count(&self) -> u32 {
        self.draft().session_count()
    }

    fn conn_count(&self) -> u32 {
        self.draft().conn_count()
    }

    fn device_count(&self) -> u32 {
        self.draft().device_count()
    }

    fn lock_count(&self) -> u32 {
        self.draft().lock_count()
    }

    fn is_held_up(&self, kind: OpKind, mode: LockMode) -> bool {
        self.draft().is_held_up(kind, mode)
    }

    fn on_terminal(&self, vt: u32) -> Option<SessId> {
        self.draft().on_terminal(vt)
    }

    fn is_seated(&self, uid: u32) -> bool {
        self.draft().is_seated(uid)
    }

    fn is_active_user(&self, uid: u32) -> bool {
        self.draft().is_active_user(uid)
    }
}
