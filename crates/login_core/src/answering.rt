// What a granted event is answered. The answer is made before the event's marks, since it may take memory.

ghost use Rattle.std.specs.Prelude.{◌≡◌, ◌++◌, [], IfOk, IsSome, List, None, OnOk, Some, map};
ghost use Rattle.device_model.specs.Ears.{heard_of};
ghost use Rattle.login_base.specs.declared.ids.DevNo.{DevNo as AnyDevice};
ghost use Rattle.login_model.specs.Fresh.{next_session, next_handle};
ghost use Rattle.login_model.specs.Where.{locks, sessions, users, seats};
ghost use Rattle.login_model.specs.Creating.{seat_of};
ghost use Rattle.login_model.specs.Answers.{session_row, known_user, lock_row, lock_rows, session_answer, seat_answer, get_answer, get_all_answer, taken_answer, marks_answer, answer};
ghost use Rattle.login_model.specs.Legal.{trail_of};
ghost use Rattle.login_model.specs.declared.answer.Input.{Input as AnyInput};
ghost use Rattle.login_model.specs.declared.mark.Entry.{Entry};
ghost use Rattle.login_core.specs.inner.Reads.{read_handle};

use crate::board::Draft;
use crate::creating::created::seat_of;
use login_base::{ConnId, HandleNo, Items, LockNo, NoMemory, SeatName, SessId, Uid, Word};
use login_judge::can;
use login_model::{
    Answer, Boxed, Call, Created, Creation, Event, Fact, Key, KnownUser, Lock, Look, Object, Rule,
    SessionRow, Setup, named_object,
};
use login_table::{is_active, list, seat_of_session};
use std::alloc::Global;
use wire_props::{get, get_all};

fn session_row<F: Look>(
    alloc: Global,
    facts: &F,
    setup: &Setup,
    session: SessId,
) -> Result<SessionRow, NoMemory>
    ensures { IfOk result (λ row. row ≡ session_row setup.now (F.trail facts.now) session) }
{
    let uid = facts.fact(&Key::Sess(session)).user_or_root();
    let name = Word::from_slice(alloc, setup.user_name(uid.0))?;
    let seat = Boxed::of_option(alloc, seat_of_session(facts, session))?;
    Ok(SessionRow {
        session,
        uid,
        name,
        seat,
    })
}

fn known_user(alloc: Global, setup: &Setup, uid: Uid) -> Result<KnownUser, NoMemory>
    ensures { IfOk result (λ row. row ≡ known_user setup.now uid) }
{
    let name = Word::from_slice(alloc, setup.user_name(uid.0))?;
    Ok(KnownUser { uid, name })
}

fn session_rows<F: Look>(
    alloc: Global,
    facts: &F,
    setup: &Setup,
    sessions: &[SessId],
) -> Result<Items<SessionRow>, NoMemory>
    ensures { IfOk result (λ rows. rows ≡ map (session_row setup.now (F.trail facts.now)) sessions.now) }
{
    let mut rows = Items::new(alloc);
    for session in sessions {
        let row = session_row(alloc, facts, setup, *session)?;
        rows.push(row)?;
    }
    Ok(rows)
}

fn known_users(alloc: Global, setup: &Setup, users: &[Uid]) -> Result<Items<KnownUser>, NoMemory>
    ensures { IfOk result (λ rows. rows ≡ map (known_user setup.now) users.now) }
{
    let mut rows = Items::new(alloc);
    for uid in users {
        let row = known_user(alloc, setup, *uid)?;
        rows.push(row)?;
    }
    Ok(rows)
}

/// What ListSessions answers.
#[tactic(auto, unfolding(login_model::specs::Where::sessions))]
fn list_sessions<F: Look>(alloc: Global, facts: &F, setup: &Setup) -> Result<Answer, NoMemory>
    ensures { IfOk result (λ a. a ≡ Answer.Sessions (map (session_row setup.now (F.trail facts.now)) (sessions (F.trail facts.now)))) }
{
    let sessions = list::<SessId, F>(alloc, facts)?;
    let rows = session_rows(alloc, facts, setup, sessions.as_slice())?;
    Ok(Answer::Sessions(rows))
}

/// What ListUsers answers.
#[tactic(auto, unfolding(login_model::specs::Where::users))]
fn list_users<F: Look>(alloc: Global, facts: &F, setup: &Setup) -> Result<Answer, NoMemory>
    ensures { IfOk result (λ a. a ≡ Answer.Users (map (known_user setup.now) (users (F.trail facts.now)))) }
{
    let users = list::<Uid, F>(alloc, facts)?;
    let rows = known_users(alloc, setup, users.as_slice())?;
    Ok(Answer::Users(rows))
}

/// What ListSeats answers.
#[tactic(auto, unfolding(login_model::specs::Where::seats))]
fn list_seats<F: Look>(alloc: Global, facts: &F) -> Result<Answer, NoMemory>
    ensures { IfOk result (λ a. a ≡ Answer.Seats (seats (F.trail facts.now))) }
{
    let seats = list::<SeatName, F>(alloc, facts)?;
    Ok(Answer::Seats(seats))
}

/// A copy of a lock.
fn copied_lock(lock: &Lock) -> Result<Lock, NoMemory>
    ensures { IfOk result (λ copy. copy ≡ lock.now) }
{
    Ok(Lock {
        what: lock.what,
        mode: lock.mode,
        uid: lock.uid,
        who: lock.who.copied()?,
        why: lock.why.copied()?,
        holder: lock.holder,
    })
}

/// Puts a copy of a lock behind others, where the fact is that of a lock.
fn push_lock(rows: &mut Items<Lock>, fact: &Fact) -> Result<(), NoMemory>
    ensures { OnOk result (rows.new ≡ rows.old ++ lock_row fact.now []) }
{
    if let Some(lock) = fact.lock() {
        rows.push(copied_lock(lock)?)?;
    }
    Ok(())
}

/// Copies of those of these locks that stand.
fn copied_locks<F: Look>(
    alloc: Global,
    facts: &F,
    locks: &[LockNo],
) -> Result<Items<Lock>, NoMemory>
    ensures { IfOk result (λ rows. rows ≡ lock_rows (F.trail facts.now) locks.now) }
{
    let mut rows = Items::new(alloc);
    for number in locks {
        push_lock(&mut rows, facts.fact(&Key::Lock(*number)))?;
    }
    Ok(rows)
}

/// What ListInhibitors answers.
#[tactic(auto, unfolding(login_model::specs::Where::locks))]
fn list_inhibitors<F: Look>(alloc: Global, facts: &F) -> Result<Answer, NoMemory>
    ensures { IfOk result (λ a. a ≡ Answer.Inhibitors (lock_rows (F.trail facts.now) (locks (F.trail facts.now)))) }
{
    let locks = list::<LockNo, F>(alloc, facts)?;
    let rows = copied_locks(alloc, facts, locks.as_slice())?;
    Ok(Answer::Inhibitors(rows))
}

fn session_answer(session: Option<SessId>) -> Answer
    ensures { result ≡ session_answer session }
{
    match session {
        Some(session) => Answer::Session(session),
        None => Answer::Nothing,
    }
}

fn seat_answer(alloc: Global, seat: Option<SeatName>) -> Result<Answer, NoMemory>
    ensures { IfOk result (λ a. a ≡ seat_answer seat) }
{
    match seat {
        Some(seat) => Ok(Answer::Seat(Boxed::new(alloc, seat)?)),
        None => Ok(Answer::Nothing),
    }
}

/// What TakeDevice answers: the handle, and whether the session is inactive.
fn taken_answer<F: Look>(facts: &F, session: Option<SessId>) -> Answer
    ensures { result ≡ taken_answer (F.trail facts.now) session }
{
    match session {
        Some(session) => Answer::Taken(facts.fresh_handle(), !is_active(facts, session)),
        None => Answer::Nothing,
    }
}

/// What CreateSession answers.
fn created<F: Look>(facts: &F, session: SessId, creation: &Creation) -> Created
    requires { session ≡ next_session (F.trail facts.now) }
    ensures session { result.session ≡ next_session (F.trail facts.now) }
    ensures fifo { result.fifo ≡ next_handle (F.trail facts.now) }
    ensures uid { result.uid ≡ creation.now.uid }
    ensures seat { result.seat ≡ seat_of creation.now.seat }
    ensures vt { result.vt ≡ creation.now.vt }
{
    Created {
        session,
        fifo: facts.fresh_handle(),
        uid: creation.uid,
        seat: seat_of(creation.seat.as_slice()),
        vt: creation.vt,
    }
}

/// What Get answers of the object that a path names.
fn get_answer<F: Look>(
    alloc: Global,
    facts: &F,
    setup: &Setup,
    name: &Word,
    object: &Result<Object, Rule>,
) -> Result<Answer, NoMemory>
    ensures { IfOk result (λ a. a ≡ get_answer setup.now (F.trail facts.now) name.now object.now) }
{
    match object {
        Ok(object) => Ok(get(alloc, facts, setup, object, name)?.unwrap_or(Answer::Nothing)),
        Err(_) => Ok(Answer::Nothing),
    }
}

/// What GetAll answers of the object that a path names: of another interface than its own nothing.
fn get_all_answer<F: Look>(
    alloc: Global,
    facts: &F,
    setup: &Setup,
    interface: &Word,
    object: &Result<Object, Rule>,
) -> Result<Answer, NoMemory>
    ensures { IfOk result (λ a. a ≡ get_all_answer setup.now (F.trail facts.now) interface.now object.now) }
{
    match object {
        Ok(object) if object.is_own_interface(interface.as_slice()) => {
            get_all(alloc, facts, setup, object)
        }
        Ok(_) => Ok(Answer::Properties(Items::new(alloc))),
        Err(_) => Ok(Answer::Nothing),
    }
}

/// The number of the login manager, as that of the connection that owns its name.
const MANAGER: ConnId = ConnId(0);

fn call_answer<F: Look>(
    alloc: Global,
    facts: &F,
    setup: &Setup,
    session: SessId,
    who: ConnId,
    call: &Call,
) -> Result<Answer, NoMemory>
    requires session { session ≡ next_session (F.trail facts.now) }
    ensures { IfOk result (λ a. a ≡ marks_answer setup.now (F.trail facts.now) who call.now) }
{
    match call {
        Call::Create(creation) => {
            let created = created(facts, session, creation.get());
            Ok(Answer::Created(Boxed::new(alloc, created)?))
        }
        Call::GetSession(id) => Ok(session_answer(id.session())),
        Call::GetUser(uid) => Ok(Answer::User(*uid)),
        Call::GetSeat(seat) => seat_answer(alloc, seat_of(seat.as_slice())),
        Call::ListSessions => list_sessions(alloc, facts, setup),
        Call::ListUsers => list_users(alloc, facts, setup),
        Call::ListSeats => list_seats(alloc, facts),
        Call::TakeDevice(id, _) => Ok(taken_answer(facts, id.session())),
        Call::ListInhibitors => list_inhibitors(alloc, facts),
        Call::Can(kind) => Ok(Answer::Can(can(facts, setup, who, *kind))),
        Call::Inhibit(_) => Ok(Answer::Handle(facts.fresh_handle())),
        Call::GetProperty(x) => {
            let object = named_object(x.path.as_slice());
            get_answer(alloc, facts, setup, &x.name, &object)
        }
        Call::GetAllProperties(path, interface) => {
            let object = named_object(path.as_slice());
            get_all_answer(alloc, facts, setup, interface, &object)
        }
        Call::GetMachineId => Ok(Answer::MachineId(setup.guid.copied()?)),
        Call::Hello => Ok(Answer::UniqueName(who)),
        Call::GetNameOwner(_) => Ok(Answer::UniqueName(MANAGER)),
        _ => Ok(Answer::Nothing),
    }
}

/// The handle that is read.
pub fn read_handle(event: &Event) -> Option<HandleNo>
    ensures { result ≡ read_handle event.now }
{
    match event {
        Event::Call(request) => match &request.call {
            Call::ReadInput(handle) => Some(*handle),
            _ => None,
        },
        _ => None,
    }
}

/// What a read of a handle is answered that listens: what it has heard.
pub fn read_answer(alloc: Global, draft: &Draft, handle: HandleNo) -> Result<Answer, NoMemory>
    requires listens { IsSome (heard_of draft.now.ears handle) }
    ensures { (d : AnyDevice) (xs : List AnyInput) → heard_of draft.now.ears handle ≡ Some (d, xs) → IfOk result (λ a. a ≡ Answer.Inputs xs) }
{
    let heard = Vec::from_slice(alloc, draft.heard(handle))?;
    Ok(Answer::Inputs(Items::from_vec(heard)))
}

/// What a granted event is answered that reads no handle; `session` is the number of the next session.
#[tactic(auto, unfolding(login_model::specs::Answers::answer))]
pub fn answer_of<F: Look>(
    alloc: Global,
    facts: &F,
    setup: &Setup,
    session: SessId,
    event: &Event,
) -> Result<Answer, NoMemory>
    requires session { session ≡ next_session (F.trail facts.now) }
    requires other { read_handle event.now ≡ None }
    ensures { (before : List Entry) → trail_of before ≡ F.trail facts.now → IfOk result (λ a. a ≡ answer setup.now before event.now) }
{
    match event {
        Event::Call(request) => {
            call_answer(alloc, facts, setup, session, request.who, &request.call)
        }
        _ => Ok(Answer::Nothing),
    }
}
