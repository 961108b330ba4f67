// How answers are printed.

ghost use Rattle.std.specs.Prelude.{◌≡◌, ◌++◌, ◌∷◌, OnOk, List, ℕ, map};
ghost use Rattle.std.specs.List.{flat_map, join_with_byte};
ghost use Rattle.login_model.specs.Paths.{session_path, seat_path, user_path, runtime_path};
ghost use Rattle.recording.specs.AnswerWords.{array, seat_text, found_words, value_words, row_words, session_value, user_value, seat_value, lock_value, why_words, input_value, answer_words, session_reference, property_value, or_empty, user_reference, seat_or_none, session_or_none, typed, variant};
ghost use Rattle.login_model.specs.Paths.{unique_name};
ghost use Rattle.login_model.specs.Words.{say_word, what_text};
ghost use Rattle.recording.specs.Text.{spell_flag};
ghost use Rattle.std.specs.Fmt.{decimal};
ghost use Rattle.login_model.specs.inner.Prefixed.{spaced};

use crate::fact_text::{push_mode, push_what};
use crate::line_text::LineText;
use login_base::{ConnId, HandleNo, NoMemory, SeatName, SessId, Uid, escape};
use login_model::{
    Answer, Boxed, Created, Inhibited, Input, KnownUser, Lock, PropertyRow, PropertyValue, Say,
    SessionRow,
};

/// A value of an array.
trait Value {
    /// How it is printed.
    ghost spelled: { Self → List ℕ };

    /// Adds it.
    fn push_to(&self, text: &mut LineText) -> Result<(), NoMemory>
        ensures { OnOk result (text.new ≡ text.old ++ spelled self.now) };
}

/// Adds a seat's name as a text, empty for none.
fn push_seat_text(text: &mut LineText, seat: Option<SeatName>) -> Result<(), NoMemory>
    ensures { OnOk result (text.new ≡ text.old ++ 32 ∷ seat_text seat) }
{
    match seat {
        Some(name) => text.text(name.as_slice()),
        None => text.text(b""),
    }
}

/// Adds the path of a session's object. An id has no byte that is escaped.
fn push_session_path(text: &mut LineText, session: SessId) -> Result<(), NoMemory>
    ensures { OnOk result (text.new ≡ text.old ++ 32 ∷ session_path session) }
{
    text.push(b" /org/freedesktop/login1/session/c")?;
    text.digits(session.0)
}

/// Adds the path of a seat's object.
fn push_seat_path(text: &mut LineText, seat: &SeatName) -> Result<(), NoMemory>
    ensures { OnOk result (text.new ≡ text.old ++ 32 ∷ seat_path seat.now) }
{
    let label = escape(text.alloc(), seat.as_slice())?;
    text.push(b" /org/freedesktop/login1/seat/")?;
    text.push(label.as_slice())
}

/// Adds the path of a user's object.
fn push_user_path(text: &mut LineText, uid: Uid) -> Result<(), NoMemory>
    ensures { OnOk result (text.new ≡ text.old ++ 32 ∷ user_path uid) }
{
    text.push(b" /org/freedesktop/login1/user/_")?;
    text.digits(uid.0)
}

/// Adds the path of a user's runtime directory.
fn push_directory(text: &mut LineText, uid: Uid) -> Result<(), NoMemory>
    ensures { OnOk result (text.new ≡ text.old ++ 32 ∷ runtime_path uid) }
{
    text.push(b" /run/user/")?;
    text.digits(uid.0)
}

/// Adds the session that was created, and where it is found.
fn push_found(text: &mut LineText, x: &Created) -> Result<(), NoMemory>
    ensures { OnOk result (text.new ≡ text.old ++ spaced (found_words x.now)) }
{
    text.session(x.session)?;
    push_session_path(text, x.session)?;
    push_directory(text, x.uid)
}

/// Adds the handle, the user, the seat, its terminal, and that the session is new.
fn push_values(text: &mut LineText, x: &Created) -> Result<(), NoMemory>
    ensures { OnOk result (text.new ≡ text.old ++ spaced (value_words x.now)) }
{
    text.number(x.fifo.0)?;
    text.number(x.uid.0)?;
    push_seat_text(text, x.seat)?;
    text.number(x.vt)?;
    text.flag(false)
}

/// Adds what CreateSession answers.
fn push_created(text: &mut LineText, x: &Created) -> Result<(), NoMemory>
    ensures { OnOk result (text.new ≡ text.old ++ spaced (found_words x.now ++ value_words x.now)) }
{
    push_found(text, x)?;
    push_values(text, x)
}

/// Adds whose a session of a list is, its seat, and where it is found.
fn push_row(text: &mut LineText, x: &SessionRow) -> Result<(), NoMemory>
    ensures { OnOk result (text.new ≡ text.old ++ spaced (row_words x.now)) }
{
    text.number(x.uid.0)?;
    text.text(x.name.as_slice())?;
    push_seat_text(text, x.seat_name())?;
    push_session_path(text, x.session)
}

/// Adds who set a lock and why, how it holds up, and whose it is.
fn push_why(text: &mut LineText, lock: &Lock) -> Result<(), NoMemory>
    ensures { OnOk result (text.new ≡ text.old ++ spaced (why_words lock.now)) }
{
    text.text(lock.who.as_slice())?;
    text.text(lock.why.as_slice())?;
    push_mode(text, lock.mode)?;
    text.number(lock.uid.0)?;
    text.number(lock.holder.0)
}

fn push_say(text: &mut LineText, say: Say) -> Result<(), NoMemory>
    ensures { OnOk result (text.new ≡ text.old ++ 32 ∷ say_word say) }
{
    text.word(say.name())
}

/// Adds the handle with which a device was taken, and whether the session is inactive.
fn push_taken(text: &mut LineText, handle: HandleNo, inactive: bool) -> Result<(), NoMemory>
    ensures { OnOk result (text.new ≡ text.old ++ 32 ∷ decimal handle.0 ++ 32 ∷ spell_flag inactive) }
{
    text.number(handle.0)?;
    text.flag(inactive)
}

impl Value for SessionRow {
    ghost spelled = { session_value };

    fn push_to(&self, text: &mut LineText) -> Result<(), NoMemory> {
        text.push(b"(c")?;
        text.digits(self.session.0)?;
        push_row(text, self)?;
        text.push(b")")
    }
}

impl Value for KnownUser {
    ghost spelled = { user_value };

    fn push_to(&self, text: &mut LineText) -> Result<(), NoMemory> {
        text.push(b"(")?;
        text.digits(self.uid.0)?;
        text.text(self.name.as_slice())?;
        push_user_path(text, self.uid)?;
        text.push(b")")
    }
}

impl Value for Lock {
    ghost spelled = { lock_value };

    fn push_to(&self, text: &mut LineText) -> Result<(), NoMemory> {
        text.push(b"(")?;
        push_what(text, &self.what)?;
        push_why(text, self)?;
        text.push(b")")
    }
}

impl Value for Input {
    ghost spelled = { input_value };

    fn push_to(&self, text: &mut LineText) -> Result<(), NoMemory> {
        text.push(b"(")?;
        text.digits(u32::from(self.kind))?;
        text.number(u32::from(self.code))?;
        text.signed(self.value)?;
        text.push(b")")
    }
}

impl Value for SeatName {
    ghost spelled = { seat_value };

    fn push_to(&self, text: &mut LineText) -> Result<(), NoMemory> {
        text.push(b"(")?;
        text.value(self.as_slice())?;
        push_seat_path(text, self)?;
        text.push(b")")
    }
}

impl Value for SessId {
    ghost spelled = { session_reference };

    fn push_to(&self, text: &mut LineText) -> Result<(), NoMemory> {
        text.push(b"(c")?;
        text.digits(self.0)?;
        push_session_path(text, *self)?;
        text.push(b")")
    }
}

impl Value for PropertyRow {
    ghost spelled = { property_value };

    fn push_to(&self, text: &mut LineText) -> Result<(), NoMemory> {
        text.push(b"{")?;
        text.push(self.property.name())?;
        text.push(b" ")?;
        push_variant(text, &self.value)?;
        text.push(b"}")
    }
}

/// Adds values, a space before each.
fn push_more<T: Value>(text: &mut LineText, values: &[T]) -> Result<(), NoMemory>
    ensures { OnOk result (text.new ≡ text.old ++ flat_map (λ (x : T). 32 ∷ T.spelled x) values.now) }
{
    for value in values {
        text.push(b" ")?;
        value.push_to(text)?;
    }
    Ok(())
}

/// Adds values, a space between any two.
fn push_joined<T: Value>(text: &mut LineText, values: &[T]) -> Result<(), NoMemory>
    ensures { OnOk result (text.new ≡ text.old ++ join_with_byte 32 (map T.spelled values.now)) }
{
    let Some((first, rest)) = values.split_first() else {
        return Ok(());
    };
    first.push_to(text)?;
    push_more(text, rest)
}

/// Adds an array of these values.
#[tactic(auto, unfolding(crate::specs::AnswerWords::array))]
fn push_array<T: Value>(text: &mut LineText, values: &[T]) -> Result<(), NoMemory>
    ensures { OnOk result (text.new ≡ text.old ++ 32 ∷ array (map T.spelled values.now)) }
{
    text.push(b" [")?;
    push_joined(text, values)?;
    text.push(b"]")
}

/// Adds what locks hold up, or the empty text where they hold up nothing.
fn push_held(text: &mut LineText, what: &Inhibited) -> Result<(), NoMemory>
    ensures { OnOk result (text.new ≡ text.old ++ or_empty (what_text what.now)) }
{
    let word = what.text(text.alloc())?;
    match word.as_slice() {
        [] => text.push(b"%"),
        held => text.push(held),
    }
}

/// Adds a user by number and path.
fn push_user_reference(text: &mut LineText, uid: Uid) -> Result<(), NoMemory>
    ensures { OnOk result (text.new ≡ text.old ++ user_reference uid) }
{
    text.push(b"(")?;
    text.digits(uid.0)?;
    push_user_path(text, uid)?;
    text.push(b")")
}

/// Adds a seat by name and path, if there is one.
fn push_seat_or_none(text: &mut LineText, seat: &Option<Boxed<SeatName>>) -> Result<(), NoMemory>
    ensures { OnOk result (text.new ≡ text.old ++ seat_or_none seat.now) }
{
    match seat {
        Some(seat) => seat.get().push_to(text),
        None => text.push(b"(% /)"),
    }
}

/// Adds a session by id and path, if there is one.
fn push_session_or_none(text: &mut LineText, session: Option<SessId>) -> Result<(), NoMemory>
    ensures { OnOk result (text.new ≡ text.old ++ session_or_none session) }
{
    match session {
        Some(session) => session.push_to(text),
        None => text.push(b"(% /)"),
    }
}

/// Adds the type of a property and its value.
fn push_typed(text: &mut LineText, value: &PropertyValue) -> Result<(), NoMemory>
    ensures { OnOk result (text.new ≡ text.old ++ join_with_byte 32 (typed value.now)) }
{
    match value {
        PropertyValue::Text(word) => {
            text.push(b"s")?;
            text.text(word.as_slice())
        }
        PropertyValue::Number(number) => {
            text.push(b"u")?;
            text.number(*number)
        }
        PropertyValue::Count(number) => {
            text.push(b"t")?;
            text.number(*number)
        }
        PropertyValue::Time(time) => {
            text.push(b"t ")?;
            text.microseconds(time.0)
        }
        PropertyValue::Flag(flag) => {
            text.push(b"b")?;
            text.flag(*flag)
        }
        PropertyValue::Inhibited(what) => {
            text.push(b"s ")?;
            push_held(text, what)
        }
        PropertyValue::User(uid) => {
            text.push(b"(uo) ")?;
            push_user_reference(text, *uid)
        }
        PropertyValue::Seat(seat) => {
            text.push(b"(so) ")?;
            push_seat_or_none(text, seat)
        }
        PropertyValue::Session(session) => {
            text.push(b"(so) ")?;
            push_session_or_none(text, *session)
        }
        PropertyValue::Sessions(sessions) => {
            text.push(b"a(so)")?;
            push_array(text, sessions.as_slice())
        }
    }
}

/// Adds a property's value with its type.
#[tactic(auto, unfolding(crate::specs::AnswerWords::variant))]
fn push_variant(text: &mut LineText, value: &PropertyValue) -> Result<(), NoMemory>
    ensures { OnOk result (text.new ≡ text.old ++ variant value.now) }
{
    text.push(b"<")?;
    push_typed(text, value)?;
    text.push(b">")
}

/// Adds a property's value with its type, as a word.
fn push_property(text: &mut LineText, value: &PropertyValue) -> Result<(), NoMemory>
    ensures { OnOk result (text.new ≡ text.old ++ 32 ∷ variant value.now) }
{
    text.push(b" ")?;
    push_variant(text, value)
}

/// Adds the unique name of a connection.
fn push_unique_name(text: &mut LineText, who: ConnId) -> Result<(), NoMemory>
    ensures { OnOk result (text.new ≡ text.old ++ 32 ∷ unique_name who) }
{
    text.push(b" :1.")?;
    text.digits(who.0)
}

/// Adds the values of an answer.
#[tactic(auto, unfolding(crate::specs::AnswerWords::answer_words))]
pub(crate) fn push_answer(text: &mut LineText, answer: &Answer) -> Result<(), NoMemory>
    ensures { OnOk result (text.new ≡ text.old ++ spaced (answer_words answer.now)) }
{
    match answer {
        Answer::Nothing => Ok(()),
        Answer::Created(x) => push_created(text, x.get()),
        Answer::Session(session) => push_session_path(text, *session),
        Answer::User(uid) => push_user_path(text, *uid),
        Answer::Seat(seat) => push_seat_path(text, seat.get()),
        Answer::Sessions(rows) => push_array(text, rows.as_slice()),
        Answer::Users(rows) => push_array(text, rows.as_slice()),
        Answer::Seats(names) => push_array(text, names.as_slice()),
        Answer::Inhibitors(locks) => push_array(text, locks.as_slice()),
        Answer::Can(say) => push_say(text, *say),
        Answer::Inputs(inputs) => push_array(text, inputs.as_slice()),
        Answer::Handle(handle) => text.number(handle.0),
        Answer::Taken(handle, inactive) => push_taken(text, *handle, *inactive),
        Answer::Property(value) => push_property(text, value),
        Answer::Properties(rows) => push_array(text, rows.as_slice()),
        Answer::MachineId(guid) => text.text(guid.as_slice()),
        Answer::UniqueName(who) => push_unique_name(text, *who),
    }
}
