// What calls are answered, as values.

ghost use Rattle.std.specs.Prelude.{◌≡◌, ◌++◌, ◌∷◌, ◌<◌, [], IfOk, OnOk, List, false, length, map};
ghost use Rattle.std.specs.List.{AllByRecursion};
ghost use Rattle.login_model.specs.Paths.{runtime_path, session_path};
ghost use Rattle.bus_names.specs.Types.{basic as basic_type, struct_of, variant as variant_type};
ghost use Rattle.bus_names.specs.declared.basic.Basic.TheVariants.{Str};
ghost use Rattle.bus_value.specs.Values.{Val, basic, dict, entries, variant};
ghost use Rattle.bus_value.specs.declared.basic_value.BasicValue.TheVariants.{U64};
ghost use Rattle.login_model.specs.declared.property.PropertyRow.{PropertyRow as AnyRow};
ghost use Rattle.wire_out.specs.Messages.{flag, number, path, structure, text};
ghost use Rattle.login_model.specs.Words.{mode_word, what_text};
ghost use Rattle.wire_out.specs.Replies.{answer_values, created_values, input_values, lock_values, property_entry, property_value, rows, seat_text, session_values, user_values};
ghost use Rattle.login_model.specs.Paths.{unique_name};
ghost use Rattle.wire_out.specs.References.{seat_reference, session_reference};
ghost use Rattle.wire_out.specs.inner.Sendable.{CanBeAnswered, CanBeValue, IsLockRow, IsSeat, IsSessionRow};
ghost use Rattle.wire_out.specs.inner.Numbers.{HasAnswerNumbers, HasCreatedNumbers, HasInputNumbers, HasLockNumbers, HasSessionNumbers, HasValueNumbers, IsNumber};

use crate::paths::runtime_path;
use crate::values::{
    pair, push, reference_or_none, seat_name, seat_object, seat_or_none, seat_reference,
    session_id, session_object, session_reference, text, user_object, user_reference,
};
use bus_message::{alone, flag, number, numbered};
use bus_names::{Basic, Type};
use bus_value::{BasicValue, Value};
use login_base::{ConnId, NoMemory, SeatName, SessId, Word};
use login_model::{
    Answer, Created, Inhibited, Input, KnownUser, Lock, PropertyRow, PropertyValue, SessionRow,
};
use std::alloc::Global;

/// A row of a list, which is sent as a struct.
trait Row {
    /// Its fields.
    ghost fields: { Self → List Val };

    /// Whether it can be sent.
    ghost ready: { Self → Type 0 };

    /// What the types of its numbers say.
    ghost ranged: { Self → Type 0 };

    /// Its fields, of which there is one at least.
    fn fields(&self, alloc: Global) -> Result<Vec<Value>, NoMemory>
        requires { ready self.now }
        ensures fields { IfOk result (λ values. values.items ≡ fields self.now) }
        ensures some { IfOk result (λ values. 0 < length values.items) }
        ensures ranged { OnOk result (ranged self.now) };
}

/// Adds whose session it is.
fn push_owner(alloc: Global, out: &mut Vec<Value>, x: &SessionRow) -> Result<(), NoMemory>
    ensures values { OnOk result (out.new.items ≡ out.old.items ++ number x.now.uid.0 ∷ text x.now.name ∷ []) }
    ensures ranged { OnOk result (IsNumber x.now.uid.0) }
{
    push(out, number(x.uid.0))?;
    push(out, text(alloc, x.name.as_slice())?)
}

impl Row for SessionRow {
    ghost fields = { session_values };

    ghost ready = { IsSessionRow };

    ghost ranged = { HasSessionNumbers };

    fn fields(&self, alloc: Global) -> Result<Vec<Value>, NoMemory> {
        let mut out = alone(alloc, session_id(alloc, self.session)?)?;
        push_owner(alloc, &mut out, self)?;
        push(&mut out, seat_name(alloc, self.seat_name())?)?;
        push(&mut out, session_object(alloc, self.session)?)?;
        Ok(out)
    }
}

impl Row for KnownUser {
    ghost fields = { user_values };

    ghost ready = { λ x. Unit {0} };

    ghost ranged = { λ x. IsNumber x.uid.0 };

    fn fields(&self, alloc: Global) -> Result<Vec<Value>, NoMemory> {
        let name = text(alloc, self.name.as_slice())?;
        let mut out = pair(alloc, number(self.uid.0), name)?;
        push(&mut out, user_object(alloc, self.uid)?)?;
        Ok(out)
    }
}

impl Row for SeatName {
    ghost fields = { seat_reference };

    ghost ready = { IsSeat };

    ghost ranged = { λ x. Unit {0} };

    fn fields(&self, alloc: Global) -> Result<Vec<Value>, NoMemory> {
        seat_reference(alloc, self)
    }
}

impl Row for SessId {
    ghost fields = { session_reference };

    ghost ready = { λ x. Unit {0} };

    ghost ranged = { λ x. IsNumber x.0 };

    fn fields(&self, alloc: Global) -> Result<Vec<Value>, NoMemory> {
        session_reference(alloc, *self)
    }
}

/// What a lock holds up.
fn what_value(alloc: Global, what: &Inhibited) -> Result<Value, NoMemory>
    ensures { IfOk result (λ value. value ≡ text (what_text what.now)) }
{
    let words = what.text(alloc)?;
    text(alloc, words.as_slice())
}

/// Adds who asked for a lock, why, and how it holds up.
fn push_reason(alloc: Global, out: &mut Vec<Value>, x: &Lock) -> Result<(), NoMemory>
    ensures { OnOk result (out.new.items ≡ out.old.items ++ text x.now.who ∷ text x.now.why ∷ text (mode_word x.now.mode) ∷ []) }
{
    push(out, text(alloc, x.who.as_slice())?)?;
    push(out, text(alloc, x.why.as_slice())?)?;
    push(out, text(alloc, x.mode.name())?)
}

impl Row for Lock {
    ghost fields = { lock_values };

    ghost ready = { IsLockRow };

    ghost ranged = { HasLockNumbers };

    fn fields(&self, alloc: Global) -> Result<Vec<Value>, NoMemory> {
        let mut out = alone(alloc, what_value(alloc, &self.what)?)?;
        push_reason(alloc, &mut out, self)?;
        push(&mut out, number(self.uid.0))?;
        push(&mut out, number(self.holder.0))?;
        Ok(out)
    }
}

impl Row for Input {
    ghost fields = { input_values };

    ghost ready = { λ x. Unit {0} };

    ghost ranged = { HasInputNumbers };

    fn fields(&self, alloc: Global) -> Result<Vec<Value>, NoMemory> {
        let kind = Value::basic(BasicValue::U16(self.kind));
        let code = Value::basic(BasicValue::U16(self.code));
        let value = Value::basic(BasicValue::I32(self.value));
        Ok(Vec::from_array(alloc, [kind, code, value])?)
    }
}

/// The struct of fields of these types.
fn struct_type(alloc: Global, kinds: &[Basic]) -> Result<Type, NoMemory>
    requires { 0 < length kinds.now }
    ensures { IfOk result (λ made. made ≡ struct_of (map basic_type kinds.now)) }
{
    let mut fields = Vec::new(alloc);
    for kind in kinds {
        fields.push(Type::basic(*kind))?;
    }
    Type::structure(alloc, fields)
}

/// Rows as structs.
fn structs<T: Row>(alloc: Global, rows: &[T]) -> Result<Vec<Value>, NoMemory>
    requires { AllByRecursion T.ready rows.now }
    ensures values { IfOk result (λ values. values.items ≡ map (λ x. structure (T.fields x)) rows.now) }
    ensures ranged { OnOk result (AllByRecursion T.ranged rows.now) }
{
    let mut out = Vec::new(alloc);
    for row in rows {
        out.push(Value::structure(row.fields(alloc)?))?;
    }
    Ok(out)
}

/// Rows as one array of structs, whose fields have these types.
fn array<T: Row>(alloc: Global, kinds: &[Basic], items: &[T]) -> Result<Value, NoMemory>
    requires some { 0 < length kinds.now }
    requires ready { AllByRecursion T.ready items.now }
    ensures value { IfOk result (λ value. value ≡ rows (struct_of (map basic_type kinds.now)) T.fields items.now) }
    ensures ranged { OnOk result (AllByRecursion T.ranged items.now) }
{
    let elements = structs(alloc, items)?;
    Ok(Value::array(struct_type(alloc, kinds)?, elements))
}

/// The same as the one value of a reply.
fn rows<T: Row>(alloc: Global, kinds: &[Basic], items: &[T]) -> Result<Vec<Value>, NoMemory>
    requires some { 0 < length kinds.now }
    requires ready { AllByRecursion T.ready items.now }
    ensures values { IfOk result (λ values. values.items ≡ rows (struct_of (map basic_type kinds.now)) T.fields items.now ∷ []) }
    ensures ranged { OnOk result (AllByRecursion T.ranged items.now) }
{
    alone(alloc, array(alloc, kinds, items)?)
}

/// Adds where a session that was created is found.
fn push_found(alloc: Global, out: &mut Vec<Value>, x: &Created) -> Result<(), NoMemory>
    ensures { OnOk result (out.new.items ≡ out.old.items ++ path (session_path x.now.session) ∷ text (runtime_path x.now.uid) ∷ []) }
{
    push(out, session_object(alloc, x.session)?)?;
    let directory = runtime_path(alloc, x.uid)?;
    push(out, text(alloc, directory.as_slice())?)
}

/// Adds the fifo's handle, and whose the session is.
fn push_numbers(out: &mut Vec<Value>, x: &Created) -> Result<(), NoMemory>
    ensures values { OnOk result (out.new.items ≡ out.old.items ++ number x.now.fifo.0 ∷ number x.now.uid.0 ∷ []) }
    ensures ranged { OnOk result (IsNumber x.now.fifo.0 × IsNumber x.now.uid.0) }
{
    push(out, number(x.fifo.0))?;
    push(out, number(x.uid.0))
}

/// Adds the seat and the terminal, and that the session is new.
fn push_place(alloc: Global, out: &mut Vec<Value>, x: &Created) -> Result<(), NoMemory>
    ensures values { OnOk result (out.new.items ≡ out.old.items ++ text (seat_text x.now.seat) ∷ number x.now.vt ∷ flag false ∷ []) }
    ensures ranged { OnOk result (IsNumber x.now.vt) }
{
    push(out, seat_name(alloc, x.seat)?)?;
    push(out, number(x.vt))?;
    push(out, flag(false))
}

/// A session that was created.
fn created_values(alloc: Global, x: &Created) -> Result<Vec<Value>, NoMemory>
    ensures values { IfOk result (λ values. values.items ≡ created_values x.now) }
    ensures ranged { OnOk result (HasCreatedNumbers x.now) }
{
    let mut out = alone(alloc, session_id(alloc, x.session)?)?;
    push_found(alloc, &mut out, x)?;
    push_numbers(&mut out, x)?;
    push_place(alloc, &mut out, x)?;
    Ok(out)
}

const SESSION: [Basic; 5] = [Basic::Str, Basic::U32, Basic::Str, Basic::Str, Basic::Path];

const USER: [Basic; 3] = [Basic::U32, Basic::Str, Basic::Path];

/// A text and the path of the object that it names.
const REFERENCE: [Basic; 2] = [Basic::Str, Basic::Path];

const LOCK: [Basic; 6] = [
    Basic::Str,
    Basic::Str,
    Basic::Str,
    Basic::Str,
    Basic::U32,
    Basic::U32,
];

const INPUT: [Basic; 3] = [Basic::U16, Basic::U16, Basic::I32];

/// A number of 64 bits.
fn long(number: u64) -> Value
    ensures { result ≡ basic (U64 number) }
{
    Value::basic(BasicValue::U64(number))
}

/// The value of a property.
fn property_value(alloc: Global, value: &PropertyValue) -> Result<Value, NoMemory>
    requires { CanBeValue value.now }
    ensures value { IfOk result (λ made. made ≡ property_value value.now) }
    ensures ranged { OnOk result (HasValueNumbers value.now) }
{
    match value {
        PropertyValue::Text(word) => text(alloc, word.as_slice()),
        PropertyValue::Number(n) => Ok(number(*n)),
        PropertyValue::Count(n) => Ok(long(u64::from(*n))),
        PropertyValue::Time(time) => Ok(long(time.0 * 1000)),
        PropertyValue::Flag(on) => Ok(flag(*on)),
        PropertyValue::Inhibited(what) => what_value(alloc, what),
        PropertyValue::User(uid) => Ok(Value::structure(user_reference(alloc, *uid)?)),
        PropertyValue::Seat(seat) => Ok(Value::structure(seat_or_none(alloc, seat)?)),
        PropertyValue::Session(session) => {
            Ok(Value::structure(reference_or_none(alloc, *session)?))
        }
        PropertyValue::Sessions(sessions) => array(alloc, &REFERENCE, sessions.as_slice()),
    }
}

/// The value of a property as a variant.
fn property_variant(alloc: Global, value: &PropertyValue) -> Result<Value, NoMemory>
    requires { CanBeValue value.now }
    ensures value { IfOk result (λ made. made ≡ variant (property_value value.now)) }
    ensures ranged { OnOk result (HasValueNumbers value.now) }
{
    Value::variant(alloc, property_value(alloc, value)?)
}

/// A property's name and its value.
fn property_entry(alloc: Global, row: &PropertyRow) -> Result<(BasicValue, Value), NoMemory>
    requires { CanBeValue row.now.value }
    ensures entry { IfOk result (λ entry. entry ≡ property_entry row.now) }
    ensures ranged { OnOk result (HasValueNumbers row.now.value) }
{
    let name = Word::from_slice(alloc, row.property.name())?;
    let value = property_variant(alloc, &row.value)?;
    Ok((BasicValue::Str(name), value))
}

/// Properties by their names.
fn property_entries(
    alloc: Global,
    rows: &[PropertyRow],
) -> Result<Vec<(BasicValue, Value)>, NoMemory>
    requires { AllByRecursion (λ (r : AnyRow). CanBeValue r.value) rows.now }
    ensures entries { IfOk result (λ entries. entries.items ≡ map property_entry rows.now) }
    ensures ranged { OnOk result (AllByRecursion (λ (r : AnyRow). HasValueNumbers r.value) rows.now) }
{
    let mut out = Vec::new(alloc);
    for row in rows {
        let entry = property_entry(alloc, row)?;
        out.push(entry)?;
    }
    Ok(out)
}

/// All properties of an object.
fn properties(alloc: Global, rows: &[PropertyRow]) -> Result<Vec<Value>, NoMemory>
    requires { AllByRecursion (λ (r : AnyRow). CanBeValue r.value) rows.now }
    ensures values { IfOk result (λ values. values.items ≡ dict Str variant_type (entries (map property_entry rows.now)) ∷ []) }
    ensures ranged { OnOk result (AllByRecursion (λ (r : AnyRow). HasValueNumbers r.value) rows.now) }
{
    let pairs = property_entries(alloc, rows)?;
    alone(alloc, Value::dict(Basic::Str, Type::variant(), pairs))
}

/// The unique name of a connection.
fn unique_name(alloc: Global, who: ConnId) -> Result<Value, NoMemory>
    ensures value { IfOk result (λ value. value ≡ text (unique_name who)) }
    ensures ranged { OnOk result (IsNumber who.0) }
{
    let name = numbered(alloc, b":1.", who.0)?;
    Ok(Value::basic(BasicValue::Str(Word::from_vec(name))))
}

/// The values of a reply.
#[tactic(auto, unfolding(crate::specs::Replies::answer_values))]
pub(crate) fn answer_values(alloc: Global, answer: &Answer) -> Result<Vec<Value>, NoMemory>
    requires { CanBeAnswered answer.now }
    ensures values { IfOk result (λ values. values.items ≡ answer_values answer.now) }
    ensures ranged { OnOk result (HasAnswerNumbers answer.now) }
{
    match answer {
        Answer::Nothing => Ok(Vec::new(alloc)),
        Answer::Created(x) => created_values(alloc, x.get()),
        Answer::Session(session) => alone(alloc, session_object(alloc, *session)?),
        Answer::User(uid) => alone(alloc, user_object(alloc, *uid)?),
        Answer::Seat(seat) => alone(alloc, seat_object(alloc, seat.get())?),
        Answer::Sessions(xs) => rows(alloc, &SESSION, xs.as_slice()),
        Answer::Users(xs) => rows(alloc, &USER, xs.as_slice()),
        Answer::Seats(xs) => rows(alloc, &REFERENCE, xs.as_slice()),
        Answer::Inhibitors(xs) => rows(alloc, &LOCK, xs.as_slice()),
        Answer::Can(say) => alone(alloc, text(alloc, say.name())?),
        Answer::Inputs(xs) => rows(alloc, &INPUT, xs.as_slice()),
        Answer::Handle(handle) => alone(alloc, number(handle.0)),
        Answer::Taken(handle, inactive) => pair(alloc, number(handle.0), flag(*inactive)),
        Answer::Property(value) => alone(alloc, property_variant(alloc, value)?),
        Answer::Properties(rows) => properties(alloc, rows.as_slice()),
        Answer::MachineId(guid) => alone(alloc, text(alloc, guid.as_slice())?),
        Answer::UniqueName(who) => alone(alloc, unique_name(alloc, *who)?),
    }
}
