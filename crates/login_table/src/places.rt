// The places of rows, in order, each once.

ghost use Rattle.std.specs.Prelude.{◌≡◌, ◌+◌, ◌-◌, ◌^◌, ◌<◌, ◌≤◌, [], MatchOption, None, OnOk, Some, drop, false, length, map, nat_lt, not, suc, true};
ghost use Rattle.login_model.specs.Devices.{taken_in};
ghost use Rattle.login_model.specs.Names.{IsNext, device_lt, session_lt};
ghost use Rattle.login_model.specs.declared.fact.Key.{Key as AnyKey};
ghost use Rattle.login_table.specs.KeyOrder.{key_lt, rank_of};
ghost use Rattle.login_table.specs.inner.Keys.{KeysAscend, first_named, has, holder_in, is_holder, is_holder_passed, is_passed, is_taken_passed};
ghost use Rattle.login_table.specs.inner.Places.{PlacesAscend, key_at, key_or, keys_at, put_place, raised};
ghost use Rattle.login_table.specs.Listed.{first};
ghost use Rattle.login_table.specs.inner.Fronts.{IsFront};

use crate::key_order::{TAKES, is_key_below, rank_of};
use crate::name::{Name, is_above};
use crate::ordered::Ordered;
use login_base::{DevNo, NoMemory, SessId};
use login_model::{Key, is_same_key};
use std::alloc::Global;
use std::marker::Model;

/// The places of rows, in order, each once. A place takes 8 bytes, where a row's key takes 272.
#[derive(Drop)]
pub(crate) struct Places {
    places: Vec<usize>,
}

impl Model for Places {
    ghost use Rattle.std.specs.Prelude.{vec_capacity};
    ghost use Rattle.login_table.specs.inner.Places.{PlaceList};

    ghost Value = { PlaceList };

    ghost view = { λ s. record { list = s.places.items; room = vec_capacity s.places } };
}

/// The key of the row at a place, or that other one where there is no row.
fn key_or<'a>(rows: &'a Ordered, place: usize, other: &'a Key) -> &'a Key
    ensures { result.now ≡ key_or rows.now.items place other.now }
{
    match rows.get(place) {
        Some(row) => &row.key,
        None => other,
    }
}

/// The first key from so many on. The other one stands for what no place names; a body can not make a reference to one
/// that it gives out, so it comes from the caller.
fn first_key<'a>(
    rows: &'a Ordered,
    places: &[usize],
    from: usize,
    other: &'a Key,
) -> Option<&'a Key>
    requires { other.now ≡ Key.Vt }
    ensures { MatchOption result (first (drop from (keys_at rows.now.items places.now)) ≡ None) (λ key. first (drop from (keys_at rows.now.items places.now)) ≡ Some key.now) }
{
    let place = places.get(from)?;
    Some(key_or(rows, *place, other))
}

/// How many keys are below that one.
fn place(rows: &Ordered, places: &[usize], key: &Key) -> usize
    requires { KeysAscend (keys_at rows.now.items places.now) }
    ensures front { IsFront (λ (x : AnyKey). key_lt x key.now) result (keys_at rows.now.items places.now) }
    ensures bound { result ≤ length places.now }
{
    places.partition_point(
        |place: &usize| -> bool
            ensures { result ≡ key_lt (key_at rows.entry.now.items place.now) key.entry.now }
        { is_key_below(key_or(rows, *place, &Key::Vt), key) },
    )
}

/// How many keys are not above that one.
fn place_behind(rows: &Ordered, places: &[usize], key: &Key) -> usize
    requires { KeysAscend (keys_at rows.now.items places.now) }
    ensures front { IsFront (λ (x : AnyKey). not (key_lt key.now x)) result (keys_at rows.now.items places.now) }
    ensures bound { result ≤ length places.now }
{
    places.partition_point(
        |place: &usize| -> bool
            ensures { result ≡ not (key_lt key.entry.now (key_at rows.entry.now.items place.now)) }
        { !is_key_below(key, key_or(rows, *place, &Key::Vt)) },
    )
}

/// How many keys are of a lower rank.
fn place_of_rank(rows: &Ordered, places: &[usize], rank: u8) -> usize
    requires { KeysAscend (keys_at rows.now.items places.now) }
    ensures front { IsFront (λ (x : AnyKey). nat_lt (rank_of x) rank) result (keys_at rows.now.items places.now) }
    ensures bound { result ≤ length places.now }
{
    places.partition_point(
        |place: &usize| -> bool
            ensures { result ≡ nat_lt (rank_of (key_at rows.entry.now.items place.now)) rank }
        { rank_of(key_or(rows, *place, &Key::Vt)) < rank },
    )
}

/// How many keys are in front of those of the names above that one.
fn place_above<N: Name>(rows: &Ordered, places: &[usize], above: Option<N>) -> usize
    requires { KeysAscend (keys_at rows.now.items places.now) }
    ensures front { IsFront (is_passed N.key_of N.rank above) result (keys_at rows.now.items places.now) }
    ensures bound { result ≤ length places.now }
{
    match above {
        Some(name) => place_behind(rows, places, &name.key()),
        None => place_of_rank(rows, places, N::rank()),
    }
}

/// How many keys are in front of those of the devices above that one that a session has taken.
fn place_taken(rows: &Ordered, places: &[usize], session: SessId, above: Option<DevNo>) -> usize
    requires { KeysAscend (keys_at rows.now.items places.now) }
    ensures front { IsFront (is_taken_passed session above) result (keys_at rows.now.items places.now) }
    ensures bound { result ≤ length places.now }
{
    match above {
        Some(device) => place_behind(rows, places, &Key::Taken(session, device)),
        None => place(
            rows,
            places,
            &Key::Taken(session, DevNo { major: 0, minor: 0 }),
        ),
    }
}

/// The device of a key about what a session has taken.
fn taken_in(session: SessId, key: &Key) -> Option<DevNo>
    ensures { result ≡ taken_in session key.now }
{
    match key {
        Key::Taken(other, device) => {
            if other.0 == session.0 {
                Some(*device)
            } else {
                None
            }
        }
        _ => None,
    }
}

/// The least device above that one that a session has taken.
fn next_taken(
    rows: &Ordered,
    places: &[usize],
    session: SessId,
    above: Option<DevNo>,
) -> Option<DevNo>
    requires { KeysAscend (keys_at rows.now.items places.now) }
    ensures { IsNext device_lt (λ d. has (Key.Taken session d) (keys_at rows.now.items places.now)) above result }
{
    let from = place_taken(rows, places, session, above);
    taken_in(session, first_key(rows, places, from, &Key::Vt)?)
}

/// The session of a key about what one has taken.
fn holder_in(key: &Key) -> Option<SessId>
    ensures { result ≡ holder_in key.now }
{
    match key {
        Key::Taken(session, _) => Some(*session),
        _ => None,
    }
}

/// Whether a walk on from a session leaves a key out.
fn is_holder_passed(above: Option<SessId>, key: &Key) -> bool
    ensures { result ≡ is_holder_passed above key.now }
{
    match key {
        Key::Taken(session, _) => !is_above(above, *session),
        _ => rank_of(key) < TAKES,
    }
}

/// How many keys are in front of those of what the sessions above that one have taken.
fn place_of_holder(rows: &Ordered, places: &[usize], above: Option<SessId>) -> usize
    requires { KeysAscend (keys_at rows.now.items places.now) }
    ensures front { IsFront (is_holder_passed above) result (keys_at rows.now.items places.now) }
    ensures bound { result ≤ length places.now }
{
    places.partition_point(
        |place: &usize| -> bool
            ensures { result ≡ is_holder_passed above (key_at rows.entry.now.items place.now) }
        { is_holder_passed(above, key_or(rows, *place, &Key::Vt)) },
    )
}

/// The least session above that one that has anything taken.
fn next_holder(rows: &Ordered, places: &[usize], above: Option<SessId>) -> Option<SessId>
    requires { KeysAscend (keys_at rows.now.items places.now) }
    ensures { IsNext session_lt (λ s. is_holder s (keys_at rows.now.items places.now)) above result }
{
    let from = place_of_holder(rows, places, above);
    holder_in(first_key(rows, places, from, &Key::Vt)?)
}

/// Whether a key is there. It is found by halving.
fn has(rows: &Ordered, places: &[usize], key: &Key) -> bool
    requires { KeysAscend (keys_at rows.now.items places.now) }
    ensures { result ≡ has key.now (keys_at rows.now.items places.now) }
{
    match first_key(rows, places, place(rows, places, key), &Key::Vt) {
        Some(found) => is_same_key(found, key),
        None => false,
    }
}

/// The least session above that one that has a device taken. It goes from one that has anything taken to the next.
fn next_taker(
    rows: &Ordered,
    places: &[usize],
    device: DevNo,
    above: Option<SessId>,
) -> Option<SessId>
    requires { KeysAscend (keys_at rows.now.items places.now) }
    ensures { IsNext session_lt (λ s. has (Key.Taken s device) (keys_at rows.now.items places.now)) above result }
{
    let mut from = above;
    while let Some(session) = next_holder(rows, places, from) {
        if has(rows, places, &Key::Taken(session, device)) {
            return Some(session);
        }
        from = Some(session);
    }
    None
}

/// The first name that a key is about. It goes no further than the keys of its kind.
fn first_named<N: Name>(rows: &Ordered, places: &[usize]) -> Option<N>
    requires { KeysAscend (keys_at rows.now.items places.now) }
    ensures { result ≡ first_named N.name_in (keys_at rows.now.items places.now) }
{
    let none = Key::Vt;
    for place in places {
        let key = key_or(rows, *place, &none);
        if rank_of(key) > N::rank() {
            return None;
        }
        let name = N::in_key(key);
        if name.is_some() {
            return name;
        }
    }
    None
}

/// How many places are below that one.
fn count_below(places: &[usize], at: usize) -> usize
    requires { PlacesAscend (2 ^ 64 - 1) places.now }
    ensures front { IsFront (λ p. nat_lt p at) result places.now }
    ensures bound { result ≤ length places.now }
{
    places.partition_point(
        |place: &usize| -> bool
            ensures { result ≡ nat_lt place.now at }
        { *place < at },
    )
}

/// Raises each place by one.
fn raise_each(places: &mut [usize])
    requires { PlacesAscend (2 ^ 64 - 1) places.old }
    ensures { places.new ≡ map suc places.old }
{
    for place in places.iter_mut() {
        *place += 1;
    }
}

impl Places {
    /// No places. It takes no memory.
    pub(crate) fn new(alloc: Global) -> Places
        ensures { result.list ≡ [] }
    {
        Places {
            places: Vec::new(alloc),
        }
    }

    /// Makes room for so many places in all.
    pub(crate) fn reserve(&mut self, places: usize) -> Result<(), NoMemory>
        ensures ok { OnOk result (places ≤ self.new.room) }
        ensures list { self.new.list ≡ self.old.list }
        ensures room { self.old.room ≤ self.new.room }
    {
        let more = places.saturating_sub(self.places.len());
        self.places.reserve_exact(more)?;
        Ok(())
    }

    /// Raises the places behind a row that is put in. One that comes last raises none.
    pub(crate) fn raise(&mut self, at: usize)
        requires { PlacesAscend (2 ^ 64 - 1) self.old.list }
        ensures list { self.new.list ≡ raised at self.old.list }
        ensures room { self.new.room ≡ self.old.room }
    {
        let from = count_below(self.places.as_slice(), at);
        raise_each(&mut self.places[from..]);
    }

    /// Puts a place in. It takes no memory.
    fn insert(&mut self, at: usize)
        requires ascend { PlacesAscend (2 ^ 64 - 1) self.old.list }
        requires room { length (put_place at true self.old.list) ≤ self.old.room }
        ensures list { self.new.list ≡ put_place at true self.old.list }
        ensures room { self.old.room ≤ self.new.room }
    {
        if let Err(from) = self.places.binary_search(&at) {
            match self.places.insert(from, at) {
                Ok(()) => {}
                Err(_) => unreachable!(),
            }
        }
    }

    /// Takes a place out, if it is there.
    fn remove(&mut self, at: usize)
        requires { PlacesAscend (2 ^ 64 - 1) self.old.list }
        ensures list { self.new.list ≡ put_place at false self.old.list }
        ensures room { self.old.room ≤ self.new.room }
    {
        if let Ok(from) = self.places.binary_search(&at) {
            self.places.remove(from);
        }
    }

    /// Puts a place in or takes it out. It takes no memory.
    pub(crate) fn put(&mut self, at: usize, is_in: bool)
        requires ascend { PlacesAscend (2 ^ 64 - 1) self.old.list }
        requires room { length (put_place at is_in self.old.list) ≤ self.old.room }
        ensures list { self.new.list ≡ put_place at is_in self.old.list }
        ensures room { self.old.room ≤ self.new.room }
    {
        if is_in {
            self.insert(at);
        } else {
            self.remove(at);
        }
    }

    /// The least name above that one whose key is there.
    pub(crate) fn next<N: Name>(&self, rows: &Ordered, above: Option<N>) -> Option<N>
        requires { KeysAscend (keys_at rows.now.items self.now.list) }
        ensures { IsNext N.lt (λ a. has (N.key_of a) (keys_at rows.now.items self.now.list)) above result }
    {
        let places = self.places.as_slice();
        first_named(rows, &places[place_above(rows, places, above)..])
    }

    /// The least device above that one whose key is there with the session.
    pub(crate) fn next_taken(
        &self,
        rows: &Ordered,
        session: SessId,
        above: Option<DevNo>,
    ) -> Option<DevNo>
        requires { KeysAscend (keys_at rows.now.items self.now.list) }
        ensures { IsNext device_lt (λ d. has (Key.Taken session d) (keys_at rows.now.items self.now.list)) above result }
    {
        next_taken(rows, self.places.as_slice(), session, above)
    }

    /// The least session above that one whose key is there with the device.
    pub(crate) fn next_taker(
        &self,
        rows: &Ordered,
        device: DevNo,
        above: Option<SessId>,
    ) -> Option<SessId>
        requires { KeysAscend (keys_at rows.now.items self.now.list) }
        ensures { IsNext session_lt (λ s. has (Key.Taken s device) (keys_at rows.now.items self.now.list)) above result }
    {
        next_taker(rows, self.places.as_slice(), device, above)
    }
}
