// Rows in an order that is kept beside them.

ghost use Rattle.std.specs.Prelude.{◌≡◌, ◌+◌, ◌<◌, ◌≤◌, [], ◌∷◌, ◌++◌, MatchOption, OnOk, drop, false, length, slice_index_or, take, true, vec_capacity};
ghost use Rattle.login_model.specs.Start.{start_fact};
ghost use Rattle.login_model.specs.Trail.{value};
ghost use Rattle.login_table.specs.KeyOrder.{key_lt};
ghost use Rattle.login_table.specs.Rows.{Ascend, as_trail};
ghost use Rattle.login_table.specs.inner.Fronts.{IsFront};
ghost use Rattle.login_table.specs.inner.Ordered.{in_order, is_row_of, row_at, with_fact};
ghost use Rattle.login_table.specs.declared.rows.Row.{Row as AnyRow};

use crate::key_order::{is_key_below, numbered};
use crate::rows::Row;
use login_base::NoMemory;
use login_model::{Fact, Key, is_same_key};
use std::alloc::Global;
use std::marker::Model;

/// How many rows there can be, since a place is a `u32`.
const MOST_ROWS: usize = 0x1_0000_0000;

/// Rows in an order. They stand as they came and are never moved; beside them are their places, in their order. A row
/// takes 304 bytes and a place 4, so a row that comes between others moves little.
#[derive(Drop)]
pub(crate) struct Ordered {
    rows: Vec<Row>,
    order: Vec<u32>,
}

impl Model for Ordered {
    ghost use Rattle.std.specs.Prelude.{◌≡◌, length, min, vec_capacity};
    ghost use Rattle.login_table.specs.inner.Ordered.{PlacesApart, RowOrder, in_order};
    ghost use Rattle.login_table.specs.declared.ordered.TheConstants.{MOST_ROWS};

    ghost Value = { RowOrder };

    ghost view = { λ r. record { items = in_order r.rows.items r.order.items; room = min (min (vec_capacity r.rows) (vec_capacity r.order)) MOST_ROWS } };

    ghost invariant = { λ r. (length r.order.items ≡ length r.rows.items) × PlacesApart (length r.rows.items) r.order.items };
}

/// Makes room for so many more. It takes what is asked for and an eighth of what stands, so that a list that grows by
/// one at a time is seldom copied.
fn make_room<T>(list: &mut Vec<T>, more: usize) -> Result<(), NoMemory>
    ensures items { list.new.items ≡ list.old.items }
    ensures capacity { vec_capacity list.old ≤ vec_capacity list.new }
    ensures ok { OnOk result (length list.new.items + more ≤ vec_capacity list.new) }
{
    if list.capacity() - list.len() < more {
        list.reserve_exact(more.saturating_add(list.len() / 8))?;
    }
    Ok(())
}

/// Whether the row at a place is below a key. Where there is no row, a key stands for it all the same.
fn is_row_below(rows: &[Row], place: u32, key: &Key) -> bool
    ensures { result ≡ key_lt (row_at rows.now place).key key.now }
{
    match rows.get(place as usize) {
        Some(row) => is_key_below(&row.key, key),
        None => is_key_below(&Key::Vt, key),
    }
}

/// How many rows are below a key, by halving.
fn count_below(rows: &[Row], order: &[u32], key: &Key) -> usize
    requires { Ascend (in_order rows.now order.now) }
    ensures front { IsFront (λ (x : AnyRow). key_lt x.key key.now) result (in_order rows.now order.now) }
    ensures bound { result ≤ length order.now }
{
    order.partition_point(
        |place: &u32| -> bool
            ensures { result ≡ key_lt (row_at rows.entry.now place.now).key key.entry.now }
        { is_row_below(rows, *place, key) },
    )
}

impl Ordered {
    /// No rows. It takes no memory.
    pub(crate) fn new(alloc: Global) -> Ordered
        ensures { result.items ≡ [] }
    {
        Ordered {
            rows: Vec::new(alloc),
            order: Vec::new(alloc),
        }
    }

    /// Makes room for so many more rows.
    pub(crate) fn reserve(&mut self, more: usize) -> Result<(), NoMemory>
        ensures ok { OnOk result (length self.new.items + more ≤ self.new.room) }
        ensures items { self.new.items ≡ self.old.items }
        ensures room { self.old.room ≤ self.new.room }
    {
        if self.rows.len().saturating_add(more) > MOST_ROWS {
            return Err(NoMemory);
        }
        make_room(&mut self.rows, more)?;
        make_room(&mut self.order, more)?;
        Ok(())
    }

    /// For how many rows there is room in all.
    pub(crate) fn room(&self) -> usize
        ensures { result ≡ self.now.room }
    {
        self.rows
            .capacity()
            .min(self.order.capacity())
            .min(MOST_ROWS)
    }

    /// The row that has so many in front of it.
    pub(crate) fn get(&self, at: usize) -> Option<&Row>
        ensures { MatchOption result (length self.now.items ≤ at) (λ row. (at < length self.now.items) × ((d : AnyRow) → slice_index_or self.now.items at d ≡ row.now)) }
    {
        let place = self.order.get(at)?;
        Some(&self.rows[*place as usize])
    }

    /// The row that has so many in front of it, if it is that key's.
    fn row_of(&self, at: usize, key: &Key) -> Option<&Row>
        ensures { MatchOption result (is_row_of key.now at self.now.items ≡ false) (λ row. (is_row_of key.now at self.now.items ≡ true) × ((d : AnyRow) → slice_index_or self.now.items at d ≡ row.now)) }
    {
        let row = self.get(at)?;
        if is_same_key(&row.key, key) {
            Some(row)
        } else {
            None
        }
    }

    /// Whether the row that has so many in front of it is that key's.
    pub(crate) fn is_row_of(&self, at: usize, key: &Key) -> bool
        ensures { result ≡ is_row_of key.now at self.now.items }
    {
        self.row_of(at, key).is_some()
    }

    /// Where the row of a key stands if its number is as far from that of the first row as there are rows between, as
    /// it is where numbers grow by one. No promise is made of it.
    fn guess(&self, key: &Key) -> usize {
        match self.get(0) {
            Some(row) => numbered(key).wrapping_sub(numbered(&row.key)) as usize,
            None => 0,
        }
    }

    /// How many rows are below a key. It is found by halving, where it is not guessed. There are never as many as could
    /// be counted.
    pub(crate) fn place(&self, key: &Key) -> usize
        requires { Ascend self.now.items }
        ensures front { IsFront (λ (x : AnyRow). key_lt x.key key.now) result self.now.items }
        ensures bound { result ≤ length self.now.items }
        ensures few { length self.now.items < usize.MAX }
    {
        let order = self.order.as_slice();
        let guess = self.guess(key);
        if self.is_row_of(guess, key) {
            return guess;
        }
        count_below(self.rows.as_slice(), order, key)
    }

    /// The row of a key. It is found by halving, where it is not guessed.
    pub(crate) fn find(&self, key: &Key) -> Option<&Row>
        requires { Ascend self.now.items }
        ensures { MatchOption result (value (as_trail self.now.items) key.now ≡ start_fact key.now) (λ row. value (as_trail self.now.items) key.now ≡ row.now.fact) }
    {
        match self.row_of(self.guess(key), key) {
            Some(row) => Some(row),
            None => self.row_of(
                count_below(self.rows.as_slice(), self.order.as_slice(), key),
                key,
            ),
        }
    }

    /// Exchanges the fact of the row that has so many in front of it.
    pub(crate) fn exchange(&mut self, at: usize, fact: Fact)
        requires { at < length self.old.items }
        ensures items { self.new.items ≡ with_fact at fact self.old.items }
        ensures room { self.new.room ≡ self.old.room }
    {
        let place = self.order[at] as usize;
        self.rows[place].fact = fact;
    }

    /// Puts a row in, with so many in front of it. It takes no memory, and moves none.
    pub(crate) fn insert(&mut self, at: usize, row: Row)
        requires place { at ≤ length self.old.items }
        requires room { length self.old.items < self.old.room }
        ensures items { self.new.items ≡ take at self.old.items ++ row ∷ drop at self.old.items }
        ensures room { self.old.room ≤ self.new.room }
    {
        let place = self.rows.len() as u32;
        match self.order.insert(at, place) {
            Ok(()) => {}
            Err(_) => unreachable!(),
        }
        match self.rows.push(row) {
            Ok(()) => {}
            Err(_) => unreachable!(),
        }
    }
}
