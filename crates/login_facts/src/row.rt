// What some have, in a row.

ghost use Rattle.std.specs.Prelude.{◌≡◌, ◌+◌, ◌<◌, ◌≤◌, [], OnOk, Some, filter, length, true, false};
ghost use Rattle.std.specs.List.Sorted.{IsPartitionPoint};
ghost use Rattle.login_model.specs.Names.{insert, insert_some};
ghost use Rattle.login_model.specs.Trail.{Trail};
ghost use Rattle.login_facts.specs.Holding.{AreThose, AreTold, HoldingsAscend, Roll, holding_lt, is_in_front, is_lower, is_other, is_passed, is_such, is_within, moved, without};
ghost use Rattle.login_facts.specs.declared.holding.Holding.{Holding as AnyHolding};

use crate::holding::Holding;
use login_base::NoMemory;
use std::alloc::Global;
use std::marker::Model;

/// What some have, in order, so that what one of them has is found by halving.
#[derive(Drop)]
pub struct Row {
    row: Vec<Holding>,
}

impl Model for Row {
    ghost use Rattle.std.specs.Prelude.{◌-◌, vec_len, vec_capacity};
    ghost use Rattle.login_facts.specs.Holding.{HeldRow, HoldingsAscend};

    ghost Value = { HeldRow };

    ghost view = { λ h. record { list = h.row.items; spare = vec_capacity h.row - vec_len h.row } };

    ghost invariant = { λ h. HoldingsAscend h.row.items };
}

/// How many are below that one.
fn place_of(row: &[Holding], holding: &Holding) -> usize
    requires { HoldingsAscend row.now }
    ensures point { IsPartitionPoint (λ (x : AnyHolding). holding_lt x holding.now ≡ true) (λ (x : AnyHolding). holding_lt x holding.now ≡ false) row.now result }
    ensures bound { result ≤ length row.now }
{
    row.partition_point(
        |other: &Holding| -> bool
            ensures { result ≡ holding_lt other.now holding.entry.now }
        { other.is_below(holding) },
    )
}

/// How many are in front of what somebody has of a kind above a number.
fn passed(row: &[Holding], whose: u32, rank: u8, above: Option<u32>) -> usize
    requires { HoldingsAscend row.now }
    ensures point { IsPartitionPoint (λ (x : AnyHolding). is_passed whose rank above x ≡ true) (λ (x : AnyHolding). is_passed whose rank above x ≡ false) row.now result }
    ensures bound { result ≤ length row.now }
{
    row.partition_point(
        |other: &Holding| -> bool
            ensures { result ≡ is_passed whose rank above other.now }
        { other.is_passed(whose, rank, above) },
    )
}

/// How many are not behind all that somebody has of a kind.
fn within(row: &[Holding], whose: u32, rank: u8) -> usize
    requires { HoldingsAscend row.now }
    ensures point { IsPartitionPoint (λ (x : AnyHolding). is_within whose rank x ≡ true) (λ (x : AnyHolding). is_within whose rank x ≡ false) row.now result }
    ensures bound { result ≤ length row.now }
{
    row.partition_point(
        |other: &Holding| -> bool
            ensures { result ≡ is_within whose rank other.now }
        { other.is_within(whose, rank) },
    )
}

/// What somebody has of a kind above a number, in order.
fn such(row: &[Holding], whose: u32, rank: u8, above: Option<u32>) -> &[Holding]
    requires { HoldingsAscend row.now }
    ensures { result.now ≡ filter (is_such whose rank above) row.now }
{
    let from = passed(row, whose, rank, above);
    let to = within(row, whose, rank);
    &row[from..to]
}

/// What somebody has of a kind below a number, in order.
fn lower(row: &[Holding], whose: u32, rank: u8, below: u32) -> &[Holding]
    requires { HoldingsAscend row.now }
    ensures { result.now ≡ filter (is_lower whose rank (Some below)) row.now }
{
    let from = passed(row, whose, rank, None);
    let to = row.partition_point(
        |other: &Holding| -> bool
            ensures { result ≡ is_in_front whose rank below other.now }
        { other.is_in_front(whose, rank, below) },
    );
    &row[from..to]
}

impl Row {
    /// Nobody has anything. It takes no memory.
    pub fn new(alloc: Global) -> Row
        ensures { result.list ≡ [] }
    {
        Row {
            row: Vec::new(alloc),
        }
    }

    /// Makes room for so many more.
    pub fn reserve(&mut self, more: usize) -> Result<(), NoMemory>
        ensures ok { OnOk result (more ≤ self.new.spare) }
        ensures list { self.new.list ≡ self.old.list }
        ensures spare { self.old.spare ≤ self.new.spare }
    {
        self.row.reserve(more)?;
        Ok(())
    }

    /// Puts one in. It takes no memory.
    fn insert(&mut self, holding: Holding)
        requires { 0 < self.old.spare }
        ensures list { self.new.list ≡ insert holding_lt holding self.old.list }
        ensures spare { self.old.spare ≤ self.new.spare + 1 }
    {
        let at = place_of(self.row.as_slice(), &holding);
        if at < self.row.len() && !holding.is_below(&self.row[at]) {
            return;
        }
        match self.row.insert(at, holding) {
            Ok(()) => {}
            Err(_) => unreachable!(),
        }
    }

    /// Takes one out, if it is there.
    fn remove(&mut self, holding: Holding)
        ensures list { self.new.list ≡ filter (is_other holding) self.old.list }
        ensures spare { self.old.spare ≤ self.new.spare }
    {
        let at = place_of(self.row.as_slice(), &holding);
        if at < self.row.len() && !holding.is_below(&self.row[at]) {
            self.row.remove(at);
        }
    }

    /// What is lost is taken out.
    fn lose(&mut self, lost: Option<Holding>)
        ensures list { self.new.list ≡ without lost self.old.list }
        ensures spare { self.old.spare ≤ self.new.spare }
    {
        if let Some(holding) = lost {
            self.remove(holding);
        }
    }

    /// What is gained is put in. It takes no memory.
    fn gain(&mut self, gained: Option<Holding>)
        requires { 0 < self.old.spare }
        ensures list { self.new.list ≡ insert_some holding_lt gained self.old.list }
        ensures spare { self.old.spare ≤ self.new.spare + 1 }
    {
        if let Some(holding) = gained {
            self.insert(holding);
        }
    }

    /// What is lost is taken out, and what is gained put in. It takes no memory.
    pub fn shift(&mut self, lost: Option<Holding>, gained: Option<Holding>)
        requires { 0 < self.old.spare }
        ensures list { self.new.list ≡ moved lost gained self.old.list }
        ensures spare { self.old.spare ≤ self.new.spare + 1 }
    {
        self.lose(lost);
        self.gain(gained);
    }

    /// What somebody has of a kind above a number, in order. It is found by halving.
    pub fn such(&self, whose: u32, rank: u8, above: Option<u32>) -> &[Holding]
        ensures { (r : Roll) (t : Trail) → AreTold r self.now.list t → AreThose r (is_such whose rank above) t result.now }
    {
        such(self.row.as_slice(), whose, rank, above)
    }

    /// What somebody has of a kind below a number, or below none, in order. It is found by halving.
    pub fn lower(&self, whose: u32, rank: u8, below: Option<u32>) -> &[Holding]
        ensures { (r : Roll) (t : Trail) → AreTold r self.now.list t → AreThose r (is_lower whose rank below) t result.now }
    {
        match below {
            None => such(self.row.as_slice(), whose, rank, None),
            Some(below) => lower(self.row.as_slice(), whose, rank, below),
        }
    }
}
