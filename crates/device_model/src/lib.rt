//! The devices, with their modes, and what handles hear of them (org.freedesktop.login1(5), "Session
//! Objects"; struct input_event of Linux).
#![tactic(auto)]

ghost use Rattle.std.specs.Prelude.{◌≡◌, ◌==◌, ◌+◌, ◌<◌, ◌≤◌, if◌then◌else◌, [], ◌∷◌, IsSome, List, None, OnOk, Some, false, is_some, length, not, option_map};
ghost use Rattle.device_model.specs.Ears.{AreOnce, heard_of, hears};
ghost use Rattle.login_table.specs.Home.{is_home};
ghost use Rattle.login_table.specs.declared.home.Home.TheVariants.{Devices};
ghost use Rattle.login_base.specs.declared.ids.DevNo.{DevNo as AnyDevice};
ghost use Rattle.login_base.specs.declared.ids.HandleNo.{HandleNo as AnyHandle};
ghost use Rattle.login_model.specs.Trail.{Trail, value, was_set};
ghost use Rattle.login_model.specs.declared.answer.Input.{Input as AnyInput};
ghost use Rattle.login_model.specs.declared.fact.Key.{Key as AnyKey};
ghost use Rattle.login_model.specs.declared.mark.Mark.TheVariants.{Set};
ghost use Rattle.login_table.specs.Stands.{Stands};

mod ears;

use crate::ears::Ears;
pub use ears::Ear;
use login_base::{DevNo, HandleNo, NoMemory};
use login_model::{Fact, Input, Inputs, Key};
use login_table::{Home, Rows, Table};
use std::alloc::Global;
use std::marker::Model;

/// Which devices are there, of which kind and on which seat, and their modes. Beside these facts stand the
/// handles that listen to devices: each has a ring, which keeps the last 64 inputs that it has heard.
#[derive(Drop)]
pub struct DeviceModel {
    rows: Rows,
    ears: Ears,
}

impl Model for DeviceModel {
    ghost use Rattle.device_model.specs.Ears.{DeviceList};

    ghost Value = { DeviceList };

    ghost view = { λ t. record { trail = t.rows.trail; spare = t.rows.spare; ears = t.ears.ears; rings = t.ears.rings } };
}

impl Table for DeviceModel {
    ghost owns = { is_home Devices };

    ghost list = { λ t. record { trail = t.trail; spare = t.spare } };

    fn is_own(key: &Key) -> bool {
        Home::Devices.has(key)
    }

    fn new(alloc: Global) -> DeviceModel
        ensures stands { Stands (is_home Devices) result.trail [] }
        ensures none { result.trail ≡ [] }
        ensures ears { result.ears ≡ [] }
        ensures rings { result.rings ≡ 0 }
    {
        DeviceModel {
            rows: Rows::new(alloc),
            ears: Ears::new(alloc),
        }
    }

    fn part(&self, _kind: u8) -> &Rows {
        &self.rows
    }

    fn room(&mut self, keys: usize) -> Result<(), NoMemory>
        ensures ok { OnOk result (keys ≤ self.new.spare) }
        ensures same { self.new.trail ≡ self.old.trail }
        ensures spare { self.old.spare ≤ self.new.spare }
        ensures ears { self.new.ears ≡ self.old.ears }
        ensures rings { self.new.rings ≡ self.old.rings }
    {
        self.rows.reserve(keys)
    }

    fn set(&mut self, key: Key, fact: Fact) -> bool
        requires { was_set self.old.trail key ≡ false → 0 < self.old.spare }
        ensures new_key { result ≡ not (was_set self.old.trail key) }
        ensures facts { (k : AnyKey) → value self.new.trail k ≡ value (Set key fact ∷ self.old.trail) k }
        ensures keys { (k : AnyKey) → was_set self.new.trail k ≡ was_set (Set key fact ∷ self.old.trail) k }
        ensures spare { self.old.spare ≤ self.new.spare + (if result then 1 else 0) }
        ensures ears { self.new.ears ≡ self.old.ears }
        ensures rings { self.new.rings ≡ self.old.rings }
    {
        self.rows.set(key, fact)
    }

    fn apply(&mut self, key: Key, fact: Fact)
        requires { was_set self.old.trail key ≡ false → 0 < self.old.spare }
        ensures stands { (t : Trail) → Stands (is_home Devices) self.old.trail t → Stands (is_home Devices) self.new.trail (Set key fact ∷ t) }
        ensures other { is_home Devices key ≡ false → self.new ≡ self.old }
        ensures spare { self.old.spare ≤ self.new.spare + 1 }
        ensures ears { self.new.ears ≡ self.old.ears }
        ensures rings { self.new.rings ≡ self.old.rings }
    {
        if Home::Devices.has(&key) {
            self.set(key, fact);
        }
    }
}

impl DeviceModel {
    /// Makes at least so many spare rings, each for 64 inputs.
    pub fn rings(&mut self, rings: usize) -> Result<(), NoMemory>
        ensures ok { OnOk result (rings ≤ self.new.rings) }
        ensures rings { self.old.rings ≤ self.new.rings }
        ensures ears { self.new.ears ≡ self.old.ears }
        ensures trail { self.new.trail ≡ self.old.trail }
        ensures spare { self.new.spare ≡ self.old.spare }
    {
        self.ears.make(rings)
    }

    /// A handle begins to listen to a device, with an empty ring. It takes no memory.
    pub fn listen(&mut self, handle: HandleNo, device: DevNo)
        requires spare { 0 < self.old.rings }
        requires deaf { heard_of self.old.ears handle ≡ None }
        ensures own { heard_of self.new.ears handle ≡ Some (device, []) }
        ensures others { (g : AnyHandle) → (g.0 == handle.0) ≡ false → heard_of self.new.ears g ≡ heard_of self.old.ears g }
        ensures rings { self.new.rings + 1 ≡ self.old.rings }
        ensures count { length self.new.ears ≡ length self.old.ears + 1 }
        ensures trail { self.new.trail ≡ self.old.trail }
        ensures spare { self.new.spare ≡ self.old.spare }
    {
        self.ears.listen(handle, device);
    }

    /// A handle listens no more, and its ring is spare again. It takes no memory.
    pub fn deaf(&mut self, handle: HandleNo)
        requires { IsSome (heard_of self.old.ears handle) }
        ensures own { heard_of self.new.ears handle ≡ None }
        ensures others { (g : AnyHandle) → (g.0 == handle.0) ≡ false → heard_of self.new.ears g ≡ heard_of self.old.ears g }
        ensures rings { self.new.rings ≡ self.old.rings + 1 }
        ensures count { length self.new.ears + 1 ≡ length self.old.ears }
        ensures trail { self.new.trail ≡ self.old.trail }
        ensures spare { self.new.spare ≡ self.old.spare }
    {
        self.ears.deaf(handle);
    }

    /// Whether a handle listens. It takes no memory.
    pub fn listens(&self, handle: HandleNo) -> bool
        ensures value { result ≡ is_some (heard_of self.now.ears handle) }
        ensures once { AreOnce self.now.ears }
    {
        self.ears.listens(handle)
    }

    /// How many handles listen. It takes no memory.
    pub fn listening(&self) -> usize
        ensures { result ≡ length self.now.ears }
    {
        self.ears.listening()
    }

    /// Each handle that listens to a device gets an input of it; of more than 64 the last ones stay. It takes no
    /// memory.
    pub fn input(&mut self, device: DevNo, kind: u16, code: u16, value: i32)
        ensures heard { (h : AnyHandle) → heard_of self.new.ears h ≡ option_map (hears device (record { kind = kind; code = code; value = value })) (heard_of self.old.ears h) }
        ensures rings { self.new.rings ≡ self.old.rings }
        ensures count { length self.new.ears ≡ length self.old.ears }
        ensures trail { self.new.trail ≡ self.old.trail }
        ensures spare { self.new.spare ≡ self.old.spare }
    {
        self.ears.hear(device, Input { kind, code, value });
    }

    /// What a handle has heard since it began to listen or was last drained, the oldest first.
    pub fn heard(&self, handle: HandleNo) -> &[Input]
        requires { IsSome (heard_of self.now.ears handle) }
        ensures { (d : AnyDevice) (xs : List AnyInput) → heard_of self.now.ears handle ≡ Some (d, xs) → result.now ≡ xs }
    {
        self.ears.heard(handle)
    }

    /// Gives what a handle has heard, which has then heard nothing. It takes no memory.
    pub fn drain(&mut self, handle: HandleNo, out: &mut Inputs)
        requires { IsSome (heard_of self.old.ears handle) }
        ensures out { (d : AnyDevice) (xs : List AnyInput) → heard_of self.old.ears handle ≡ Some (d, xs) → (out.new ≡ xs) × (heard_of self.new.ears handle ≡ Some (d, [])) }
        ensures others { (g : AnyHandle) → (g.0 == handle.0) ≡ false → heard_of self.new.ears g ≡ heard_of self.old.ears g }
        ensures rings { self.new.rings ≡ self.old.rings }
        ensures count { length self.new.ears ≡ length self.old.ears }
        ensures trail { self.new.trail ≡ self.old.trail }
        ensures spare { self.new.spare ≡ self.old.spare }
    {
        self.ears.drain(handle, out);
    }
}
