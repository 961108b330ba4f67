// What handles hear of their devices.

ghost use Rattle.std.specs.Prelude.{◌≡◌, ◌==◌, ◌+◌, ◌<◌, ◌≤◌, [], IsSome, List, None, OnOk, Some, false, is_some, length, map, option_map, position, vec_capacity, vec_len};
ghost use Rattle.device_model.specs.Ears.{AreOnce, heard_of, hears, is_ear_of};
ghost use Rattle.device_model.specs.inner.Ears.{hear_ear};
ghost use Rattle.login_base.specs.declared.ids.DevNo.{DevNo as AnyDevice};
ghost use Rattle.login_base.specs.declared.ids.HandleNo.{HandleNo as AnyHandle};
ghost use Rattle.login_model.specs.Same.{same_device};
ghost use Rattle.login_model.specs.declared.answer.Input.{Input as AnyInput};

use login_base::{DevNo, HandleNo, NoMemory};
use login_model::{Input, Inputs};
use std::alloc::Global;
use std::marker::Model;
use std::mem;

/// A handle that listens to a device, and what it has heard.
#[derive(Drop)]
pub struct Ear {
    pub handle: HandleNo,
    pub device: DevNo,
    pub inputs: Inputs,
}

/// The handles that listen, and rings for more. Both vectors have room for all rings, in use or spare.
#[derive(Drop)]
pub(crate) struct Ears {
    ears: Vec<Ear>,
    rings: Vec<Inputs>,
    alloc: Global,
}

impl Model for Ears {
    ghost use Rattle.std.specs.Prelude.{◌+◌, ◌≤◌, vec_len, vec_capacity};
    ghost use Rattle.device_model.specs.Ears.{AreOnce};
    ghost use Rattle.device_model.specs.inner.Ears.{EarList};

    ghost Value = { EarList };

    ghost view = { λ e. record { ears = e.ears.items; rings = vec_len e.rings } };

    ghost invariant = { λ e. AreOnce e.ears.items × (vec_len e.ears + vec_len e.rings ≤ vec_capacity e.ears) × (vec_len e.ears + vec_len e.rings ≤ vec_capacity e.rings) };
}

/// Whether two devices are one.
fn is_same_device(a: DevNo, b: DevNo) -> bool
    ensures { result ≡ same_device a b }
{
    a.major == b.major && a.minor == b.minor
}

impl Ear {
    /// Hears an input of a device.
    fn hear(&mut self, device: DevNo, input: Input)
        ensures { self.new ≡ hear_ear device input self.old }
    {
        if is_same_device(device, self.device) {
            self.inputs.keep(input);
        }
    }

    /// Gives what was heard, and has heard nothing.
    fn drain(&mut self, out: &mut Inputs)
        ensures out { out.new ≡ self.old.inputs }
        ensures handle { self.new.handle ≡ self.old.handle }
        ensures device { self.new.device ≡ self.old.device }
        ensures inputs { self.new.inputs ≡ [] }
    {
        mem::swap(&mut self.inputs, out);
        self.inputs.clear();
    }
}

/// Each of these hears an input of a device.
fn hear_all(ears: &mut [Ear], device: DevNo, input: Input)
    ensures { ears.new ≡ map (hear_ear device input) ears.old }
{
    for ear in ears.iter_mut() {
        ear.hear(device, input);
    }
}

/// Takes a spare ring, empty.
fn take_ring(rings: &mut Vec<Inputs>) -> Inputs
    requires { 0 < vec_len rings.old }
    ensures empty { result ≡ [] }
    ensures len { vec_len rings.new + 1 ≡ vec_len rings.old }
    ensures capacity { vec_capacity rings.new ≡ vec_capacity rings.old }
{
    match rings.pop() {
        Some(mut inputs) => {
            inputs.clear();
            inputs
        }
        None => unreachable!(),
    }
}

/// The place of a handle's ear.
fn place_of(ears: &[Ear], handle: HandleNo) -> Option<usize>
    ensures { result ≡ position (is_ear_of handle) ears.now }
{
    ears.iter().position(|ear| ear.handle.0 == handle.0)
}

impl Ears {
    /// No handle listens, and there is no ring. It takes no memory.
    pub(crate) fn new(alloc: Global) -> Ears
        ensures ears { result.ears ≡ [] }
        ensures rings { result.rings ≡ 0 }
    {
        Ears {
            ears: Vec::new(alloc),
            rings: Vec::new(alloc),
            alloc,
        }
    }

    /// Makes one ring more.
    fn add_ring(&mut self) -> Result<(), NoMemory>
        ensures ok { OnOk result (self.new.rings ≡ self.old.rings + 1) }
        ensures ears { self.new.ears ≡ self.old.ears }
        ensures rings { self.old.rings ≤ self.new.rings }
    {
        self.ears.reserve(self.rings.len() + 1)?;
        self.rings.reserve(self.ears.len() + 1)?;
        let ring = Inputs::new(self.alloc)?;
        self.rings.push(ring)?;
        Ok(())
    }

    /// Makes at least so many spare rings.
    pub(crate) fn make(&mut self, rings: usize) -> Result<(), NoMemory>
        ensures ok { OnOk result (rings ≤ self.new.rings) }
        ensures ears { self.new.ears ≡ self.old.ears }
        ensures rings { self.old.rings ≤ self.new.rings }
    {
        while self.rings.len() < rings {
            self.add_ring()?;
        }
        Ok(())
    }

    /// A handle begins to listen to a device. It takes no memory.
    pub(crate) fn listen(&mut self, handle: HandleNo, device: DevNo)
        requires spare { 0 < self.old.rings }
        requires deaf { heard_of self.old.ears handle ≡ None }
        ensures own { heard_of self.new.ears handle ≡ Some (device, []) }
        ensures others { (g : AnyHandle) → (g.0 == handle.0) ≡ false → heard_of self.new.ears g ≡ heard_of self.old.ears g }
        ensures rings { self.new.rings + 1 ≡ self.old.rings }
        ensures count { length self.new.ears ≡ length self.old.ears + 1 }
    {
        let inputs = take_ring(&mut self.rings);
        match self.ears.push(Ear {
            handle,
            device,
            inputs,
        }) {
            Ok(()) => {}
            Err(_) => unreachable!(),
        }
    }

    /// Whether a handle listens.
    pub(crate) fn listens(&self, handle: HandleNo) -> bool
        ensures value { result ≡ is_some (heard_of self.now.ears handle) }
        ensures once { AreOnce self.now.ears }
    {
        place_of(self.ears.as_slice(), handle).is_some()
    }

    /// How many handles listen.
    pub(crate) fn listening(&self) -> usize
        ensures { result ≡ length self.now.ears }
    {
        self.ears.len()
    }

    /// The place of the ear of a handle that listens.
    fn place(&self, handle: HandleNo) -> usize
        requires { IsSome (heard_of self.now.ears handle) }
        ensures first { Some result ≡ position (is_ear_of handle) self.now.ears }
        ensures within { result < length self.now.ears }
    {
        match place_of(self.ears.as_slice(), handle) {
            Some(at) => at,
            None => unreachable!(),
        }
    }

    /// A handle listens no more. It takes no memory.
    pub(crate) fn deaf(&mut self, handle: HandleNo)
        requires { IsSome (heard_of self.old.ears handle) }
        ensures own { heard_of self.new.ears handle ≡ None }
        ensures others { (g : AnyHandle) → (g.0 == handle.0) ≡ false → heard_of self.new.ears g ≡ heard_of self.old.ears g }
        ensures rings { self.new.rings ≡ self.old.rings + 1 }
        ensures count { length self.new.ears + 1 ≡ length self.old.ears }
    {
        let at = self.place(handle);
        let ear = self.ears.remove(at);
        match self.rings.push(ear.inputs) {
            Ok(()) => {}
            Err(_) => unreachable!(),
        }
    }

    /// All handles that listen to a device hear an input of it. It takes no memory.
    pub(crate) fn hear(&mut self, device: DevNo, input: Input)
        ensures heard { (h : AnyHandle) → heard_of self.new.ears h ≡ option_map (hears device input) (heard_of self.old.ears h) }
        ensures rings { self.new.rings ≡ self.old.rings }
        ensures count { length self.new.ears ≡ length self.old.ears }
    {
        hear_all(&mut self.ears, device, input);
    }

    /// What a handle has heard since it began to listen or was last drained, the oldest first.
    pub(crate) fn heard(&self, handle: HandleNo) -> &[Input]
        requires { IsSome (heard_of self.now.ears handle) }
        ensures { (d : AnyDevice) (xs : List AnyInput) → heard_of self.now.ears handle ≡ Some (d, xs) → result.now ≡ xs }
    {
        self.ears[self.place(handle)].inputs.as_slice()
    }

    /// Gives what a handle has heard, which has then heard nothing. It takes no memory.
    pub(crate) fn drain(&mut self, handle: HandleNo, out: &mut Inputs)
        requires { IsSome (heard_of self.old.ears handle) }
        ensures out { (d : AnyDevice) (xs : List AnyInput) → heard_of self.old.ears handle ≡ Some (d, xs) → (out.new ≡ xs) × (heard_of self.new.ears handle ≡ Some (d, [])) }
        ensures others { (g : AnyHandle) → (g.0 == handle.0) ≡ false → heard_of self.new.ears g ≡ heard_of self.old.ears g }
        ensures rings { self.new.rings ≡ self.old.rings }
        ensures count { length self.new.ears ≡ length self.old.ears }
    {
        let at = self.place(handle);
        self.ears[at].drain(out);
    }
}
