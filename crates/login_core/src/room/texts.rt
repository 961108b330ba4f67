// The copies of texts that are made before they are needed.

ghost use Rattle.std.specs.Prelude.{◌≡◌, OnOk, IfOk, Some, None};
ghost use Rattle.login_base.specs.declared.ids.SessId.{SessId as SessionId};
ghost use Rattle.login_core.specs.Ready.{AreOf, AreReady, AreReadyFor, AreReadyToCall, AreReadyToHappen, AreFresh, HasLock};
ghost use Rattle.login_core.specs.inner.Spares.{copies_in};

use crate::room::copies::{Copies, copies_of};
use crate::room::locks::{LockCopies, lock_copies};
use crate::room::slots::SeatSlots;
use crate::room::spares::Spares;
use login_base::NoMemory;
use login_model::{Call, Creation, Event, Hardware, Inhibition};
use std::alloc::Global;
use std::mem;

/// The texts of a session that is created, for its whole life.
#[derive(Drop)]
pub struct FreshTexts {
    pub created: Copies,
    pub closing: Copies,
    pub gone: Copies,
}

/// The copies with which open sessions close, those with which sessions go, those of the session that is
/// created next, those of the lock that stands next, and memory for the seat of the device that comes next.
#[derive(Drop)]
pub struct Texts {
    pub closing: Spares,
    pub gone: Spares,
    pub fresh: Option<FreshTexts>,
    pub lock: Option<LockCopies>,
    pub seats: Option<SeatSlots>,
}

/// The copies of a creation's texts, with those that the session is created with.
fn fresh_with(
    alloc: Global,
    creation: &Creation,
    created: Copies,
    closing: Copies,
) -> Result<FreshTexts, NoMemory>
    requires created { AreOf creation.now created }
    requires closing { AreOf creation.now closing }
    ensures { IfOk result (λ f. AreFresh creation.now (Some f)) }
{
    match copies_of(alloc, creation) {
        Ok(gone) => Ok(FreshTexts {
            created,
            closing,
            gone,
        }),
        Err(NoMemory) => {
            drop(created);
            drop(closing);
            Err(NoMemory)
        }
    }
}

/// The copies of a creation's texts.
fn fresh_of(alloc: Global, creation: &Creation) -> Result<FreshTexts, NoMemory>
    ensures { IfOk result (λ f. AreFresh creation.now (Some f)) }
{
    let created = copies_of(alloc, creation)?;
    match copies_of(alloc, creation) {
        Ok(closing) => fresh_with(alloc, creation, created, closing),
        Err(NoMemory) => {
            drop(created);
            Err(NoMemory)
        }
    }
}

impl Texts {
    /// No copies. It takes no memory.
    pub fn new(alloc: Global) -> Texts
        ensures closing { (s : SessionId) → copies_in result.closing.items s ≡ None }
        ensures gone { (s : SessionId) → copies_in result.gone.items s ≡ None }
    {
        Texts {
            closing: Spares::new(alloc),
            gone: Spares::new(alloc),
            fresh: None,
            lock: None,
            seats: None,
        }
    }

    /// Makes the copies for a session's whole life.
    fn prepare_session(&mut self, alloc: Global, creation: &Creation) -> Result<(), NoMemory>
        ensures ready { OnOk result (AreReadyFor creation.now self.new) }
        ensures closing { self.new.closing.items ≡ self.old.closing.items }
        ensures gone { self.new.gone.items ≡ self.old.gone.items }
    {
        self.closing.reserve()?;
        self.gone.reserve()?;
        let fresh = fresh_of(alloc, creation)?;
        drop(mem::replace(&mut self.fresh, Some(fresh)));
        Ok(())
    }

    /// Makes the copies for a lock.
    fn prepare_lock(&mut self, alloc: Global, inhibition: &Inhibition) -> Result<(), NoMemory>
        ensures ready { OnOk result (HasLock inhibition.now self.new.lock) }
        ensures closing { self.new.closing.items ≡ self.old.closing.items }
        ensures gone { self.new.gone.items ≡ self.old.gone.items }
    {
        self.lock = Some(lock_copies(alloc, inhibition)?);
        Ok(())
    }

    /// Makes the copies that a call needs.
    fn prepare_call(&mut self, alloc: Global, call: &Call) -> Result<(), NoMemory>
        ensures ready { OnOk result (AreReadyToCall call.now self.new) }
        ensures closing { self.new.closing.items ≡ self.old.closing.items }
        ensures gone { self.new.gone.items ≡ self.old.gone.items }
    {
        match call {
            Call::Create(creation) => self.prepare_session(alloc, creation.get()),
            Call::Inhibit(inhibition) => self.prepare_lock(alloc, inhibition),
            _ => Ok(()),
        }
    }

    /// Takes the memory that a hardware event needs.
    fn prepare_hardware(&mut self, alloc: Global, hardware: &Hardware) -> Result<(), NoMemory>
        ensures ready { OnOk result (AreReadyToHappen hardware.now self.new) }
        ensures closing { self.new.closing.items ≡ self.old.closing.items }
        ensures gone { self.new.gone.items ≡ self.old.gone.items }
    {
        if let Hardware::Add(..) = hardware {
            self.seats = Some(SeatSlots::new(alloc)?);
        }
        Ok(())
    }

    /// Makes the copies that an event needs, and takes the memory of a seat.
    pub fn prepare(&mut self, alloc: Global, event: &Event) -> Result<(), NoMemory>
        ensures ready { OnOk result (AreReady event.now self.new) }
        ensures closing { self.new.closing.items ≡ self.old.closing.items }
        ensures gone { self.new.gone.items ≡ self.old.gone.items }
    {
        match event {
            Event::Call(request) => self.prepare_call(alloc, &request.call),
            Event::Hardware(hardware) => self.prepare_hardware(alloc, hardware),
            _ => Ok(()),
        }
    }
}
