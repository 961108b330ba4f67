// What is done to the core in one turn at its desk.

ghost use Rattle.std.specs.Prelude.{◌≡◌, Some};
ghost use Rattle.desk.specs.History.{entries};
ghost use Rattle.wire_out.specs.Places.{IsPlaceIn};
ghost use Rattle.link_serve.specs.Acting.{FitsAlone};
ghost use Rattle.link_serve.specs.Owners.{event_who};

use crate::core_at_desk::{CoreAtDesk, PassOfCore};
use desk::Act;
use login_base::{Bytes, ConnId, NoMemory, Uid};
use login_core::Refused;
use login_model::Event;
use login_office::Teller;
use std::alloc::Global;
use std::marker::Model;
use std::snapshot::Snapshot;

/// The connection that an event is of. Number 0 is the machine itself.
fn event_who(event: &Event) -> ConnId
    ensures { result.0 ≡ event_who event.now }
{
    match event {
        Event::Connect(who, _) => *who,
        Event::Disconnect(who) => *who,
        Event::Call(request) => request.who,
        Event::Hardware(_) | Event::Tick(_) | Event::Stop => ConnId(0),
    }
}

/// What an entry that was made is answered as.
#[derive(Clone, Copy, PartialEq, Eq)]
pub struct Made {
    /// Whether its event was granted.
    pub granted: bool,
    /// Whether it has notices, or is the stop.
    pub tells: bool,
}

/// Makes the teller of a link whose connection made no entry, with a client that is to be this user. It makes no entry,
/// and its mail is looked for behind the journal alone.
#[derive(Drop)]
pub struct Greet {
    pub alloc: Global,
    pub uid: Uid,
}

impl Act<CoreAtDesk> for Greet {
    ghost use Rattle.std.specs.Prelude.{◌≡◌, []};
    ghost use Rattle.link_serve.specs.inner.Acting.{Greets};

    type Answer = Result<(ConnId, Teller), NoMemory>;

    ghost does = { λ before who setup old new after answer. Greets before.uid who setup old new answer };

    ghost may = { λ act mine. mine ≡ [] };

    ghost after = { λ act. [] };

    fn act(&mut self, value: &mut CoreAtDesk, who: ConnId) -> Result<(ConnId, Teller), NoMemory> {
        let teller = Teller::behind(
            self.alloc,
            who,
            self.uid,
            &value.setup().guid,
            value.journal(),
        )?;
        Ok((who, teller))
    }
}

/// Mail that is due, and the number of the stop's entry, if it is there.
#[derive(Drop)]
pub struct Mail {
    pub bytes: Bytes,
    pub stop: Option<u32>,
}

/// Fetches the mail of a link, and looks for the stop. It makes no entry.
#[derive(Drop)]
pub struct Fetch {
    alloc: Global,
    teller: Option<Teller>,
    /// The pass of the link.
    pass: Snapshot<PassOfCore>,
}

impl Model for Fetch {
    ghost use Rattle.std.specs.Prelude.{IfSome};
    ghost use Rattle.desk.specs.History.{entries};
    ghost use Rattle.wire_out.specs.Places.{IsPlaceIn};
    ghost use Rattle.link_serve.specs.inner.Acting.{FetchState};

    ghost Value = { FetchState };

    ghost view = { λ f. record { teller = f.teller; seen = entries f.pass.value.view.seen } };

    ghost invariant = { λ f. IfSome f.teller (λ t. IsPlaceIn t.place (entries f.pass.value.view.seen)) };
}

impl Fetch {
    /// The fetching of the mail of this teller, with the pass of its link.
    pub fn new(alloc: Global, teller: Teller, pass: &PassOfCore) -> Fetch
        requires placed { IsPlaceIn teller.place (entries pass.now.view.seen) }
        ensures teller { result.teller ≡ Some teller }
        ensures seen { result.seen ≡ entries pass.now.view.seen }
    {
        Fetch {
            alloc,
            teller: Some(teller),
            pass: Snapshot::of(pass),
        }
    }
}

impl Act<CoreAtDesk> for Fetch {
    ghost use Rattle.link_serve.specs.inner.Acting.{Fetched};

    /// The teller and what it fetched; nothing where the act was made before.
    type Answer = Option<(Teller, Result<Mail, NoMemory>)>;

    ghost does = { λ before who setup old new after answer. Fetched before.teller old new answer };

    ghost may = { λ act mine. Unit {0} };

    ghost after = { λ act. act.seen };

    fn act(
        &mut self,
        value: &mut CoreAtDesk,
        _who: ConnId,
    ) -> Option<(Teller, Result<Mail, NoMemory>)> {
        let mut teller = self.teller.take()?;
        let Ok(bytes) = teller.mail(self.alloc, value.journal()) else {
            return Some((teller, Err(NoMemory)));
        };
        let stop = value.stop();
        Some((teller, Ok(Mail { bytes, stop })))
    }
}

/// Makes the entry of an event, where the journal has room for it.
#[derive(Drop)]
pub struct Step {
    event: Option<Event>,
}

impl Model for Step {
    ghost use Rattle.std.specs.Prelude.{IfSome, Option};
    ghost use Rattle.login_model.specs.declared.event.Event.{Event};
    ghost use Rattle.link_serve.specs.Acting.{FitsAlone};

    ghost Value = { Option Event };

    ghost view = { λ s. s.event };

    ghost invariant = { λ s. IfSome s.event FitsAlone };
}

impl Step {
    /// The stepping of this event.
    pub fn new(event: Event) -> Step
        requires fits { FitsAlone event }
        ensures event { result ≡ Some event }
    {
        Step { event: Some(event) }
    }
}

impl Act<CoreAtDesk> for Step {
    ghost use Rattle.std.specs.Prelude.{[]};
    ghost use Rattle.link_serve.specs.inner.Acting.{MayStep, Steps};

    /// The entry, or why there is none; nothing where the event is of another connection than the pass, or the act was
    /// made before.
    type Answer = Option<Result<Made, Refused>>;

    ghost does = { λ before who setup old new after answer. Steps before who setup old new answer };

    ghost may = { λ act mine. MayStep act mine };

    ghost after = { λ act. [] };

    fn act(&mut self, value: &mut CoreAtDesk, who: ConnId) -> Option<Result<Made, Refused>> {
        let event = self.event.take()?;
        if event_who(&event) != who {
            drop(event);
            return None;
        }
        Some(value.step(event))
    }
}

/// Makes the entry of the end of a connection, if it is connected. It answers whether an entry was made that tells
/// something.
#[derive(Drop)]
pub struct Close;

impl Act<CoreAtDesk> for Close {
    ghost use Rattle.std.specs.Prelude.{[]};
    ghost use Rattle.link_serve.specs.inner.Acting.{ClosesOne};

    type Answer = bool;

    ghost does = { λ before who setup old new after answer. ClosesOne (record { 0 = who }) old new };

    ghost may = { λ act mine. Unit {0} };

    ghost after = { λ act. [] };

    fn act(&mut self, value: &mut CoreAtDesk, who: ConnId) -> bool {
        value.close(who)
    }
}

/// Looks for the stop, and answers the number of its entry. It makes no entry.
#[derive(Drop)]
pub struct Looking;

impl Act<CoreAtDesk> for Looking {
    ghost use Rattle.std.specs.Prelude.{◌≡◌, []};
    ghost use Rattle.login_model.specs.Stopping.{stop_from};

    type Answer = Option<u32>;

    ghost does = { λ before who setup old new after answer. (new ≡ old) × (answer ≡ stop_from 1 old) };

    ghost may = { λ act mine. Unit {0} };

    ghost after = { λ act. [] };

    fn act(&mut self, value: &mut CoreAtDesk, _who: ConnId) -> Option<u32> {
        value.stop()
    }
}
