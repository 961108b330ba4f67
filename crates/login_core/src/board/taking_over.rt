// Marks that were put at the end of the list of the entry under way are put into the facts as well. Nothing here
// takes memory.

ghost use Rattle.std.specs.Prelude.{◌≡◌, ◌+◌, ◌≤◌, ◌∷◌, [], drop, length};
ghost use Rattle.login_model.specs.Power.{ask_operation, job_done, settle_operation};
ghost use Rattle.login_model.specs.Procedure.{force, resume, untake};
ghost use Rattle.login_model.specs.Switching.{request, settle_switch};
ghost use Rattle.login_model.specs.Taking.{acknowledge};
ghost use Rattle.login_laws.specs.Sound.{Awaits};
ghost use Rattle.login_table.specs.Appended.{IsPlain};
ghost use Rattle.login_core.specs.inner.Draft.{marked_by, Fits};
ghost use Rattle.login_core.specs.inner.TakingOver.{CanTakeOver, TakesOver};

use crate::board::Draft;
use crate::board::so_far::SoFar;
use login_base::{DevNo, Reserved, SessId};
use login_facts::Facts;
use login_model::{Conf, Fact, Mark, OpKind, Owner};

/// A second one of a plain fact.
fn copy_of(fact: &Fact) -> Fact
    requires { IsPlain fact.now }
    ensures { result ≡ fact.now }
{
    match fact {
        Fact::Absent => Fact::Absent,
        Fact::Flag(is_so) => Fact::Flag(*is_so),
        Fact::Number(number) => Fact::Number(*number),
        Fact::Handle(handle) => Fact::Handle(*handle),
        Fact::Owned(Owner::Device(who, session, device)) => {
            Fact::Owned(Owner::Device(*who, *session, *device))
        }
        Fact::Operation(operation) => Fact::Operation(*operation),
        _ => unreachable!(),
    }
}

/// One mark is put in.
fn take_one(facts: &mut Facts, mark: &Mark)
    requires { CanTakeOver facts.old (mark.now ∷ []) }
    ensures { TakesOver facts.old (mark.now ∷ []) facts.new }
{
    if let Mark::Set(key, fact) = mark {
        facts.set(*key, copy_of(fact));
    }
}

/// Marks are put in, from the first to the last.
fn take_all(facts: &mut Facts, marks: &[Mark])
    requires { CanTakeOver facts.old marks.now }
    ensures { TakesOver facts.old marks.now facts.new }
{
    for mark in marks {
        take_one(facts, mark);
    }
}

/// The marks of a list behind the first so many are put in. It tells how many these are.
pub fn take_over(facts: &mut Facts, marks: &Reserved<Mark>, from: usize) -> u32
    requires within { from ≤ length marks.now.items }
    requires can { CanTakeOver facts.old (drop from marks.now.items) }
    ensures takes { TakesOver facts.old (drop from marks.now.items) facts.new }
    ensures count { result + from ≡ length marks.now.items }
{
    let behind = &marks.as_slice()[from..];
    take_all(facts, behind);
    behind.len() as u32
}

impl Draft {
    /// A device is no longer taken: its handle is dead, and its pause is not awaited.
    pub fn untake(&mut self, session: SessId, device: DevNo)
        requires room { Fits (untake session device) self.old }
        ensures marked { self.new ≡ marked_by (untake session device) self.old }
    {
        let from = self.marks.len();
        {
            let so_far = SoFar::of(&self.facts, &self.journal, &self.marks);
            switch_core::withdraw(&so_far, session, device, &mut self.marks);
        }
        self.made += take_over(&mut self.facts, &self.marks, from);
    }

    /// A pause that is awaited is acknowledged.
    pub fn acknowledge(&mut self, session: SessId, device: DevNo)
        requires room { Fits (acknowledge session device) self.old }
        ensures marked { self.new ≡ marked_by (acknowledge session device) self.old }
    {
        let from = self.marks.len();
        {
            let so_far = SoFar::of(&self.facts, &self.journal, &self.marks);
            switch_core::acknowledge(&so_far, session, device, &mut self.marks);
        }
        self.made += take_over(&mut self.facts, &self.marks, from);
    }

    /// The live handles of a session's devices are dead.
    pub fn force(&mut self, session: SessId)
        requires room { Fits (force session) self.old }
        ensures marked { self.new ≡ marked_by (force session) self.old }
    {
        let from = self.marks.len();
        {
            let so_far = SoFar::of(&self.facts, &self.journal, &self.marks);
            switch_core::force(&so_far, session, &mut self.marks);
        }
        self.made += take_over(&mut self.facts, &self.marks, from);
    }

    /// The handles of a session's devices are live, and its controller is told of each.
    pub fn resume(&mut self, session: SessId)
        requires room { Fits (resume session) self.old }
        ensures marked { self.new ≡ marked_by (resume session) self.old }
    {
        let from = self.marks.len();
        {
            let so_far = SoFar::of(&self.facts, &self.journal, &self.marks);
            switch_core::resume(&so_far, session, &mut self.marks);
        }
        self.made += take_over(&mut self.facts, &self.marks, from);
    }

    /// Another terminal is asked for; the current one withdraws a switch that is pending.
    pub fn request(&mut self, vt: u32)
        requires room { Fits (request vt) self.old }
        ensures marked { self.new ≡ marked_by (request vt) self.old }
    {
        let from = self.marks.len();
        {
            let so_far = SoFar::of(&self.facts, &self.journal, &self.marks);
            switch_core::ask(&so_far, vt, &mut self.marks);
        }
        self.made += take_over(&mut self.facts, &self.marks, from);
    }

    /// The switch that is pending completes, once no pause is awaited.
    pub fn settle_switch(&mut self, conf: &Conf)
        requires awaits { Awaits self.old.trail }
        requires room { Fits (settle_switch conf.now) self.old }
        ensures marked { self.new ≡ marked_by (settle_switch conf.now) self.old }
    {
        let from = self.marks.len();
        {
            let so_far = SoFar::of(&self.facts, &self.journal, &self.marks);
            switch_core::settle(&so_far, conf, &mut self.marks);
        }
        self.made += take_over(&mut self.facts, &self.marks, from);
    }

    /// An operation waits from now on, past the locks that block it or not, and all are told.
    pub fn ask_operation(&mut self, kind: OpKind, skip: bool)
        requires room { Fits (ask_operation kind skip) self.old }
        ensures marked { self.new ≡ marked_by (ask_operation kind skip) self.old }
    {
        let from = self.marks.len();
        {
            let so_far = SoFar::of(&self.facts, &self.journal, &self.marks);
            power_ops::request(&so_far, kind, skip, &mut self.marks);
        }
        self.made += take_over(&mut self.facts, &self.marks, from);
    }

    /// The operation that waits runs, once no lock delays it or it has waited for long.
    pub fn settle_operation(&mut self, conf: &Conf)
        requires room { Fits (settle_operation conf.now) self.old }
        ensures marked { self.new ≡ marked_by (settle_operation conf.now) self.old }
    {
        let from = self.marks.len();
        {
            let so_far = SoFar::of(&self.facts, &self.journal, &self.marks);
            power_ops::settle(&so_far, conf, &mut self.marks);
        }
        self.made += take_over(&mut self.facts, &self.marks, from);
    }

    /// The operation that runs is over, and all are told.
    pub fn job_done(&mut self)
        requires room { Fits job_done self.old }
        ensures marked { self.new ≡ marked_by job_done self.old }
    {
        let from = self.marks.len();
        {
            let so_far = SoFar::of(&self.facts, &self.journal, &self.marks);
            power_ops::ended(&so_far, &mut self.marks);
        }
        self.made += take_over(&mut self.facts, &self.marks, from);
    }
}
