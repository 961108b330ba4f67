// The marks of a request for a terminal, of acknowledging a pause, of giving a device back, of settling a switch, and
// of a session's devices that are taken by force and come back.

ghost use Rattle.std.specs.Prelude.{◌≡◌};
ghost use Rattle.login_laws.specs.Sound.{Awaits};
ghost use Rattle.login_model.specs.Procedure.{force, resume, untake};
ghost use Rattle.login_model.specs.Start.{seat0};
ghost use Rattle.login_model.specs.Switching.{complete, move_to, request, settle_switch};
ghost use Rattle.login_model.specs.Taking.{acknowledge};
ghost use Rattle.login_model.specs.Where.{active_on};
ghost use Rattle.login_table.specs.Appended.{Appends, HasRoom, LeavesRoom};
ghost use Rattle.switch_core.specs.Handles.{HandlesLeft, IsNumbered};
ghost use Rattle.switch_core.specs.inner.HandedOn.{terminal_fact};

use crate::ahead::Ahead;
use crate::awaited::is_awaiting;
use login_base::{DevNo, Reserved, SessId};
use login_model::{Conf, Key, Look, Mark};

/// Appends the marks of a request for a terminal of seat0. It takes no memory.
pub fn ask<F: Look>(facts: &F, vt: u32, out: &mut Reserved<Mark>)
    requires handles { HandlesLeft (F.trail facts.now) }
    requires room { HasRoom (request vt) (F.trail facts.now) out.old.spare }
    ensures appends { Appends (request vt) (F.trail facts.now) out.old.items out.new.items }
    ensures room { LeavesRoom (request vt) (F.trail facts.now) out.old.spare out.new.spare }
{
    let mut ahead = Ahead::new(facts, out.take());
    ahead.request(vt);
    *out = ahead.into_list();
}

/// Appends the marks of the acknowledgement of a pause. It takes no memory.
pub fn acknowledge<F: Look>(facts: &F, session: SessId, device: DevNo, out: &mut Reserved<Mark>)
    requires room { HasRoom (acknowledge session device) (F.trail facts.now) out.old.spare }
    ensures appends { Appends (acknowledge session device) (F.trail facts.now) out.old.items out.new.items }
    ensures room { LeavesRoom (acknowledge session device) (F.trail facts.now) out.old.spare out.new.spare }
{
    let mut ahead = Ahead::new(facts, out.take());
    ahead.acknowledge(session, device);
    *out = ahead.into_list();
}

/// Appends the marks of giving back one device. It takes no memory.
pub fn withdraw<F: Look>(facts: &F, session: SessId, device: DevNo, out: &mut Reserved<Mark>)
    requires room { HasRoom (untake session device) (F.trail facts.now) out.old.spare }
    ensures appends { Appends (untake session device) (F.trail facts.now) out.old.items out.new.items }
    ensures room { LeavesRoom (untake session device) (F.trail facts.now) out.old.spare out.new.spare }
{
    let mut ahead = Ahead::new(facts, out.take());
    ahead.untake(session, device);
    *out = ahead.into_list();
}

/// Appends the marks of going to a terminal.
fn move_now<F: Look>(facts: &F, conf: &Conf, vt: u32, out: &mut Reserved<Mark>)
    requires numbered { IsNumbered (move_to conf.now vt (active_on (F.trail facts.now) seat0) (F.trail facts.now)) }
    requires room { HasRoom (λ t. move_to conf.now vt (active_on t seat0) t) (F.trail facts.now) out.old.spare }
    ensures appends { Appends (λ t. move_to conf.now vt (active_on t seat0) t) (F.trail facts.now) out.old.items out.new.items }
    ensures room { LeavesRoom (λ t. move_to conf.now vt (active_on t seat0) t) (F.trail facts.now) out.old.spare out.new.spare }
{
    let mut ahead = Ahead::new(facts, out.take());
    ahead.move_now(conf, vt);
    *out = ahead.into_list();
}

/// Appends the marks with which the switch to this terminal completes, if there is one, once no pause is awaited.
fn complete<F: Look>(facts: &F, conf: &Conf, pending: Option<u32>, out: &mut Reserved<Mark>)
    requires awaits { Awaits (F.trail facts.now) }
    requires numbered { IsNumbered (complete conf.now (terminal_fact pending) (F.trail facts.now)) }
    requires room { HasRoom (complete conf.now (terminal_fact pending)) (F.trail facts.now) out.old.spare }
    ensures appends { Appends (complete conf.now (terminal_fact pending)) (F.trail facts.now) out.old.items out.new.items }
    ensures room { LeavesRoom (complete conf.now (terminal_fact pending)) (F.trail facts.now) out.old.spare out.new.spare }
{
    if let Some(vt) = pending {
        if !is_awaiting(facts) {
            move_now(facts, conf, vt, out);
        }
    }
}

/// Appends the marks with which the switch that is pending completes, once no pause is awaited. It takes no memory.
pub fn settle<F: Look>(facts: &F, conf: &Conf, out: &mut Reserved<Mark>)
    requires awaits { Awaits (F.trail facts.now) }
    requires handles { HandlesLeft (F.trail facts.now) }
    requires room { HasRoom (settle_switch conf.now) (F.trail facts.now) out.old.spare }
    ensures appends { Appends (settle_switch conf.now) (F.trail facts.now) out.old.items out.new.items }
    ensures room { LeavesRoom (settle_switch conf.now) (F.trail facts.now) out.old.spare out.new.spare }
{
    let pending = facts.fact(&Key::Pending).number();
    complete(facts, conf, pending, out);
}

/// Appends the marks of making a session's live handles dead. It takes no memory.
pub fn force<F: Look>(facts: &F, session: SessId, out: &mut Reserved<Mark>)
    requires room { HasRoom (force session) (F.trail facts.now) out.old.spare }
    ensures appends { Appends (force session) (F.trail facts.now) out.old.items out.new.items }
    ensures room { LeavesRoom (force session) (F.trail facts.now) out.old.spare out.new.spare }
{
    let mut ahead = Ahead::new(facts, out.take());
    ahead.force(session);
    *out = ahead.into_list();
}

/// Appends the marks with which a session's devices come back to it. It takes no memory.
pub fn resume<F: Look>(facts: &F, session: SessId, out: &mut Reserved<Mark>)
    requires numbered { IsNumbered (resume session (F.trail facts.now)) }
    requires room { HasRoom (resume session) (F.trail facts.now) out.old.spare }
    ensures appends { Appends (resume session) (F.trail facts.now) out.old.items out.new.items }
    ensures room { LeavesRoom (resume session) (F.trail facts.now) out.old.spare out.new.spare }
{
    let mut ahead = Ahead::new(facts, out.take());
    ahead.resume(session);
    *out = ahead.into_list();
}
