// The marks of asking for an operation, of starting it, and of its end. Nothing here takes memory.

ghost use Rattle.std.specs.Prelude.{◌≡◌};
ghost use Rattle.login_model.specs.Power.{ask_operation, end_operation, is_delayed, is_over, job_done, prepare, settle_operation, start};
ghost use Rattle.login_model.specs.Trail.{put};
ghost use Rattle.login_table.specs.Appended.{Appends, HasRoom, LeavesRoom};

use login_base::{Millis, Reserved};
use login_model::{
    Conf, Fact, Key, LockMode, Look, Mark, Notice, OpKind, Operation, Whom, is_same_fact,
};

/// The notice that an operation is about to begin, or is over.
fn prepare(kind: OpKind, begins: bool) -> Notice
    ensures { result ≡ prepare kind begins }
{
    match kind {
        OpKind::PowerOff | OpKind::Reboot | OpKind::Halt => Notice::PrepareShutdown(begins),
        _ => Notice::PrepareSleep(begins),
    }
}

/// Whether a lock delays an operation.
fn is_delayed<F: Look>(facts: &F, kind: OpKind) -> bool
    ensures { result ≡ is_delayed (F.trail facts.now) kind }
{
    facts.is_held_up(kind, LockMode::Delay)
}

/// Whether an operation that waits since a moment has waited as long as locks can delay it.
fn is_over<F: Look>(facts: &F, conf: &Conf, since: Millis) -> bool
    ensures { result ≡ is_over conf.now (F.trail facts.now) since }
{
    let now = facts.fact(&Key::Now).moment_or_zero();
    conf.inhibit_delay_max.0 <= now.saturating_sub(since.0)
}

/// Appends how far an operation has come, unless it has come so far already.
fn put<F: Look>(facts: &F, operation: Operation, out: &mut Reserved<Mark>)
    requires room { HasRoom (put Key.Op (Fact.Operation operation)) (F.trail facts.now) out.old.spare }
    ensures appends { Appends (put Key.Op (Fact.Operation operation)) (F.trail facts.now) out.old.items out.new.items }
    ensures room { LeavesRoom (put Key.Op (Fact.Operation operation)) (F.trail facts.now) out.old.spare out.new.spare }
{
    let fact = Fact::Operation(operation);
    if is_same_fact(facts.fact(&Key::Op), &fact) {
        return;
    }
    out.push(Mark::Set(Key::Op, fact));
}

/// Appends the marks of a request for an operation, which passes the locks that block it or not. It takes no memory.
pub fn request<F: Look>(facts: &F, kind: OpKind, skip: bool, out: &mut Reserved<Mark>)
    requires room { HasRoom (ask_operation kind skip) (F.trail facts.now) out.old.spare }
    ensures appends { Appends (ask_operation kind skip) (F.trail facts.now) out.old.items out.new.items }
    ensures room { LeavesRoom (ask_operation kind skip) (F.trail facts.now) out.old.spare out.new.spare }
{
    let now = Millis(facts.fact(&Key::Now).moment_or_zero());
    put(facts, Operation::Waiting(kind, now, skip), out);
    out.push(Mark::Say(Whom::All, prepare(kind, true)));
}

/// Appends the mark with which this operation runs, if it waits, and no lock delays it any more
/// or its limit is over.
fn start<F: Look>(facts: &F, conf: &Conf, fact: &Fact, out: &mut Reserved<Mark>)
    requires room { HasRoom (start conf.now fact.now) (F.trail facts.now) out.old.spare }
    ensures appends { Appends (start conf.now fact.now) (F.trail facts.now) out.old.items out.new.items }
    ensures room { LeavesRoom (start conf.now fact.now) (F.trail facts.now) out.old.spare out.new.spare }
{
    if let Some(Operation::Waiting(kind, since, _)) = fact.operation() {
        if is_over(facts, conf, since) || !is_delayed(facts, kind) {
            put(facts, Operation::Running(kind), out);
        }
    }
}

/// Appends the mark with which the operation that waits runs, once no lock delays it or it has waited for long. It
/// takes no memory, and asks for the locks only while an operation waits.
pub fn settle<F: Look>(facts: &F, conf: &Conf, out: &mut Reserved<Mark>)
    requires room { HasRoom (settle_operation conf.now) (F.trail facts.now) out.old.spare }
    ensures appends { Appends (settle_operation conf.now) (F.trail facts.now) out.old.items out.new.items }
    ensures room { LeavesRoom (settle_operation conf.now) (F.trail facts.now) out.old.spare out.new.spare }
{
    start(facts, conf, facts.fact(&Key::Op), out);
}

/// Appends the marks of the end of this operation, if it runs.
fn end<F: Look>(facts: &F, fact: &Fact, out: &mut Reserved<Mark>)
    requires room { HasRoom (end_operation fact.now) (F.trail facts.now) out.old.spare }
    ensures appends { Appends (end_operation fact.now) (F.trail facts.now) out.old.items out.new.items }
    ensures room { LeavesRoom (end_operation fact.now) (F.trail facts.now) out.old.spare out.new.spare }
{
    if let Some(kind) = fact.running() {
        put(facts, Operation::Idle, out);
        out.push(Mark::Say(Whom::All, prepare(kind, false)));
    }
}

/// Appends the marks of the end of the operation that runs. Where none runs it appends nothing. It takes no memory.
pub fn ended<F: Look>(facts: &F, out: &mut Reserved<Mark>)
    requires room { HasRoom job_done (F.trail facts.now) out.old.spare }
    ensures appends { Appends job_done (F.trail facts.now) out.old.items out.new.items }
    ensures room { LeavesRoom job_done (F.trail facts.now) out.old.spare out.new.spare }
{
    end(facts, facts.fact(&Key::Op), out);
}
