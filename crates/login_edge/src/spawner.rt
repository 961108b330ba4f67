// Jobs that threads own, and what starts them.

ghost use Rattle.std.specs.Prelude.{◌≡◌, ℕ, IfOk, IfErr, true, false};
ghost use Rattle.login_edge.specs.Faults.{Rose};

use std::alloc::Global;
use std::sync::Arc;
use std::sync::atomic::{AtomicBool, Ordering};
use std::thread::{Promise, PromisedHandle, Scope};

/// Work that a thread owns: a value and no closure, so that its owner has it back where no thread starts.
pub trait Job: Drop {
    /// What the job gives.
    type Out: Drop;

    /// What a handle keeps of the job. Its type names no borrow of the job's, so that handles may stand in lists.
    type Note: Promise<Self::Out> + Drop;

    /// How the job and what it gives hang together, whether it works or declines.
    ghost gives: { Self → Self.Out → Type 0 };

    /// What a handle keeps of the job: just the relation between the job and what it gives.
    fn note(&self) -> Self::Note
        ensures there { (out : Self.Out) → gives self.now out → Self.Note.kept_by result out }
        ensures back { (out : Self.Out) → Self.Note.kept_by result out → gives self.now out };

    /// Does the work. It may wait.
    fn work(self) -> Self::Out
        ensures related { gives self result };

    /// Leaves the work undone.
    fn decline(self) -> Self::Out
        ensures related { gives self result };
}

/// What starting a job answers.
#[derive(Drop)]
pub enum Started<O, N: Promise<O>> {
    /// A thread has the job.
    Running(PromisedHandle<O, N>),
    /// No thread has the job; it answered here. It declined, but where the machine refused the thread no clause
    /// says so: its answer tells.
    Back(O),
}

/// What starts threads.
///
/// A spawner has a count of faults of 64 bits that never falls. A count that stands at its last value
/// is taken as one that rose.
pub trait Spawner {
    /// How many starts failed.
    ghost faults: { Self → ℕ };

    /// Whether a thread may start. If not, the start has failed.
    fn admits(&mut self) -> bool
        ensures yes { result ≡ true → faults self.new ≡ faults self.old }
        ensures no { result ≡ false → Rose (faults self.old) (faults self.new) };

    /// Counts a start that was admitted, and that the machine refused.
    fn refused(&mut self)
        ensures rose { Rose (faults self.old) (faults self.new) };

    /// Starts the job in a thread of the scope. Where it is not admitted, or there is no memory or no thread for
    /// it, the job answers here.
    final fn start<
        's,
        E,
        O: Drop + Send + 's,
        N: Promise<O> + Drop + Send,
        J: Job<Out = O, Note = N> + Send + 's,
    >(&mut self, alloc: Global, scope: &Scope<'s, E>, job: J) -> Started<O, N>
        ensures running { (h : _) → result ≡ Started.Running h → (out : O) → N.kept_by h.promise out → J.gives job out }
        ensures back { (out : O) → result ≡ Started.Back out → J.gives job out }
        ensures same { (h : _) → result ≡ Started.Running h → faults self.new ≡ faults self.old }
        ensures rose { (out : O) → result ≡ Started.Back out → Rose (faults self.old) (faults self.new) }
    {
        if !self.admits() {
            return Started::Back(job.decline());
        }
        match start_thread(alloc, scope, job) {
            Ok(handle) => Started::Running(handle),
            Err(out) => {
                self.refused();
                Started::Back(out)
            }
        }
    }
}

/// Starts the job in a thread of the scope. Where there is no memory or no thread, the job answers here.
fn start_thread<
    's,
    E,
    O: Drop + Send + 's,
    N: Promise<O> + Drop + Send,
    J: Job<Out = O, Note = N> + Send + 's,
>(alloc: Global, scope: &Scope<'s, E>, job: J) -> Result<PromisedHandle<O, N>, O>
    ensures running { IfOk result (λ h. (out : O) → N.kept_by h.promise out → J.gives job out) }
    ensures back { IfErr result (λ out. J.gives job out) }
{
    let Ok(here) = Arc::new(alloc, AtomicBool::new(false)) else {
        return Err(job.decline());
    };
    let Ok(there) = Arc::try_clone(&here) else {
        return Err(job.decline());
    };
    let note = job.note();
    match scope.spawn_with(note, move || work_or_decline(there, job)) {
        Ok(handle) => Ok(handle),
        Err(refused) => {
            here.store(true, Ordering::SeqCst);
            Err((refused.value)())
        }
    }
}

/// Declines where the flag is set, and works where it is not.
fn work_or_decline<J: Job>(declines: Arc<AtomicBool, Global>, job: J) -> J::Out
    ensures { J.gives job result }
{
    if declines.load(Ordering::SeqCst) {
        job.decline()
    } else {
        job.work()
    }
}
