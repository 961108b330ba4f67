// The facts before the first mark, kept so that they can be answered by reference.

ghost use Rattle.std.specs.Prelude.{◌≡◌};
ghost use Rattle.login_model.specs.Start.{start_fact};
ghost use Rattle.login_model.specs.inner.Start.{start_facts};

use crate::fact::{Fact, Key};
use crate::operation::Operation;
use login_base::Millis;

/// What holds before the first mark: each fact that stands under some key then.
#[derive(Drop)]
pub struct StartFacts {
    facts: [Fact; 7],
    ghost facts_are: { facts ≡ start_facts },
}

impl StartFacts {
    /// The facts before the first mark. It takes no memory.
    pub fn new() -> StartFacts {
        StartFacts {
            facts: [
                Fact::Absent,
                Fact::Flag(false),
                Fact::Number(0),
                Fact::Number(1),
                Fact::Present,
                Fact::Moment(Millis(0)),
                Fact::Operation(Operation::Idle),
            ],
        }
    }

    /// The fact of a key before the first mark.
    pub fn fact(&self, key: &Key) -> &Fact
        ensures { result.now ≡ start_fact key.now }
    {
        let [absent, unset, zero, terminal, present, clock, operation] = &self.facts;
        match key {
            Key::Idle(_)
            | Key::Locked(_)
            | Key::Linger(_)
            | Key::Live(_)
            | Key::Getty(_)
            | Key::Awaited(_, _)
            | Key::Docked => unset,
            Key::Seat(name) => { if name.is_seat0() { present } else { absent } }
            Key::Vt => terminal,
            Key::Mode(_) => zero,
            Key::Op => operation,
            Key::Now => clock,
            _ => absent,
        }
    }
}
