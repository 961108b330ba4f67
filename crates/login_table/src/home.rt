// In which table a fact has its home.

ghost use Rattle.std.specs.Prelude.{◌≡◌};
ghost use Rattle.login_table.specs.Home.{home, is_home};

use login_model::Key;

/// A table of facts.
#[derive(Clone, Copy)]
pub enum Home {
    /// Which users are known, and which linger.
    Users,
    /// What each session is.
    Sessions,
    /// The seats and the virtual terminals.
    Seats,
    /// The devices, and their modes.
    Devices,
    /// Whose each connection is, and which controls each session.
    Controls,
    /// What sessions have taken, whose each handle is and whether it gives access, and the awaited pauses.
    Takes,
    /// The inhibitor locks.
    Locks,
    /// The operation on the machine, its dock, and the clock.
    Power,
}

impl Home {
    /// The table in which the fact under a key has its home.
    pub fn of(key: &Key) -> Home
        ensures { result ≡ home key.now }
    {
        match key {
            Key::User(_) | Key::Linger(_) => Home::Users,
            Key::Sess(_) | Key::Idle(_) | Key::Locked(_) | Key::Sig(_) => Home::Sessions,
            Key::Seat(_) | Key::Act(_) | Key::Vt | Key::Getty(_) | Key::Pending => Home::Seats,
            Key::Dev(_) | Key::Mode(_) => Home::Devices,
            Key::Conn(_) | Key::Ctl(_) => Home::Controls,
            Key::Taken(_, _) | Key::Owner(_) | Key::Live(_) | Key::Awaited(_, _) => Home::Takes,
            Key::Lock(_) => Home::Locks,
            Key::Op | Key::Docked | Key::Now => Home::Power,
        }
    }

    /// Whether the fact under a key has its home here.
    pub fn has(self, key: &Key) -> bool
        ensures { result ≡ is_home self key.now }
    {
        matches!(
            (self, Home::of(key)),
            (Home::Users, Home::Users)
                | (Home::Sessions, Home::Sessions)
                | (Home::Seats, Home::Seats)
                | (Home::Devices, Home::Devices)
                | (Home::Controls, Home::Controls)
                | (Home::Takes, Home::Takes)
                | (Home::Locks, Home::Locks)
                | (Home::Power, Home::Power)
        )
    }
}
