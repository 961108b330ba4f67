// Room for keys, and how much more is made than is asked for.

ghost use Rattle.std.specs.Prelude.{◌≡◌, ◌&&◌, nat_le, ◌+◌, ◌<◌, ◌≤◌, ◌^◌};
ghost use Rattle.login_laws.specs.Amounts.{Part as AnyPart};
ghost use Rattle.login_facts.specs.KeyRooms.{keys_of};

/// For how many keys tables get rows beyond those that are asked for and an eighth, so that they are not gone over at
/// each event.
const KEYS_AHEAD: usize = 32;

/// An eighth more than so many marks, so that what grows by little each time seldom gets memory.
pub fn with_more(marks: usize) -> usize
    ensures more { marks ≤ result }
    ensures few { marks < 2 ^ 31 → result ≤ marks + 2 ^ 28 }
{
    marks.saturating_add(marks / 8)
}

/// For how many keys there is room that were not set before, by what they are about.
#[derive(Clone, Copy)]
pub struct KeyRoom {
    /// Of handles, and of what sessions have taken.
    pub taken: usize,
    /// Anything else.
    pub others: usize,
}

/// Room for so many keys: as it is where it is enough, else for an eighth and some more.
fn wide_enough(room: usize, keys: usize) -> usize
    ensures enough { keys ≤ result }
    ensures keeps { room ≤ result }
{
    if keys <= room {
        room
    } else {
        with_more(keys).saturating_add(KEYS_AHEAD)
    }
}

impl KeyRoom {
    /// Room for no key.
    pub const NONE: KeyRoom = KeyRoom {
        taken: 0,
        others: 0,
    };

    /// Whether there is room for so many keys of each part.
    pub fn fits(self, keys: KeyRoom) -> bool
        ensures { result ≡ (nat_le keys.taken self.taken && nat_le keys.others self.others) }
    {
        keys.taken <= self.taken && keys.others <= self.others
    }

    /// Room for so many keys of each part, and no less than there is.
    pub fn widened(self, keys: KeyRoom) -> KeyRoom
        ensures enough { (p : AnyPart) → keys_of p keys ≤ keys_of p result }
        ensures keeps { (p : AnyPart) → keys_of p self ≤ keys_of p result }
    {
        KeyRoom {
            taken: wide_enough(self.taken, keys.taken),
            others: wide_enough(self.others, keys.others),
        }
    }
}
