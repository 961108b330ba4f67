// Where links come from.

ghost use Rattle.std.specs.Prelude.{◌≡◌, ℕ, Option, IfSome, length};
ghost use Rattle.std.specs.Option.{option_map};
ghost use Rattle.login_edge.specs.Register.{Register, OpenCause, AcceptCause, Numbers, accepted, IsOut, given_back};

use crate::link::Link;
use login_base::{ConnId, Items, Uid};

/// What opening a listener answers.
#[derive(Clone, Copy, PartialEq, Eq)]
pub enum Opened {
    /// Links may come.
    Ready,
    /// The listener is as it was, and the count of faults rose.
    Failed,
}

/// What accepting answers.
#[derive(Drop)]
pub enum Accepted<L> {
    /// A link came, of this user.
    Came(L, Uid),
    /// No link was ready.
    Quiet,
    /// No link comes any more.
    Closed,
    /// No link came, and the count of faults rose.
    Failed,
}

/// Where links come from.
///
/// A listener has a count of faults of 64 bits that never falls. A count that stands at its last value
/// is taken as one that rose. Which links came, and how each was given back, is told by listeners in
/// memory alone, as is how often it was asked: a count of 64 bits too, which stands still at its last value.
pub trait Listener {
    /// The links that come.
    type Link: Link;

    /// How many links came.
    ghost given: { Self → ℕ };
    /// Its calls of `accept`, and the links, where the listener tells them.
    ghost told: { Self → Option (Register Self.Link) };
    /// How many calls failed.
    ghost faults: { Self → ℕ };
    /// The register has the links that came.
    ghost counted: { (l : Self) → IfSome (told l) (λ r. length r.links ≡ given l) };

    /// Makes ready to take links of these users, at sockets in this directory.
    fn open(&mut self, dir: &[u8], uids: &Items<Uid>) -> Opened
        ensures tells { told self.new ≡ told self.old }
        ensures given { given self.new ≡ given self.old }
        ensures cause { OpenCause (faults self.old) (faults self.new) result };

    /// Takes the next link, if one is ready. The links are numbered from 1 as they come.
    fn accept(&mut self) -> Accepted<Self::Link>
        ensures tells { told self.new ≡ option_map (accepted result) (told self.old) }
        ensures numbers { Numbers Self.Link.number (given self.old) (given self.new) result }
        ensures cause { AcceptCause (faults self.old) (faults self.new) result };

    /// Gives back the link of this number, which was not given back yet. It takes no memory.
    fn give_back(&mut self, c: ConnId, link: Self::Link)
        requires number { Self.Link.number link ≡ c.0 }
        requires out { IfSome (told self.old) (λ r. IsOut c.0 r.links) }
        ensures tells { told self.new ≡ option_map (given_back c.0 link) (told self.old) }
        ensures given { given self.new ≡ given self.old }
        ensures faults { faults self.new ≡ faults self.old };
}
