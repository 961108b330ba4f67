// Writing a whole text to a link that takes it in pieces.

ghost use Rattle.std.specs.Prelude.{◌≡◌};
ghost use Rattle.login_edge.specs.Hearing.{SaysAll};
ghost use Rattle.login_edge.specs.Writing.{WriteRose};

use crate::link::Link;
use crate::{Took, WriteEnd};

/// Writes the whole text, in as many writes as the link wants. It stops at the first write that fails.
/// It takes no memory.
pub fn say_all<L: Link>(link: &mut L, text: &[u8]) -> WriteEnd
    ensures tells { SaysAll (L.talk link.old) (L.talk link.new) result text.now }
    ensures left { L.left link.new ≡ L.left link.old }
    ensures cause { WriteRose (L.faults link.old) (L.faults link.new) result }
    ensures number { L.number link.new ≡ L.number link.old }
{
    let mut done = 0;
    while done < text.len() {
        match link.write(&text[done..]) {
            Took::Bytes(n) => done += n,
            Took::Failed => return WriteEnd::Fault,
        }
    }
    WriteEnd::Done
}
