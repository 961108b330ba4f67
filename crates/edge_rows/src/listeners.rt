// A listener in memory, through the bound of its trait.

ghost use Rattle.std.specs.Prelude.{◌≡◌, IfOk, length};

use login_base::{ConnId, Items, NoMemory, Uid};
use login_edge::{Accepted, Arrival, Listener, MemLink, MemListener, Opened, say_all};
use std::alloc::Global;

fn empty_link(alloc: Global) -> Result<MemLink, NoMemory> {
    MemLink::new(alloc, Items::new(alloc), 3, 1, Items::new(alloc), None)
}

/// A listener to which two links come, whose fifth call fails.
fn listener(alloc: Global) -> Result<MemListener, NoMemory>
    ensures { IfOk result (λ listener. length listener.register.links ≡ 0) }
{
    let one = Arrival::Link(empty_link(alloc)?, Uid(0));
    let two = Arrival::Link(empty_link(alloc)?, Uid(7));
    let script = vec![in alloc; one, two, Arrival::Quiet]?;
    let fails = Items::from_vec(Vec::from_slice(alloc, &[5])?);
    MemListener::new(alloc, Items::from_vec(script), fails)
}

fn take_once<N: Listener>(listener: &mut N) -> Accepted<N::Link> {
    listener.accept()
}

/// Takes two links, says a text on each, and gives the second back first.
fn serve_in_reverse<N: Listener>(listener: &mut N) -> Option<(u32, u32)>
    requires { N.given listener.old ≡ 0 }
{
    let Accepted::Came(mut one, first) = listener.accept() else {
        return None;
    };
    let Accepted::Came(mut two, second) = listener.accept() else {
        return None;
    };
    say_all(&mut one, b"one");
    say_all(&mut two, b"two");
    listener.give_back(ConnId(2), two);
    listener.give_back(ConnId(1), one);
    Some((first.0, second.0))
}

/// Whether what was said on the link of this number is this text.
fn has_said(listener: &MemListener, number: u32, text: &[u8]) -> bool {
    match listener.link(ConnId(number)) {
        Some(link) => link.said() == text,
        None => false,
    }
}

#[test]
fn listener_keeps_each_link_in_its_place(rt: HostRuntime) -> Result<(), NoMemory> {
    let alloc = rt.alloc();
    let mut listener = listener(alloc)?;
    assert!(rt; listener.open(b"dir", &Items::new(alloc)) == Opened::Ready);
    assert!(rt; serve_in_reverse(&mut listener) == Some((0, 7)));
    assert!(rt; has_said(&listener, 1, b"one"));
    assert!(rt; has_said(&listener, 2, b"two"));
    assert!(rt; matches!(take_once(&mut listener), Accepted::Quiet));
    assert!(rt; matches!(take_once(&mut listener), Accepted::Failed));
    assert!(rt; matches!(take_once(&mut listener), Accepted::Closed));
    assert!(rt; listener.link(ConnId(0)).is_none());
    assert!(rt; listener.link(ConnId(3)).is_none());
    Ok(())
}
