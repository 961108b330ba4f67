// That the calls succeed, alone and in two threads.

use desk::{CountUp, Counter, Desk, count_apart};
use login_base::{ConnId, NoMemory};

#[test]
fn each_call_once(rt: HostRuntime) -> Result<(), NoMemory> {
    let alloc = rt.alloc();
    let (desk, mut first) = Desk::open(alloc, Counter::new(alloc, 2)?)?;
    assert!(rt; desk.act(&rt, &mut first, &mut CountUp { number: 7 }));
    let mut second = desk.split(&mut first, ConnId(4));
    assert!(rt; desk.act(&rt, &mut second, &mut CountUp { number: 8 }));
    assert!(rt; !desk.act(&rt, &mut second, &mut CountUp { number: 9 }));
    desk.join(&mut first, second);
    let closed = desk.close(first);
    assert_eq!(rt; closed.as_slice().len(), 2);
    for (count, want) in closed.as_slice().iter().zip([(0, 7), (4, 8)]) {
        assert!(rt; (count.who.0, count.number) == want);
    }
    Ok(())
}

#[test]
fn two_threads_count(rt: HostRuntime) -> Result<(), NoMemory> {
    let alloc = rt.alloc();
    let closed = count_apart(&rt, alloc, 200, 100)?;
    assert_eq!(rt; closed.as_slice().len(), 200);
    let mut next = [0, 0];
    for count in closed.as_slice() {
        assert!(rt; count.who.0 == 1 || count.who.0 == 2);
        let at = if count.who.0 == 1 { 0 } else { 1 };
        assert_eq!(rt; count.number, next[at]);
        next[at] = count.number.saturating_add(1);
    }
    assert!(rt; next == [100, 100]);
    Ok(())
}
