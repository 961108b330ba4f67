// Gates in memory, through the bound of their trait.

use login_base::{ConnId, NoMemory};
use login_edge::{Gate, HoldGate, Leave, OpenGate};

fn ask_once<G: Gate + Sync>(gate: &G, who: u32, n: u32) -> Leave {
    gate.pass(ConnId(who), n)
}

#[test]
fn gates_hold_what_they_are_to(rt: HostRuntime) -> Result<(), NoMemory> {
    let open = OpenGate::new();
    open.answered(ConnId(1), 1);
    assert!(rt; ask_once(&open, 1, 1) == Leave::Go);
    let gate = HoldGate::new((ConnId(1), 2), (ConnId(2), 1))?;
    for (who, n, leave) in [(1, 1, Leave::Go), (1, 2, Leave::Hold), (2, 1, Leave::Go)] {
        assert!(rt; ask_once(&gate, who, n) == leave);
    }
    for (who, n, leave) in [(1, 1, Leave::Hold), (2, 2, Leave::Hold), (2, 1, Leave::Go)] {
        gate.answered(ConnId(who), n);
        assert!(rt; ask_once(&gate, 1, 2) == leave);
    }
    Ok(())
}

#[test]
fn gate_lets_go_in_the_end(rt: HostRuntime) -> Result<(), NoMemory> {
    let gate = HoldGate::at_most(2, (ConnId(1), 2), (ConnId(2), 1))?;
    for leave in [Leave::Hold, Leave::Hold, Leave::Go, Leave::Go] {
        assert!(rt; ask_once(&gate, 1, 2) == leave);
    }
    Ok(())
}
