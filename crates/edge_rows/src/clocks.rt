// A clock in memory, through the bound of its trait.

use login_base::{Items, Millis, NoMemory};
use login_edge::{Bell, Clock, MemClock, Reading};
use std::alloc::Global;

/// A clock of two readings, whose second call fails.
fn clock(alloc: Global, bell: &Bell) -> Result<MemClock, NoMemory> {
    let readings = Items::from_vec(Vec::from_slice(alloc, &[Millis(5), Millis(3)])?);
    let fails = Items::from_vec(Vec::from_slice(alloc, &[2])?);
    MemClock::new(alloc, readings, fails, Some(bell.share()))
}

fn read_once<C: Clock>(clock: &mut C) -> Reading {
    clock.now()
}

const READINGS: [Reading; 4] = [
    Reading::At(Millis(5)),
    Reading::Failed,
    Reading::At(Millis(3)),
    Reading::At(Millis(3)),
];

#[test]
fn clock_gives_its_readings(rt: HostRuntime) -> Result<(), NoMemory> {
    let alloc = rt.alloc();
    let bell = Bell::new(alloc)?;
    let mut clock = clock(alloc, &bell)?;
    for reading in READINGS {
        assert!(rt; read_once(&mut clock) == reading);
    }
    assert!(rt; bell.rings() == 1);
    Ok(())
}
