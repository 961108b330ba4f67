// What no clause can show: that there is room.

use login_base::{NoMemory, SeatName};
use login_model::{Fact, Key};
use login_table::Table;
use seats_vts::SeatsVts;
use std::process::Abort;

/// The first seat, and its terminal.
fn tell_seats(rt: &impl Abort, seats: &mut SeatsVts) -> Result<(), NoMemory> {
    seats.room(1)?;
    seats.apply(Key::Vt, Fact::Number(2));
    match seats.look(&Key::Vt) {
        Some(fact) => assert!(rt; matches!(fact, Fact::Number(2))),
        None => assert!(rt; false),
    }
    match seats.next::<SeatName>(None) {
        Some(seat) => assert!(rt; seat.as_slice() == b"seat0".as_slice()),
        None => assert!(rt; false),
    }
    assert!(rt; seats.next::<SeatName>(Some(SeatName::SEAT0)).is_none());
    Ok(())
}

#[test]
fn the_first_seat_is_there_from_the_start(rt: HostRuntime) -> Result<(), NoMemory> {
    let mut seats = SeatsVts::new(rt.alloc());
    let told = tell_seats(&rt, &mut seats);
    drop(seats);
    told
}
