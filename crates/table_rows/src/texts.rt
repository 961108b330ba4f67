// What no clause can show: texts of ids and seats, and that the calls succeed.

use login_base::{NoMemory, SeatName, SessId};

#[test]
fn texts_of_ids_and_seats(rt: HostRuntime) -> Result<(), NoMemory> {
    let alloc = rt.alloc();
    assert!(rt; SeatName::read(b"sea").is_err());
    let seat = match SeatName::read(b"seat-1") {
        Ok(seat) => seat,
        Err(_) => return Err(NoMemory),
    };
    assert!(rt; seat.as_slice() == b"seat-1".as_slice());
    assert!(rt; seat.label(alloc)?.as_slice() == b"seat_2d1".as_slice());
    assert!(rt; SessId(7).text(alloc)?.as_slice() == b"c7".as_slice());
    assert!(rt; SessId::read(b"c7") == Some(SessId(7)));
    Ok(())
}
