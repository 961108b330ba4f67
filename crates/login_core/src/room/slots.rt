// Memory for the seat of a device, made before the device comes.

use login_base::{NoMemory, SeatName};
use login_model::Slot;
use std::alloc::Global;

/// Memory for the seat of a device that comes: for its mark and for its fact.
#[derive(Drop)]
pub struct SeatSlots {
    pub mark: Slot<SeatName>,
    pub fact: Slot<SeatName>,
}

impl SeatSlots {
    /// Memory for two seats.
    pub fn new(alloc: Global) -> Result<SeatSlots, NoMemory> {
        Ok(SeatSlots {
            mark: Slot::new(alloc)?,
            fact: Slot::new(alloc)?,
        })
    }
}
