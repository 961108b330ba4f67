// A count that objects in memory share.

use login_base::NoMemory;
use std::alloc::Global;
use std::boxed::Box;
use std::sync::atomic::{AtomicU64, Ordering};

/// A count of rings that several objects share, in any threads. It is kept until the program ends.
#[derive(Drop)]
pub struct Bell {
    rings: &'static AtomicU64,
}

impl Bell {
    /// A bell that was not rung yet.
    pub fn new(alloc: Global) -> Result<Bell, NoMemory> {
        let rings = Box::new(alloc, AtomicU64::new(0))?;
        Ok(Bell {
            rings: Box::leak(rings),
        })
    }

    /// The same bell. It takes no memory.
    pub fn share(&self) -> Bell {
        Bell { rings: self.rings }
    }

    /// Rings it once more.
    pub fn ring(&self) {
        self.rings.fetch_add(1, Ordering::SeqCst);
    }

    /// How often it was rung.
    pub fn rings(&self) -> u64 {
        self.rings.load(Ordering::SeqCst)
    }
}

/// Rings the bell, if there is one.
pub(crate) fn ring(bell: &Option<Bell>) {
    if let Some(bell) = bell {
        bell.ring();
    }
}
