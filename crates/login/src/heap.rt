// How the allocator of the C library gives memory to lists.

use std::alloc::Global;

/// Up to how many bytes a list is among the others, and no mapping of its own. After 80,000 entries lists of 8 bytes an entry
/// are below it, and those of 40 and more above it from 20,000 on; so is the first list of entries (`Journal::reserve`).
const SHARED: usize = 704 << 10;

/// Takes so many bytes and gives them back. The C library (glibc, mallopt(3)) gives each list of 128 KiB or more a mapping
/// of its own, until one of these comes back: from then on only lists that are wider. It takes no memory that stays, and
/// where there is none nothing changes.
pub fn share_mappings(alloc: Global) {
    let mut block: Vec<u8> = Vec::new(alloc);
    let _taken = block.reserve_exact(SHARED);
}
