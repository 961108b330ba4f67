// Taking the first bytes of a buffer away.

ghost use Rattle.std.specs.Prelude.{◌≡◌, ◌≤◌, length, drop};

use std::alloc::Global;

/// Takes the first bytes away. It takes no memory, and no time for each byte where these are all, or none; where
/// these are all, the buffer's memory is given back.
pub fn drop_front(alloc: Global, bytes: &mut Vec<u8>, count: usize)
    requires { count ≤ length bytes.old.items }
    ensures { bytes.new.items ≡ drop count bytes.old.items }
{
    if count == 0 {
        return;
    }
    if count == bytes.len() {
        *bytes = Vec::new(alloc);
        return;
    }
    bytes.rotate_left(count);
    let left = bytes.len() - count;
    bytes.truncate(left);
}
