// The two orders of bytes.

/// The order of the bytes in a number.
#[derive(Clone, Copy, PartialEq, Eq)]
pub enum Order {
    /// The lowest byte first.
    Little,
    /// The highest byte first.
    Big,
}
