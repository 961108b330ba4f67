// Who asks, in the eyes of the policy.

/// How a connection stands to the machine's seats.
#[derive(Clone, Copy, PartialEq, Eq)]
pub enum Standing {
    /// Its user is root.
    Root,
    /// An open session of its user is active on its seat.
    Active,
    /// An open session of its user has a seat.
    Inactive,
    /// None of these.
    Any,
}
