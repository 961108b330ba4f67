// The numbers by which the machine's parts are known.

/// A user's number, as uid_t of POSIX.
#[derive(Clone, Copy, PartialEq, Eq)]
pub struct Uid(pub u32);

/// A connection's number, which is also the process number of its client. Number 0 is the machine
/// itself: its hardware, its clock and its stop.
#[derive(Clone, Copy, Debug, PartialEq, Eq)]
pub struct ConnId(pub u32);

/// An inhibitor lock's number, counted from 1.
#[derive(Clone, Copy, Debug, PartialEq, Eq)]
pub struct LockNo(pub u32);

/// The number of a handle of the modelled machine, counted from 1. It stands where
/// org.freedesktop.login1(5) passes a file descriptor.
#[derive(Clone, Copy, PartialEq, Eq)]
pub struct HandleNo(pub u32);

/// A moment or a span, in milliseconds.
#[derive(Clone, Copy, Debug, PartialEq, Eq)]
pub struct Millis(pub u64);

/// A device's number, as in dev_t of POSIX.
#[derive(Clone, Copy, PartialEq, Eq)]
pub struct DevNo {
    pub major: u32,
    pub minor: u32,
}

/// A session's number, counted from 1. Its id is `c` and this number.
#[derive(Clone, Copy, Debug, PartialEq, Eq)]
pub struct SessId(pub u32);
