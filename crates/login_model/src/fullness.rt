// How full the journal is.

/// A number of the journal that is above its limit, with what each connection's end and the stop may need.
#[derive(Clone, Copy, Debug, PartialEq, Eq)]
pub enum Fullness {
    /// So many entries, more than a journal may have.
    Entries(u64),
    /// So many marks, more than a journal may have.
    Marks(u64),
}
