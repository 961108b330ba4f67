// What is wrong with a line.

/// What is wrong with a line. A line has one cause at most.
#[derive(Clone, Copy, Debug, PartialEq, Eq)]
pub enum ConfFault {
    /// It stands before any section.
    BeforeSections,
    /// It opens another section than `[Login]`.
    OtherSection,
    /// It assigns to a key that is not known.
    UnknownKey,
    /// The value is none that the key can have.
    BadValue,
    /// It has no `=`.
    NoEqualsSign,
}

/// What is wrong with a line, and which line it is, counted from 1: of a line that goes on in others, the first.
#[derive(Clone, Copy, Debug, PartialEq, Eq)]
pub struct Diagnostic {
    pub line: u64,
    pub cause: ConfFault,
}
