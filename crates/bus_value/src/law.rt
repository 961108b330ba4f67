// Laws of the grammar.

ghost use Rattle.bus_value.specs.Laws.{OneSpelling, OneReading, SpellingLength, HasSpelling, FewParts, AlwaysEnds};

/// Values have one spelling at one place.
pub fn one_spelling()
    ensures { OneSpelling }
{}

/// No two value lists have the same spelling under one signature.
pub fn one_reading()
    ensures { OneReading }
{}

/// A spelling ends where its values end.
pub fn spelling_length()
    ensures { SpellingLength }
{}

/// Values have a spelling exactly where they are of their types and within the limits.
pub fn has_spelling()
    ensures { HasSpelling }
{}

/// Values that bytes spell under a signature have at most 33 parts for each of the bytes.
pub fn few_parts()
    ensures { FewParts }
{}

/// A reading of the types of a signature is defined to end with the values or with a fault of the bytes, and
/// never with want of memory.
pub fn always_ends()
    ensures { AlwaysEnds }
{}
