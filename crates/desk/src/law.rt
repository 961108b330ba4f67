// What holds of every history, as a function that does nothing and ensures it.

ghost use Rattle.desk.specs.SameEntries.{EachCarries, SameEntries};

use crate::journaled::Journaled;

/// Where the entries that carry a pass's number are those of its connection, as at each of its turns
/// and at the close for a connection above 0, they are so in each front of the history, and each
/// entry of the connection carries the number.
pub fn same_entries<V: Journaled>()
    ensures fronts { SameEntries V.who }
    ensures each { EachCarries V.who }
{}
