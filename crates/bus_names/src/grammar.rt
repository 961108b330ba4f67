// How names are read: byte by byte, with the place that is reached in a name.

ghost use Rattle.std.specs.Prelude.{◌≡◌, ◌≤◌, ◌<◌, ◌+◌, ◌^◌, length};
ghost use Rattle.login_base.specs.Names.{is_digit, is_word_byte};
ghost use Rattle.bus_names.specs.Grammar.{stands, begins, separator, repeats, next, wanted, is_path, fits, step, fault_from};
ghost use Rattle.bus_names.specs.inner.Grammar.{start};

/// The longest name, in bytes, unless it is a path.
const MOST_BYTES: usize = 255;

/// The kinds of names.
#[derive(Clone, Copy, PartialEq, Eq)]
pub enum Grammar {
    Path,
    Interface,
    Member,
    /// The name of a connection that is no unique one.
    WellKnown,
    /// A unique name, behind its colon.
    Unique,
}

/// What was read of a name.
#[derive(Clone, Copy, PartialEq, Eq)]
pub enum Place {
    /// Nothing of a path.
    Slash,
    /// The first slash of a path.
    Root,
    /// Nothing of a name that has two elements or more.
    First,
    /// A part of the first element, where a second one has to follow.
    Opening,
    /// All in front of an element.
    Gap,
    /// A part of an element that may be the last one.
    Last,
}

fn is_word_byte(byte: u8) -> bool
    ensures { result ≡ is_word_byte byte }
{
    matches!(byte, b'a'..=b'z' | b'A'..=b'Z' | b'0'..=b'9' | b'_')
}

/// Whether a byte may stand in an element.
fn may_stand(grammar: Grammar, byte: u8) -> bool
    ensures { result ≡ stands grammar byte }
{
    match grammar {
        Grammar::WellKnown | Grammar::Unique => is_word_byte(byte) || byte == b'-',
        Grammar::Path | Grammar::Interface | Grammar::Member => is_word_byte(byte),
    }
}

/// Whether a byte may begin an element.
fn may_begin(grammar: Grammar, byte: u8) -> bool
    ensures { result ≡ begins grammar byte }
{
    match grammar {
        Grammar::Path | Grammar::Unique => may_stand(grammar, byte),
        Grammar::Interface | Grammar::Member | Grammar::WellKnown => {
            may_stand(grammar, byte) && !byte.is_ascii_digit()
        }
    }
}

/// The byte between two elements.
fn separator(grammar: Grammar) -> u8
    ensures { result ≡ separator grammar }
{
    match grammar {
        Grammar::Path => b'/',
        _ => b'.',
    }
}

/// Whether an element may follow the last one.
fn repeats(grammar: Grammar) -> bool
    ensures { result ≡ repeats grammar }
{
    !matches!(grammar, Grammar::Member)
}

/// Where a reading begins.
fn start(grammar: Grammar) -> Place
    ensures { result ≡ start grammar }
{
    match grammar {
        Grammar::Path => Place::Slash,
        Grammar::Member => Place::Gap,
        Grammar::Interface | Grammar::WellKnown | Grammar::Unique => Place::First,
    }
}

/// The place behind one more byte.
fn next(grammar: Grammar, place: Place, byte: u8) -> Option<Place>
    ensures { result ≡ next grammar place byte }
{
    match place {
        Place::Slash => (byte == b'/').then_some(Place::Root),
        Place::Root | Place::Gap => may_begin(grammar, byte).then_some(Place::Last),
        Place::First => may_begin(grammar, byte).then_some(Place::Opening),
        Place::Opening if may_stand(grammar, byte) => Some(Place::Opening),
        Place::Opening => (byte == separator(grammar)).then_some(Place::Gap),
        Place::Last if may_stand(grammar, byte) => Some(Place::Last),
        Place::Last => { (byte == separator(grammar) && repeats(grammar)).then_some(Place::Gap) }
    }
}

/// How many more bytes a name needs at least.
fn wanted(place: Place) -> usize
    ensures { result ≡ wanted place }
{
    match place {
        Place::Root | Place::Last => 0,
        Place::Slash | Place::Gap => 1,
        Place::Opening => 2,
        Place::First => 3,
    }
}

/// Whether a name may have so many bytes. A path may have any number.
fn fits(grammar: Grammar, count: usize) -> bool
    ensures { result ≡ fits grammar count }
{
    matches!(grammar, Grammar::Path) || count <= MOST_BYTES
}

/// The place behind the byte at an offset, where a name can still follow.
fn step(grammar: Grammar, offset: usize, place: Place, byte: u8) -> Option<Place>
    requires { offset < 2 ^ 63 }
    ensures { result ≡ step grammar offset place byte }
{
    match next(grammar, place, byte) {
        Some(place) if fits(grammar, offset + 1 + wanted(place)) => Some(place),
        _ => None,
    }
}

/// The offset of the fault of a text that begins at an offset, where it has one.
pub fn fault_from(grammar: Grammar, offset: usize, text: &[u8]) -> Option<usize>
    requires { offset + length text.now < 2 ^ 63 }
    ensures { result ≡ fault_from grammar offset (start grammar) text.now }
{
    let mut place = start(grammar);
    let mut at = offset;
    for byte in text {
        place = match step(grammar, at, place, *byte) {
            Some(place) => place,
            None => return Some(at),
        };
        at += 1;
    }
    if wanted(place) == 0 { None } else { Some(at) }
}
