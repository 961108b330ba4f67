// How lines and words are cut out of a text.

ghost use Rattle.std.specs.Prelude.{◌≡◌, ◌==◌, ◌<◌, ◌+◌, [], ◌∷◌, length, position, IfSome};
ghost use Rattle.std.specs.Option.{option_map, is_some, option_map_or};
ghost use Rattle.std.specs.List.{list_any, before_first, after_first, slice_split};
ghost use Rattle.login_conf.specs.Text.{is_blank, from_first, to_last, trimmed, continued};

/// Whether a byte is a blank: a space or a tab.
fn is_blank(byte: u8) -> bool
    ensures { result ≡ is_blank byte }
{
    byte == b' ' || byte == b'\t'
}

/// A text from its first byte on that is no blank.
fn from_first(text: &[u8]) -> &[u8]
    ensures { result.now ≡ from_first is_blank text.now }
{
    let mut text = text;
    while let Some((first, rest)) = text.split_first() {
        if !is_blank(*first) {
            return text;
        }
        text = rest;
    }
    text
}

/// A text up to its last byte that is no blank.
fn to_last(text: &[u8]) -> &[u8]
    ensures { result.now ≡ to_last is_blank text.now }
{
    let mut text = text;
    while let Some((last, front)) = text.split_last() {
        if !is_blank(*last) {
            return text;
        }
        text = front;
    }
    text
}

/// A text without the blanks at both ends.
pub(crate) fn trimmed(text: &[u8]) -> &[u8]
    ensures { result.now ≡ trimmed text.now }
{
    to_last(from_first(text))
}

/// A line without the backslash that ends it, if it goes on in the next line.
pub(crate) fn continued(line: &[u8]) -> Option<&[u8]>
    ensures { option_map (λ front. front.now) result ≡ continued line.now }
{
    match line.split_last() {
        Some((last, front)) => { if *last == b'\\' { Some(front) } else { None } }
        None => None,
    }
}

/// The place of the first such byte.
fn place_of(text: &[u8], at: u8) -> Option<usize>
    ensures { result ≡ position (λ x. x == at) text.now }
{
    text.iter().position(|byte| *byte == at)
}

/// What stands before the first such byte, and what stands behind it if there is one.
pub(crate) fn cut(text: &[u8], at: u8) -> (&[u8], Option<&[u8]>)
    ensures before { result.0.now ≡ before_first (λ x. x == at) text.now }
    ensures found { is_some result.1 ≡ list_any (λ x. x == at) text.now }
    ensures after { IfSome result.1 (λ rest. rest.now ≡ after_first (λ x. x == at) text.now) }
    ensures shorter { IfSome result.1 (λ rest. length rest.now < length text.now) }
    ensures split { slice_split (λ x. x == at) text.now
        ≡ result.0.now ∷ option_map_or (λ rest. slice_split (λ x. x == at) rest.now) result.1 [] }
{
    match place_of(text, at) {
        Some(place) => (&text[..place], Some(&text[place + 1..])),
        None => (text, None),
    }
}
