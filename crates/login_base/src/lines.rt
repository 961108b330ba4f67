// The lines of a text.

ghost use Rattle.std.specs.Prelude.{◌≡◌, ◌==◌, ◌<◌, ◌∷◌, [], MatchOption, length};
ghost use Rattle.std.specs.List.{position, slice_split};

/// The place of the first line feed.
fn line_end(text: &[u8]) -> Option<usize>
    ensures { result ≡ position (λ b. b == 10) text.now }
{
    text.iter().position(|byte| *byte == b'\n')
}

/// The first line of a text, if a line feed ends it, and what stands behind that.
pub fn first_line(text: &[u8]) -> Option<(&[u8], &[u8])>
    ensures cases { MatchOption result (slice_split (λ b. b == 10) text.now ≡ text.now ∷ [])
        (λ cut. (slice_split (λ b. b == 10) text.now ≡ cut.0.now ∷ slice_split (λ b. b == 10) cut.1.now) × (length cut.1.now < length text.now)) }
{
    match line_end(text) {
        Some(end) => Some((&text[..end], &text[end + 1..])),
        None => None,
    }
}
