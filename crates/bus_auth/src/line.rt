// Where a line ends.

ghost use Rattle.std.specs.Prelude.{◌≡◌, ◌≤◌, length, take, MatchOption};
ghost use Rattle.bus_auth.specs.Cutting.{Open, cut, without_cr, IsLeastLength};
ghost use Rattle.bus_auth.specs.inner.Cutting.{IsFirstEnd};

/// The place of the first line's CR LF, if the line is whole. In the first `seen` bytes no CR LF stands.
pub(crate) fn first_end(text: &[u8], seen: usize) -> Option<usize>
    requires within { seen ≤ length text.now }
    requires seen { cut (take seen text.now) ≡ Open (take seen text.now) }
    ensures { MatchOption result (cut text.now ≡ Open text.now) (λ place. IsFirstEnd text.now place) }
{
    for at in seen.max(1)..text.len() {
        if text[at - 1] == b'\r' && text[at] == b'\n' {
            return Some(at - 1);
        }
    }
    None
}

/// How many bytes an open line has at least before its CR LF, of which a CR at its end may be the front.
pub(crate) fn least_length(line: &[u8]) -> usize
    ensures value { result ≡ length (without_cr line.now) }
    ensures least { cut line.now ≡ Open line.now → IsLeastLength line.now result }
{
    match line.split_last() {
        None => 0,
        Some((last, front)) => {
            if *last == b'\r' {
                front.len()
            } else {
                line.len()
            }
        }
    }
}
