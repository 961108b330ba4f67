// How a text is looked at, each byte once: in blocks of 64 bytes, and a short one byte by byte as long as it is plain.

ghost use Rattle.std.specs.Prelude.{◌≡◌, ◌≤◌, ◌<◌, ◌+◌, ◌-◌, ◌++◌, ◌↔◌, length, drop, replicate, IsTrue};
ghost use Rattle.std.specs.List.{prefix_len};
ghost use Rattle.login_base.specs.Texts.{has_no_zero, is_text};
ghost use Rattle.bus_value.specs.inner.PlainText.{is_plain};

use simdutf8::Checker;
use std::simd::prelude::*;

/// From so many bytes on a block costs less than its bytes one by one.
const SHORT: usize = 20;

/// Whether a text is UTF-8 with no zero byte.
pub fn is_text(text: &[u8]) -> bool
    ensures { result ≡ is_text text.now }
{
    if text.len() >= SHORT {
        return is_text_by_blocks(text);
    }
    let rest = &text[plain_front(text)..];
    rest.is_empty() || is_text_by_blocks(rest)
}

/// How many bytes in front are ASCII and not zero.
fn plain_front(text: &[u8]) -> usize
    ensures value { result ≡ prefix_len is_plain text.now }
    ensures within { result ≤ length text.now }
{
    text.iter()
        .take_while(|byte| 0 < **byte && **byte < 0x80)
        .count()
}

/// The same as `is_text`, in blocks alone.
fn is_text_by_blocks(text: &[u8]) -> bool
    ensures { result ≡ is_text text.now }
{
    let mut checker = Checker::new();
    let mut at = 0;
    while text.len() - at >= 64 {
        let block = u8x64::from_slice(&text[at..]);
        if !has_no_zero(block) {
            return false;
        }
        checker = checker.step(block);
        at += 64;
    }
    let last = last_block(text, at);
    has_no_zero(last) && checker.step(last).finish()
}

/// The bytes from a place on, and ones behind them.
fn last_block(text: &[u8], at: usize) -> u8x64
    requires { (at ≤ length text.now) × (length text.now < at + 64) }
    ensures { result ≡ drop at text.now ++ replicate (64 - (length text.now - at)) 1 }
{
    let rest = &text[at..];
    let mut block = [1; 64];
    block[..rest.len()].copy_from_slice(rest);
    u8x64::from_array(block)
}

/// Whether no byte of a block is zero.
fn has_no_zero(block: u8x64) -> bool
    ensures { IsTrue result ↔ IsTrue (has_no_zero block) }
{
    block.simd_eq(u8x64::splat(0)).to_bitmask() == 0
}
