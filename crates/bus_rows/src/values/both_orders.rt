// Each fault in each place that can have it, in both orders of bytes. A row is laid out by the rules of reading: the
// bytes of a container up to a value, so that the value's offset is known, and a fault of this value.

mod ends;
mod lengths;
mod padding;
mod short;
mod texts;

use super::is_told;
use bus_value::{Order, ValueFault};
use std::alloc::Global;

/// A signature, an offset, bytes from there on that spell no values of it, in little and in big order, and their fault.
pub(super) type Both = (
    &'static [u8],
    usize,
    &'static [u8],
    &'static [u8],
    ValueFault,
);

/// Whether reading the bytes of both orders ends with this fault.
fn is_told_in_both(alloc: Global, case: Both) -> bool {
    let (signature, start, little, big, fault) = case;
    is_told(alloc, (signature, Order::Little, start, little, fault))
        && is_told(alloc, (signature, Order::Big, start, big, fault))
}

/// Whether each of these ends with its fault.
fn are_told(alloc: Global, cases: &[Both]) -> bool {
    cases.iter().all(|case| is_told_in_both(alloc, *case))
}

#[test]
fn short_values_are_told(rt: HostRuntime) {
    assert!(rt; are_told(rt.alloc(), &short::SHORT_A));
}

#[test]
fn short_containers_are_told(rt: HostRuntime) {
    assert!(rt; are_told(rt.alloc(), &short::SHORT_B));
}

#[test]
fn short_lengths_are_told(rt: HostRuntime) {
    assert!(rt; are_told(rt.alloc(), &short::SHORT_LENGTH));
}

#[test]
fn short_padding_is_told(rt: HostRuntime) {
    assert!(rt; are_told(rt.alloc(), &short::SHORT_PADDING));
}

#[test]
fn padding_in_front_of_numbers_is_told(rt: HostRuntime) {
    assert!(rt; are_told(rt.alloc(), &padding::PADDING_A));
}

#[test]
fn padding_in_front_of_containers_is_told(rt: HostRuntime) {
    assert!(rt; are_told(rt.alloc(), &padding::PADDING_B));
}

#[test]
fn padding_between_elements_is_told(rt: HostRuntime) {
    assert!(rt; are_told(rt.alloc(), &padding::PADDING_BETWEEN));
}

#[test]
fn padding_in_front_of_elements_is_told(rt: HostRuntime) {
    assert!(rt; are_told(rt.alloc(), &padding::GAPS));
}

#[test]
fn booleans_of_two_are_told(rt: HostRuntime) {
    assert!(rt; are_told(rt.alloc(), &texts::BOOLEANS));
}

#[test]
fn texts_in_containers_are_told(rt: HostRuntime) {
    assert!(rt; are_told(rt.alloc(), &texts::TEXTS_A));
}

#[test]
fn more_texts_in_containers_are_told(rt: HostRuntime) {
    assert!(rt; are_told(rt.alloc(), &texts::TEXTS_B));
}

#[test]
fn variants_of_no_type_are_told(rt: HostRuntime) {
    assert!(rt; are_told(rt.alloc(), &texts::VARIANTS));
}

#[test]
fn small_values_that_pass_an_array_are_told(rt: HostRuntime) {
    assert!(rt; are_told(rt.alloc(), &ends::PASSING_SMALL));
}

#[test]
fn numbers_that_pass_an_array_are_told(rt: HostRuntime) {
    assert!(rt; are_told(rt.alloc(), &ends::PASSING_NUMBERS));
}

#[test]
fn texts_that_pass_an_array_are_told(rt: HostRuntime) {
    assert!(rt; are_told(rt.alloc(), &ends::PASSING_TEXTS));
}

#[test]
fn containers_that_pass_an_array_are_told(rt: HostRuntime) {
    assert!(rt; are_told(rt.alloc(), &ends::PASSING_CONTAINERS));
}

#[test]
fn lengths_that_pass_an_array_are_told(rt: HostRuntime) {
    assert!(rt; are_told(rt.alloc(), &lengths::PASSING_LENGTH));
}

#[test]
fn padding_that_passes_an_array_is_told(rt: HostRuntime) {
    assert!(rt; are_told(rt.alloc(), &lengths::PASSING_PADDING));
}

#[test]
fn lengths_above_the_limit_are_told(rt: HostRuntime) {
    assert!(rt; are_told(rt.alloc(), &lengths::LENGTHS));
}

#[test]
fn lengths_not_filled_are_told(rt: HostRuntime) {
    assert!(rt; are_told(rt.alloc(), &lengths::UNFILLED));
}
