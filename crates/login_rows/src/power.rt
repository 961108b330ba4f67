// Inhibitor locks, operations on the machine, and the keys that ask for them.

use crate::running::{accept_case, accept_cases, answer_cases};
use login_cases::power::{asking, evening, keys, kinds, locks, set_keys, shutdown, waiting};
use std::test::Fail;

#[test]
fn operations_are_asked_for(rt: HostRuntime) -> Result<(), Fail> {
    accept_cases(&rt, rt.alloc(), &asking::CASES)
}

#[test]
fn users_can_ask(rt: HostRuntime) -> Result<(), Fail> {
    answer_cases(&rt, rt.alloc(), &asking::ANSWERED)
}

#[test]
fn an_evening(rt: HostRuntime) -> Result<(), Fail> {
    accept_case(&rt, rt.alloc(), &evening::EVENING)
}

#[test]
fn keys_bring_about_operations(rt: HostRuntime) -> Result<(), Fail> {
    accept_cases(&rt, rt.alloc(), &keys::CASES)
}

#[test]
fn locks_hold_up_their_kind(rt: HostRuntime) -> Result<(), Fail> {
    accept_cases(&rt, rt.alloc(), &kinds::CASES)
}

#[test]
fn locks_are_offered(rt: HostRuntime) -> Result<(), Fail> {
    accept_cases(&rt, rt.alloc(), &locks::CASES)
}

#[test]
fn each_word_of_a_lock_is_judged(rt: HostRuntime) -> Result<(), Fail> {
    answer_cases(&rt, rt.alloc(), &locks::ANSWERED)
}

#[test]
fn keys_do_what_they_are_set_to(rt: HostRuntime) -> Result<(), Fail> {
    accept_cases(&rt, rt.alloc(), &set_keys::CASES)
}

#[test]
fn a_shutdown_is_delayed(rt: HostRuntime) -> Result<(), Fail> {
    accept_case(&rt, rt.alloc(), &shutdown::SHUTDOWN)
}

#[test]
fn operations_wait(rt: HostRuntime) -> Result<(), Fail> {
    accept_cases(&rt, rt.alloc(), &waiting::CASES)
}
