// Devices: how sessions take them, what clients do with their handles, and how they come and go.

mod listening;
mod many;
mod recorded;

use crate::running::{accept_cases, answer_cases};
use login_cases::devices::{closing, denials, ending, pausing, plugging, seats, switching};
use std::test::Fail;

#[test]
fn handles_are_closed(rt: HostRuntime) -> Result<(), Fail> {
    accept_cases(&rt, rt.alloc(), &closing::CASES)
}

#[test]
fn devices_are_taken_once(rt: HostRuntime) -> Result<(), Fail> {
    accept_cases(&rt, rt.alloc(), &denials::CASES)
}

#[test]
fn each_rule_on_devices_denies(rt: HostRuntime) -> Result<(), Fail> {
    answer_cases(&rt, rt.alloc(), &denials::ANSWERED)
}

#[test]
fn sessions_end_with_their_pauses(rt: HostRuntime) -> Result<(), Fail> {
    accept_cases(&rt, rt.alloc(), &ending::CASES)
}

#[test]
fn pauses_are_acknowledged(rt: HostRuntime) -> Result<(), Fail> {
    accept_cases(&rt, rt.alloc(), &pausing::CASES)
}

#[test]
fn devices_go_and_come_back(rt: HostRuntime) -> Result<(), Fail> {
    accept_cases(&rt, rt.alloc(), &plugging::CASES)
}

#[test]
fn seats_have_no_terminals(rt: HostRuntime) -> Result<(), Fail> {
    accept_cases(&rt, rt.alloc(), &seats::CASES)
}

#[test]
fn sessions_switch(rt: HostRuntime) -> Result<(), Fail> {
    accept_cases(&rt, rt.alloc(), &switching::CASES)
}
