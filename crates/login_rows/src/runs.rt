// Whole runs: what is listed, what rules deny, how sessions live, and which lines are refused.

use crate::running::{accept_case, accept_cases, answer_cases, compare, refuse_cases};
use login_cases::{
    answers, configuration, denials, places, refusals, rules, session_lives, terminals,
};
use std::test::Fail;

#[test]
fn lists_are_in_order(rt: HostRuntime) -> Result<(), Fail> {
    answer_cases(&rt, rt.alloc(), &answers::ANSWERED)
}

#[test]
fn each_rule_denies(rt: HostRuntime) -> Result<(), Fail> {
    answer_cases(&rt, rt.alloc(), &denials::ANSWERED)
}

#[test]
fn configurations_are_read(rt: HostRuntime) -> Result<(), Fail> {
    accept_cases(&rt, rt.alloc(), &configuration::CASES)
}

#[test]
fn configurations_are_refused(rt: HostRuntime) -> Result<(), Fail> {
    refuse_cases(&rt, rt.alloc(), &configuration::REFUSED)
}

#[test]
fn sessions_live(rt: HostRuntime) -> Result<(), Fail> {
    accept_cases(&rt, rt.alloc(), &session_lives::CASES)
}

#[test]
fn terminals_take_turns(rt: HostRuntime) -> Result<(), Fail> {
    accept_case(&rt, rt.alloc(), &terminals::TURNING)
}

#[test]
fn lines_are_refused(rt: HostRuntime) -> Result<(), Fail> {
    refuse_cases(&rt, rt.alloc(), &refusals::REFUSED)
}

#[test]
fn lines_have_their_places(rt: HostRuntime) -> Result<(), Fail> {
    refuse_cases(&rt, rt.alloc(), &places::REFUSED)
}

#[test]
fn lines_are_in_their_places(rt: HostRuntime) -> Result<(), Fail> {
    accept_case(&rt, rt.alloc(), &places::ACCEPTED)
}

#[test]
fn who_may_have_a_session(rt: HostRuntime) -> Result<(), Fail> {
    accept_cases(&rt, rt.alloc(), &rules::CASES)
}

#[test]
fn texts_have_one_spelling(rt: HostRuntime) -> Result<(), Fail> {
    compare(
        &rt,
        rt.alloc(),
        rules::SPELLING.0.as_bytes(),
        rules::SPELLING.1.as_bytes(),
        2,
        "line 7: bad-hex\n",
    )
}
