//! The types of a login manager's journal, and the definitions of what is legal in it: who is where,
//! the policy, the marks of each event, and when a journal is legal.
#![tactic(auto)]

mod action;
mod answer;
mod boxed;
mod call;
mod conf;
mod device_fact;
mod event;
mod fact;
mod fullness;
mod hardware;
mod inputs;
mod journal;
mod lock;
mod look;
mod mark;
mod named;
mod object;
mod operation;
mod paths;
mod property;
mod rule;
mod same;
mod session;
mod setup;
mod standing;
mod start;
mod state;
mod table;

pub use action::{Action, PowerAction, Qualifier};
pub use answer::{Answer, Created, Input, KnownUser, SessionRow};
pub use boxed::{Boxed, Slot};
pub use call::{Call, Creation, Inhibition, LONGEST_CALL_TEXT, PropertyName};
pub use conf::{Conf, KeyAction};
pub use device_fact::is_this_seat;
pub use event::{Event, Request};
pub use fact::{Fact, Key, Owner};
pub use fullness::Fullness;
pub use hardware::{DevKind, HardKey, Hardware};
pub use inputs::Inputs;
pub use journal::Journal;
pub use lock::{Inhibited, Lock, LockMode};
pub use look::Look;
pub use mark::{Entry, Mark, Notice, PauseKind, Whom};
pub use named::NamedSession;
pub use object::{Object, is_object, named_object};
pub use operation::{OpKind, Operation};
pub use paths::{
    MANAGER_INTERFACE, MANAGER_PATH, PROPERTIES_INTERFACE, SEAT_FRONT, SEAT_INTERFACE,
    SESSION_FRONT, SESSION_INTERFACE, USER_FRONT, USER_INTERFACE,
};
pub use property::{
    ManagerProperty, Property, PropertyRow, PropertyValue, SeatProperty, SessionProperty,
    UserProperty,
};
pub use rule::{Limit, MOST_DEVICES, MOST_LINKS, MOST_TAKEN, Rule, Verdict};
pub use same::{is_same_fact, is_same_key};
pub use session::{Class, KillWhom, Phase, Session, SessionTexts, SessionType};
pub use setup::{Setup, UserRow};
pub use standing::Standing;
pub use start::StartFacts;
pub use state::State;
pub use table::{Row, Say, Table};
