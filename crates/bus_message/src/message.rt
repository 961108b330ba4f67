// Messages.

use bus_names::{BusName, Interface, Member, ObjectPath};
use bus_value::{Order, Values};

/// A message of the D-Bus Specification ("Message Format"). Its kind is 1 for a method call, 2 for a method's return, 3
/// for an error and 4 for a signal; others are kept as they come, and so are the flags.
#[derive(Drop)]
pub struct Message {
    /// The order of bytes that it is written in.
    pub order: Order,
    pub kind: u8,
    pub flags: u8,
    pub serial: u32,
    pub path: Option<ObjectPath>,
    pub interface: Option<Interface>,
    pub member: Option<Member>,
    /// The name of the error that it tells.
    pub error: Option<Interface>,
    /// The serial of the message that it answers.
    pub reply_to: Option<u32>,
    pub destination: Option<BusName>,
    pub sender: Option<BusName>,
    /// The arguments.
    pub body: Values,
}
