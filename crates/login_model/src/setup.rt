// What the machine is like before the first event.

ghost use Rattle.std.specs.Prelude.{◌≡◌};
ghost use Rattle.login_model.specs.Users.{group_among, name_among};

use crate::conf::Conf;
use crate::table::Table;
use login_base::{Bytes, Items, Uid, Word};

/// A user of the machine, as a line of passwd(5) has it.
#[derive(Drop)]
pub struct UserRow {
    pub uid: Uid,
    pub gid: u32,
    /// At most 255 bytes of UTF-8 without NUL; it may be empty.
    pub name: Word,
}

/// The machine before the first event: who it is, its users, its configuration and its policy. Root,
/// with number 0, is always one beside the users.
#[derive(Drop)]
pub struct Setup {
    /// The identity of the server: 32 hex digits in lower case.
    pub guid: Word,
    pub users: Items<UserRow>,
    pub conf: Conf,
    /// The text that the configuration was read from, by whole lines.
    pub conf_text: Bytes,
    pub table: Table,
    /// The text that the policy was read from, by whole lines.
    pub table_text: Bytes,
}

/// The name of the first of these users that has the number.
fn name_among(users: &[UserRow], uid: u32) -> &[u8]
    ensures { result.now ≡ name_among users.now uid }
{
    for user in users {
        if user.uid.0 == uid {
            return user.name.as_slice();
        }
    }
    b"".as_slice()
}

/// The group of the first of these users that has the number.
fn group_among(users: &[UserRow], uid: u32) -> u32
    ensures { result ≡ group_among users.now uid }
{
    for user in users {
        if user.uid.0 == uid {
            return user.gid;
        }
    }
    0
}

impl Setup {
    ghost use Rattle.std.specs.Prelude.{◌≡◌};
    ghost use Rattle.login_model.specs.Users.{user_group, user_name};

    /// The name of a user; root's is known without, and who is none has the empty one.
    pub fn user_name(&self, uid: u32) -> &[u8]
        ensures { result.now ≡ user_name self.now uid }
    {
        if uid == 0 {
            b"root".as_slice()
        } else {
            name_among(self.users.as_slice(), uid)
        }
    }

    /// The group of a user; that of root, and of who is none, is 0.
    pub fn user_group(&self, uid: u32) -> u32
        ensures { result ≡ user_group self.now uid }
    {
        if uid == 0 {
            0
        } else {
            group_among(self.users.as_slice(), uid)
        }
    }
}
