// What a line brings about on its link.

use login_base::{Bytes, ConnId};
use login_office::LinkEnd;

/// What a line brought about on the link that it is of, beside its entries.
#[derive(Drop)]
pub struct Own {
    pub who: ConnId,
    /// What is to be sent to the client of its handshake.
    pub replies: Bytes,
    /// How the link has ended by this line, if it has.
    pub end: Option<LinkEnd>,
}
