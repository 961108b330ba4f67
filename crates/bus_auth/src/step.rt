// What a piece of a handshake leads to.

use crate::table::Ending;
use login_base::Bytes;

/// How far a handshake is.
#[derive(Drop)]
pub enum AuthState {
    /// It goes on.
    Going,
    /// The client is accepted and began. These bytes came behind its BEGIN.
    Begun(Bytes),
    /// It ended with no connection.
    Ended(Ending),
}

/// What a piece led to.
#[derive(Drop)]
pub struct AuthStep {
    /// What is to be sent to the client.
    pub replies: Bytes,
    pub state: AuthState,
}
