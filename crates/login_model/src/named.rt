// The session that a call names by its id.

ghost use Rattle.std.specs.Prelude.{◌≡◌};
ghost use Rattle.login_base.specs.SessionId.{session_of};

use login_base::{SessId, Word};
use std::marker::Model;

/// A session as a client names it: a text, which is read as an id once, when it is given.
#[derive(Drop)]
pub struct NamedSession {
    text: Word,
    session: Option<SessId>,
}

impl Model for NamedSession {
    ghost use Rattle.std.specs.Prelude.{List, ℕ, ◌≡◌};
    ghost use Rattle.login_base.specs.SessionId.{session_of};

    ghost Value = { List ℕ };

    ghost view = { λ n. n.text };

    ghost invariant = { λ n. n.session ≡ session_of n.text };
}

impl NamedSession {
    /// The session that a text names. It takes no memory.
    pub fn new(text: Word) -> NamedSession
        ensures { result ≡ text }
    {
        let session = SessId::read(text.as_slice());
        NamedSession { text, session }
    }

    /// The text, as the client wrote it.
    pub fn text(&self) -> &Word
        ensures { result.now ≡ self.now }
    {
        &self.text
    }

    /// The session whose id the text is, whether there is one or not; none where it is no id.
    pub fn session(&self) -> Option<SessId>
        ensures { result ≡ session_of self.now }
    {
        self.session
    }
}
