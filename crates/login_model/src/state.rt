// What state sessions and users are in.

/// The state of a session or a user (sd-login(3)).
#[derive(Clone, Copy, PartialEq, Eq)]
pub enum State {
    /// A session is active on its seat, or open without one; a user has such a session.
    Active,
    /// A session is open; a user has such a session.
    Online,
    /// A user has no open session, and lingers.
    Lingering,
    /// A session is closing; a user has no open session.
    Closing,
}

impl State {
    ghost use Rattle.std.specs.Prelude.{◌≡◌};
    ghost use Rattle.login_model.specs.Words.{state_word};

    /// The word for the state.
    pub fn name(self) -> &'static [u8]
        ensures { result.now ≡ state_word self }
    {
        match self {
            State::Active => b"active",
            State::Online => b"online",
            State::Lingering => b"lingering",
            State::Closing => b"closing",
        }
    }
}
