// What holds of every configuration that a text says, as a function that does nothing and ensures it.

ghost use Rattle.login_conf.specs.Allowed.{ConfsAreAllowed};

/// A configuration that a text says lets there be at most 32768 sessions, and as many locks.
pub fn confs_are_allowed()
    ensures { ConfsAreAllowed }
{}
