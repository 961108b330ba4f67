// What is done to the value in one turn.

ghost use Rattle.std.specs.Prelude.{◌≡◌, ◌<◌, ℕ, List};
ghost use Rattle.desk.specs.History.{Appends, StartsWith, of_who};

use crate::journaled::Journaled;
use login_base::ConnId;

/// An act on a value. It appends at most one entry, which is of the connection that it is made for,
/// and it leaves the setup as it is.
pub trait Act<V: Journaled> {
    type Answer;

    // Of the act before, the connection, the setup, the journals before and after, the act after and the answer.
    ghost does: { Self → ℕ → V.Setup → List V.Entry → List V.Entry → Self → Self.Answer → Type 0 };

    // What the act asks of the entries of its connection, where this is above 0.
    ghost may: { Self → List V.Entry → Type 0 };

    // A journal that the value's has to begin with.
    ghost after: { Self → List V.Entry };

    fn act(&mut self, value: &mut V, who: ConnId) -> Self::Answer
        requires may { 0 < who.0 → may self.old (of_who V.who who.0 (V.journal value.old)) }
        requires after { StartsWith (V.journal value.old) (after self.old) }
        ensures setup { V.setup value.new ≡ V.setup value.old }
        ensures appends { Appends V.who who.0 (V.journal value.old) (V.journal value.new) }
        ensures does { does self.old who.0 (V.setup value.old) (V.journal value.old) (V.journal value.new) self.new result };
}
