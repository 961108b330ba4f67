// Laws of the grammar.

ghost use Rattle.recording.specs.Grammar.{OneGrammar, SpelledAgain};

/// A line is in the grammar exactly where it has no fault.
pub fn one_grammar()
    ensures { OneGrammar }
{}

/// What a line of a recording spells is read as that line.
pub fn spelled_again()
    ensures { SpelledAgain }
{}
