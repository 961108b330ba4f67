// What holds of every link, as functions that do nothing and ensure it.

ghost use Rattle.login_office.specs.Laws.{AllMail, EndedForGood, InAnyPieces};

/// However the bytes come in pieces, what a teller gives is what all of them give: each reply and each call once and in
/// order, that the client begins once, and the end.
pub fn in_any_pieces()
    ensures { InAnyPieces }
{}

/// Behind its end a link gives nothing more, whatever comes.
pub fn ended_for_good()
    ensures { EndedForGood }
{}

/// However often the mail of a link is fetched, all that was given is its mail by the last journal, where each journal
/// goes on from the one before.
pub fn all_mail()
    ensures { AllMail }
{}
