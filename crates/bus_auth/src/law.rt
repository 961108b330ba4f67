// What holds of every handshake, as functions that do nothing and ensure it.

ghost use Rattle.bus_auth.specs.Laws.{EndedForGood, InAnyPieces, LeastLength, LinesOfText};

/// However the bytes come in pieces, the replies and the state are those of the table run over the lines of all bytes.
pub fn in_any_pieces()
    ensures { InAnyPieces }
{}

/// Behind its end a handshake replies nothing and stays as it is, whatever comes.
pub fn ended_for_good()
    ensures { EndedForGood }
{}

/// The lines of a text are its bytes, parted where CR LF stands.
pub fn lines_of_text()
    ensures { LinesOfText }
{}

/// How long an open line gets at least, whatever follows.
pub fn least_length()
    ensures { LeastLength }
{}
