// What holds of every stream of messages, as functions that do nothing and ensure it.

ghost use Rattle.bus_message.specs.Laws.{CutIsFront, InAnyPieces, MalformedForGood, MessageIsCut, NoContinuation, OneCut, OneMessage, PrefixFree};

/// However the bytes come in pieces, what is given is the messages at the front of all bytes, each once and in order,
/// and the place where they are malformed.
pub fn in_any_pieces()
    ensures { InAnyPieces }
{}

/// What is cut from a text is what stands at its front, all of it.
pub fn cut_is_front()
    ensures { CutIsFront }
{}

/// Only that is cut from it.
pub fn one_cut()
    ensures { OneCut }
{}

/// Behind a fault nothing is cut, whatever comes.
pub fn malformed_for_good()
    ensures { MalformedForGood }
{}

/// A text that shows a fault begins no row of messages.
pub fn no_continuation()
    ensures { NoContinuation }
{}

/// The bytes of a message are cut as that message, whatever stands behind them.
pub fn message_is_cut()
    ensures { MessageIsCut }
{}

/// No message's bytes begin another message's.
pub fn prefix_free()
    ensures { PrefixFree }
{}

/// Bytes are one message at most.
pub fn one_message()
    ensures { OneMessage }
{}
