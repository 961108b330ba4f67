// Why a stream is refused.

ghost use Rattle.std.specs.Prelude.{◌≡◌, Err};
ghost use Rattle.bus_message.specs.Faults.{number_of, offset_of};
ghost use Rattle.bus_message.specs.inner.Faults.{refusal_for};

use bus_value::ValueFault;
use login_base::NoMemory;

/// What is wrong with a message.
#[derive(Clone, Copy, Debug, PartialEq, Eq)]
pub enum MessageFault {
    /// Its first byte names no order of bytes.
    BadOrder,
    /// It is of another version than 1.
    BadVersion,
    /// Its serial is 0.
    ZeroSerial,
    /// A field that its kind requires is missing.
    MissingField,
    /// Its fields or the padding behind them are not well formed; or a field has the number 0, or a known one stands
    /// there twice, has another type or holds no such name.
    BadField,
    /// Its body does not spell values of its signature.
    BadBody,
    /// It is longer than 1048576 bytes.
    TooLong,
    /// It comes with file descriptors, which were not agreed on.
    FdsNotAgreed,
    /// Its kind is 0.
    BadKind,
}

impl MessageFault {
    /// The number under which the cause is known.
    pub fn number(self) -> u8
        ensures { result ≡ number_of self }
    {
        match self {
            MessageFault::BadOrder => 1,
            MessageFault::BadVersion => 2,
            MessageFault::ZeroSerial => 3,
            MessageFault::MissingField => 4,
            MessageFault::BadField => 5,
            MessageFault::BadBody => 6,
            MessageFault::TooLong => 7,
            MessageFault::FdsNotAgreed => 8,
            MessageFault::BadKind => 9,
        }
    }
}

/// Where a stream is malformed.
#[derive(Clone, Copy, Debug, PartialEq, Eq)]
pub struct Malformed {
    /// The offset from the stream's start. One that is above the last `u64` is reported as that.
    pub offset: u64,
    pub cause: MessageFault,
}

/// What is wrong with a message, with the offset from its start.
#[derive(Clone, Copy)]
pub struct Fault {
    pub offset: usize,
    pub cause: MessageFault,
}

/// Why no message is read.
#[derive(Clone, Copy)]
pub(crate) enum Refusal {
    Malformed(Fault),
    NoMemory,
}

/// A message that is malformed there.
pub(crate) fn refuse<T>(cause: MessageFault, offset: usize) -> Result<T, Refusal>
    ensures { result ≡ Err (Refusal.Malformed (record { offset = offset; cause = cause })) }
{
    Err(Refusal::Malformed(Fault { offset, cause }))
}

/// Where a fault of a value is.
fn offset_of(fault: ValueFault) -> usize
    ensures { result ≡ offset_of fault }
{
    match fault {
        ValueFault::Short(offset)
        | ValueFault::Padding(offset)
        | ValueFault::BadBool(offset)
        | ValueFault::BadText(offset)
        | ValueFault::BadLength(offset)
        | ValueFault::BadVariant(offset) => offset,
        ValueFault::NoMemory => 0,
    }
}

/// The fault of a value as one of this cause.
pub(crate) fn refused(cause: MessageFault, fault: ValueFault) -> Refusal
    ensures { result ≡ refusal_for cause fault }
{
    match fault {
        ValueFault::NoMemory => Refusal::NoMemory,
        _ => Refusal::Malformed(Fault {
            offset: offset_of(fault),
            cause,
        }),
    }
}

impl From<NoMemory> for Refusal {
    ghost use Rattle.std.specs.Prelude.{◌≡◌};
    ghost use Rattle.bus_message.specs.declared.fault.Refusal.TheVariants.{NoMemory as no_memory};

    ghost from_gives = { λ _ e. e ≡ no_memory };

    fn from(_e: NoMemory) -> Refusal {
        Refusal::NoMemory
    }
}
