// Values of properties that more than one kind of objects has.

ghost use Rattle.std.specs.Prelude.{◌≡◌, IfOk};

use login_base::{NoMemory, SeatName, Word};
use login_model::{Boxed, PropertyValue};
use std::alloc::Global;

/// A text.
pub(crate) fn text(alloc: Global, bytes: &[u8]) -> Result<PropertyValue, NoMemory>
    ensures { IfOk result (λ value. value ≡ PropertyValue.Text bytes.now) }
{
    Ok(PropertyValue::Text(Word::from_slice(alloc, bytes)?))
}

/// A seat, if there is one.
pub(crate) fn seat(alloc: Global, seat: Option<SeatName>) -> Result<PropertyValue, NoMemory>
    ensures { IfOk result (λ value. value ≡ PropertyValue.Seat seat) }
{
    Ok(PropertyValue::Seat(Boxed::of_option(alloc, seat)?))
}
