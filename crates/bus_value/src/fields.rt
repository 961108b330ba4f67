// Numbered variants, of which those are kept whose number is known.

ghost use Rattle.std.specs.Prelude.{◌≡◌, ◌≤◌, ◌<◌, ◌+◌, ◌^◌, length, [], ◌∷◌};
ghost use Rattle.bus_value.specs.Answers.{Gives};
ghost use Rattle.bus_value.specs.Fields.{kept_in, list_type};
ghost use Rattle.bus_value.specs.Reading.{read_all};

use crate::basic_value::BasicValue;
use crate::fault::ValueFault;
use crate::order::Order;
use crate::reader::Reader;
use login_base::Items;
use std::alloc::Global;

/// A struct of a number and a variant, as the fields of a message are.
#[derive(Drop)]
pub struct Field {
    pub number: u8,
    /// The offset of its first byte.
    pub offset: usize,
    /// What the variant holds, where that is of a basic type.
    pub value: Option<BasicValue>,
}

/// Those of the numbered variants in an array, of type `a(yv)`, whose number is at most `most`; else the first fault.
/// All are checked, and no others are kept.
pub fn read_fields(
    alloc: Global,
    order: Order,
    start: usize,
    most: u8,
    bytes: &[u8],
) -> Result<Items<Field>, ValueFault>
    requires { start + length bytes.now < 2 ^ 64 }
    ensures { Gives result (kept_in most order start (read_all order start (list_type ∷ []) bytes.now)) }
{
    let reader = Reader::new(alloc, order, start);
    let place = reader.open_array(bytes, 0, 8)?;
    let fields = place.reader.fields(most, &bytes[..place.end], place.first)?;
    if place.end < bytes.len() {
        return Err(ValueFault::BadLength(reader.reported(place.end)));
    }
    Ok(fields)
}
