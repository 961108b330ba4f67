// How value lists are read.

ghost use Rattle.std.specs.Prelude.{◌≡◌, List, Ok, Err, IfOk};
ghost use Rattle.bus_value.specs.declared.fault.ValueFault.TheVariants.{NoMemory};
ghost use Rattle.bus_names.specs.Signatures.{IsWithin};
ghost use Rattle.bus_value.specs.Answers.{Gives};
ghost use Rattle.bus_value.specs.inner.Answers.{Accepts};
ghost use Rattle.bus_value.specs.Grammar.{Spells};
ghost use Rattle.bus_value.specs.Reading.{read_all};
ghost use Rattle.bus_value.specs.Limits.{AllFit};
ghost use Rattle.bus_value.specs.Values.{Val, vals};

use crate::fault::ValueFault;
use crate::order::Order;
use crate::reader::Reader;
use crate::value::Value;
use crate::values::Values;
use bus_names::{Signature, Type};
use login_base::Items;
use std::alloc::Global;

/// The values of these types that the bytes spell; else the first fault.
pub(crate) fn make_values(
    alloc: Global,
    order: Order,
    start: usize,
    types: &Signature,
    bytes: &[u8],
) -> Result<Items<Value>, ValueFault>
    ensures { Gives result (read_all order start types.now bytes.now) }
{
    let reader = Reader::new(alloc, order, start);
    let (values, last) = reader.values(types.types(), bytes, 0)?;
    if last < bytes.len() {
        return Err(ValueFault::BadLength(reader.reported(last)));
    }
    Ok(values)
}

/// Whether the bytes spell values of these types; else the first fault. No value is made.
fn check_values(
    alloc: Global,
    order: Order,
    start: usize,
    kinds: &[Type],
    bytes: &[u8],
) -> Result<(), ValueFault>
    requires { IsWithin kinds.now }
    ensures { Accepts result (read_all order start kinds.now bytes.now) }
{
    let reader = Reader::new(alloc, order, start);
    let end = reader.check_all(kinds, bytes, 0)?;
    if end < bytes.len() {
        return Err(ValueFault::BadLength(reader.reported(end)));
    }
    Ok(())
}

/// The values of these types that the bytes spell, which stand from the offset `start` on; else the first fault,
/// reading from the left.
pub fn read_values(
    alloc: Global,
    order: Order,
    start: usize,
    types: &Signature,
    bytes: &[u8],
) -> Result<Values, ValueFault>
    ensures value { Gives result (read_all order start types.now bytes.now) }
    // the definition never ends with want of memory; the call may
    ensures ends { read_all order start types.now bytes.now ≡ Err NoMemory → ⊥ }
    // what is read is spelled so
    ensures sound { (vs : List Val) → read_all order start types.now bytes.now ≡ Ok vs → Spells order start types.now vs bytes.now }
    // what is read can be written again
    ensures fits { IfOk result (λ values. AllFit order start (vals values)) }
    // what is spelled is read
    ensures complete { (vs : List Val) → Spells order start types.now vs bytes.now → read_all order start types.now bytes.now ≡ Ok vs }
    // and is spelled so by no other values
    ensures unique { (vs ws : List Val) → Spells order start types.now vs bytes.now → Spells order start types.now ws bytes.now → vs ≡ ws }
{
    let kinds = types.types();
    check_values(alloc, order, start, kinds, bytes)?;
    let values = Values::read(alloc, order, start, types, bytes)?;
    Ok(values)
}
