// How value lists are written.

ghost use Rattle.std.specs.Prelude.{◌≡◌, ◌+◌, List, ℕ, length, IfOk};
ghost use Rattle.bus_names.specs.Types.{Shape};
ghost use Rattle.bus_value.specs.Values.{vals};
ghost use Rattle.bus_value.specs.Spelling.{spellings};
ghost use Rattle.bus_value.specs.Grammar.{Spells};
ghost use Rattle.bus_value.specs.Typed.{AreTyped};
ghost use Rattle.bus_value.specs.Lengths.{values_end};
ghost use Rattle.bus_value.specs.Limits.{AllFit};

use crate::order::Order;
use crate::value::Value;
use crate::values::Values;
use login_base::{Bytes, Items, NoMemory};
use std::alloc::Global;

/// The bytes of each of the values, one behind the other.
pub(crate) fn write_each(
    alloc: Global,
    order: Order,
    start: usize,
    values: &[Value],
) -> Result<Bytes, NoMemory>
    requires { AllFit order start (vals values.now) }
    ensures { IfOk result (λ bytes. bytes ≡ spellings order start (vals values.now)) }
{
    let mut out = Vec::new(alloc);
    for value in values {
        value.push(alloc, &mut out, start, order)?;
    }
    Ok(Items::from_vec(out))
}

/// The bytes of the values, which are to stand from the offset `start` on. The condition is that texts,
/// arrays and signatures are within the limits of the D-Bus Specification ("Marshaling (Wire Format)").
pub fn write_values(
    alloc: Global,
    order: Order,
    start: usize,
    values: &Values,
) -> Result<Bytes, NoMemory>
    requires { AllFit order start (vals values.now) }
    ensures value { IfOk result (λ bytes. bytes ≡ spellings order start (vals values.now)) }
    // values of these types are spelled so
    ensures spelled { (ts : List Shape) → AreTyped 0 ts (vals values.now) → IfOk result (λ bytes. Spells order start ts values.now bytes) }
    // and have no other spelling
    ensures only { (ts : List Shape) (text : List ℕ) → Spells order start ts values.now text → IfOk result (λ bytes. bytes ≡ text) }
    ensures long { IfOk result (λ bytes. start + length bytes ≡ values_end start (vals values.now)) }
{
    let bytes = values.written(alloc, order, start)?;
    Ok(bytes)
}
