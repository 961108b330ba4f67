//! Values of the D-Bus Specification ("Type System", "Marshaling (Wire Format)"), and how they are
//! written as bytes and read.
#![tactic(auto)]

mod basic_value;
mod basic_write;
mod fault;
mod fields;
mod law;
mod numbers;
mod order;
mod reader;
mod reading;
mod value;
mod values;
mod writing;

pub use basic_value::BasicValue;
pub use fault::ValueFault;
pub use fields::{Field, read_fields};
pub use law::{always_ends, few_parts, has_spelling, one_reading, one_spelling, spelling_length};
pub use numbers::{pad_size, push_padding, push_u32, read_u32};
pub use order::Order;
pub use reader::is_text;
pub use reading::read_values;
pub use value::{Value, ValueKind};
pub use values::{Listed, Values, signature_of};
pub use writing::write_values;
