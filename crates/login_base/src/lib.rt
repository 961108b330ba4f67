//! Plain types that the other crates share: ids, texts, lines, lists, and how numbers and names are read and written.
#![tactic(auto)]

mod decimal;
mod front;
mod hex;
mod ids;
mod items;
mod label;
mod lines;
mod memory;
mod number;
mod reserved;
mod seat_name;
mod session_id;
mod text;
mod word;

pub use decimal::{append_decimal, push_decimal};
pub use front::drop_front;
pub use hex::{hex_digit, hex_value, is_hex_digit};
pub use ids::{ConnId, DevNo, HandleNo, LockNo, Millis, SessId, Uid};
pub use items::{Bytes, Items};
pub use label::{decoded, escape, first_decoded};
pub use lines::first_line;
pub use memory::NoMemory;
pub use number::{read_number, read_whole};
pub use reserved::Reserved;
pub use seat_name::{LONGEST_SEAT_NAME, SeatFault, SeatName};
pub use text::is_text;
pub use word::Word;
