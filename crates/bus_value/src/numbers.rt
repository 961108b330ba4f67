// Numbers and padding as bytes.

ghost use Rattle.std.specs.Prelude.{◌≡◌, ◌≤◌, ◌<◌, ◌+◌, ◌-◌, ◌^◌, ◌++◌, ◌∷◌, [], OnOk, OnErr, IfOk, take, drop, length, vec_len, replicate, ◌⊎◌};
ghost use Rattle.std.specs.Io.{StartsWith};
ghost use Rattle.bus_value.specs.Numbers.{number_bytes, number};
ghost use Rattle.bus_value.specs.Spelling.{pad_size, padding};
ghost use Rattle.bus_value.specs.inner.Spelling.{array_front};
ghost use Rattle.bus_value.specs.Alignment.{IsAlignment};

use crate::order::Order;
use byteorder::{BigEndian, ByteOrder, LittleEndian};
use login_base::NoMemory;

/// How many bytes stand between an offset and the next boundary. The offset is `start` and `count`
/// together, which may be more than a `usize` holds.
pub fn pad_size(start: usize, count: usize, align: usize) -> usize
    requires { IsAlignment align }
    ensures value { result ≡ pad_size (start + count) align }
    ensures bound { result < 8 }
{
    (align - start.wrapping_add(count) % align) % align
}

/// Puts the padding up to the next boundary at the end.
pub fn push_padding(out: &mut Vec<u8>, start: usize, align: usize) -> Result<(), NoMemory>
    requires { IsAlignment align }
    ensures value { OnOk result (out.new.items ≡ out.old.items ++ padding (start + length out.old.items) align) }
    ensures kept { OnErr result (out.new.items ≡ out.old.items) }
{
    let count = pad_size(start, out.len(), align);
    let zeros = [0; 8];
    out.extend_from_slice(&zeros[..count])?;
    Ok(())
}

/// Puts a number of two bytes at the end.
pub fn push_u16(out: &mut Vec<u8>, order: Order, number: u16) -> Result<(), NoMemory>
    ensures value { OnOk result (out.new.items ≡ out.old.items ++ number_bytes order 2 number) }
    ensures kept { OnErr result (out.new.items ≡ out.old.items) }
{
    let mut bytes = [0; 2];
    match order {
        Order::Little => LittleEndian::write_u16(&mut bytes, number),
        Order::Big => BigEndian::write_u16(&mut bytes, number),
    }
    out.extend_from_slice(&bytes)?;
    Ok(())
}

/// A number of four bytes.
fn u32_bytes(order: Order, number: u32) -> [u8; 4]
    ensures value { result ≡ number_bytes order 4 number }
{
    let mut bytes = [0; 4];
    match order {
        Order::Little => LittleEndian::write_u32(&mut bytes, number),
        Order::Big => BigEndian::write_u32(&mut bytes, number),
    }
    bytes
}

/// Puts a number of four bytes at the end.
pub fn push_u32(out: &mut Vec<u8>, order: Order, number: u32) -> Result<(), NoMemory>
    ensures value { OnOk result (out.new.items ≡ out.old.items ++ number_bytes order 4 number) }
    ensures kept { OnErr result (out.new.items ≡ out.old.items) }
{
    out.extend_from_slice(&u32_bytes(order, number))?;
    Ok(())
}

/// Puts a number of eight bytes at the end.
pub fn push_u64(out: &mut Vec<u8>, order: Order, number: u64) -> Result<(), NoMemory>
    ensures value { OnOk result (out.new.items ≡ out.old.items ++ number_bytes order 8 number) }
    ensures kept { OnErr result (out.new.items ≡ out.old.items) }
{
    let mut bytes = [0; 8];
    match order {
        Order::Little => LittleEndian::write_u64(&mut bytes, number),
        Order::Big => BigEndian::write_u64(&mut bytes, number),
    }
    out.extend_from_slice(&bytes)?;
    Ok(())
}

/// Writes a number of four bytes over those at an offset.
pub fn set_u32(out: &mut [u8], at: usize, order: Order, number: u32)
    requires { at + 4 ≤ length out.old }
    ensures { out.new ≡ take at out.old ++ (number_bytes order 4 number ++ drop (at + 4) out.old) }
{
    out[at..at + 4].copy_from_slice(&u32_bytes(order, number));
}

/// Begins an array: its padding, room for its length, and the padding in front of its elements. It
/// gives the place of the length.
pub fn begin_array(
    out: &mut Vec<u8>,
    start: usize,
    order: Order,
    align: usize,
) -> Result<usize, NoMemory>
    requires { IsAlignment align }
    ensures bytes { OnOk result (out.new.items ≡ out.old.items ++ array_front order (start + length out.old.items) align 0) }
    ensures place { IfOk result (λ at. at ≡ length out.old.items + pad_size (start + length out.old.items) 4) }
    ensures kept { OnErr result (StartsWith out.new.items out.old.items) }
{
    push_padding(out, start, 4)?;
    let at = out.len();
    push_u32(out, order, 0)?;
    push_padding(out, start, align)?;
    Ok(at)
}

/// Fills in the length of an array whose elements begin at `first` and go on to the end.
pub fn end_array(out: &mut Vec<u8>, at: usize, first: usize, order: Order)
    requires room { at + 4 ≤ first }
    requires within { first ≤ length out.old.items }
    requires small { length out.old.items < first + 2 ^ 32 }
    ensures { out.new.items ≡ take at out.old.items ++ (number_bytes order 4 (length out.old.items - first) ++ drop (at + 4) out.old.items) }
{
    let count = (out.len() - first) as u32;
    set_u32(&mut out[..], at, order, count);
}

/// The number in the first two bytes.
pub fn read_u16(order: Order, bytes: &[u8]) -> u16
    requires { 2 ≤ length bytes.now }
    ensures { result ≡ number order 2 bytes.now }
{
    match order {
        Order::Little => LittleEndian::read_u16(bytes),
        Order::Big => BigEndian::read_u16(bytes),
    }
}

/// The number in the first four bytes.
pub fn read_u32(order: Order, bytes: &[u8]) -> u32
    requires { 4 ≤ length bytes.now }
    ensures { result ≡ number order 4 bytes.now }
{
    match order {
        Order::Little => LittleEndian::read_u32(bytes),
        Order::Big => BigEndian::read_u32(bytes),
    }
}

/// The number in the first eight bytes.
pub fn read_u64(order: Order, bytes: &[u8]) -> u64
    requires { 8 ≤ length bytes.now }
    ensures { result ≡ number order 8 bytes.now }
{
    match order {
        Order::Little => LittleEndian::read_u64(bytes),
        Order::Big => BigEndian::read_u64(bytes),
    }
}
