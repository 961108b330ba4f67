// Where values are read, and what every reading needs.

ghost use Rattle.std.specs.Prelude.{◌≡◌, ◌≤◌, ◌<◌, ◌+◌, ◌^◌, length, drop, Some, None, Err};
ghost use Rattle.bus_value.specs.Alignment.{IsAlignment};
ghost use Rattle.bus_value.specs.inner.Answers.{Passes};
ghost use Rattle.bus_value.specs.Faults.{reported, cut_off, zeros, short_padding, check_padding};

use crate::fault::ValueFault;
use crate::numbers::pad_size;
use crate::order::Order;
use std::alloc::Global;

mod basic;
mod checking;
mod containers;
mod numbered;
mod texts;

pub use texts::is_text;

/// A place in which values are read.
#[derive(Clone, Copy)]
pub struct Reader {
    alloc: Global,
    order: Order,
    /// The offset of the first byte.
    start: usize,
    /// How many containers are open.
    depth: usize,
    /// The offset, as it is reported, of the length of the innermost array.
    array: Option<usize>,
}

impl Reader {
    /// A place in no container.
    pub fn new(alloc: Global, order: Order, start: usize) -> Reader
        ensures { result ≡ record { alloc = alloc; order = order; start = start; depth = 0; array = None } }
    {
        Reader {
            alloc,
            order,
            start,
            depth: 0,
            array: None,
        }
    }

    /// The place in one more container.
    fn deeper(self) -> Reader
        requires { self.depth < 2 ^ 32 }
        ensures { result ≡ record self { depth = self.depth + 1 } }
    {
        Reader {
            depth: self.depth + 1,
            ..self
        }
    }

    /// The place in an array whose length stands here.
    fn within(self, at: usize) -> Reader
        requires { self.depth < 2 ^ 32 }
        ensures { result ≡ record self { depth = self.depth + 1; array = Some (reported (self.start + at)) } }
    {
        Reader {
            array: Some(self.reported(at)),
            ..self.deeper()
        }
    }

    /// The offset of a byte, as it is reported.
    #[tactic(auto, unfolding(crate::specs::Faults::reported))]
    pub fn reported(self, at: usize) -> usize
        ensures { result ≡ reported (self.start + at) }
    {
        self.start.saturating_add(at)
    }

    /// The fault of a value whose bytes are not all there, or pass the end of the array around it.
    fn cut_off(self, at: usize) -> ValueFault
        ensures { result ≡ cut_off self.array (self.start + at) }
    {
        match self.array {
            Some(place) => ValueFault::BadLength(place),
            None => ValueFault::Short(self.reported(at)),
        }
    }

    /// Whether these bytes of padding are zero, which stand from `at` on.
    fn zeros(self, padding: &[u8], at: usize) -> Result<(), ValueFault>
        requires { at + length padding.now < 2 ^ 64 }
        ensures { result ≡ zeros (self.start + at) padding.now }
    {
        let mut next = at;
        for byte in padding {
            if *byte != 0 {
                return Err(ValueFault::Padding(self.reported(next)));
            }
            next += 1;
        }
        Ok(())
    }

    /// The place behind the padding up to the next boundary.
    #[tactic(auto, unfolding(crate::specs::Faults::check_padding))]
    fn pass_padding(self, bytes: &[u8], at: usize, align: usize) -> Result<usize, ValueFault>
        requires boundary { IsAlignment align }
        requires within { at ≤ length bytes.now }
        ensures { Passes result self.start bytes.now at align (check_padding self.array (self.start + at) align (drop at bytes.now)) }
    {
        let count = pad_size(self.start, at, align);
        let there = bytes.len() - at;
        if there < count {
            return Err(self.short_padding(&bytes[at..], at, count));
        }
        self.zeros(&bytes[at..at + count], at)?;
        Ok(at + count)
    }

    /// The fault of padding of which only these bytes are there.
    fn short_padding(self, padding: &[u8], at: usize, count: usize) -> ValueFault
        requires boundary { count < 8 }
        requires short { length padding.now < count }
        requires room { at + count < 2 ^ 64 }
        ensures { Err result ≡ short_padding self.array (self.start + at) count padding.now }
    {
        if self.array.is_some() {
            return self.cut_off(at);
        }
        match self.zeros(padding, at) {
            Err(fault) => fault,
            Ok(()) => ValueFault::Short(self.reported(at + count)),
        }
    }
}
