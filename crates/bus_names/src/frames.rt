// The containers that are open, the innermost first.

ghost use Rattle.std.specs.Prelude.{◌≡◌, [], ◌∷◌, OnOk, MatchOption, count_by};
ghost use Rattle.bus_names.specs.Frames.{array_count, struct_count, is_array, is_struct, is_closed};

use crate::parse::Frame;
use login_base::NoMemory;
use std::alloc::Global;
use std::marker::Model;

/// The containers that are open, seen as a list with the innermost first.
#[derive(Drop)]
pub struct Frames {
    frames: Vec<Frame>,
}

impl Model for Frames {
    ghost use Rattle.std.specs.Prelude.{List};
    ghost use mathlib.Core.List.{reverse};
    ghost use Rattle.bus_names.specs.declared.parse.Frame.{Frame};

    ghost Value = { List Frame };

    ghost use Rattle.std.specs.Coded.{coded_list};
    ghost use Rattle.bus_names.specs.contracts.parse.Frame as frame;

    ghost coded = { coded_list frame.the_row.coded };

    ghost view = { λ s. reverse s.frames.items };
}

fn is_array(frame: &Frame) -> bool
    ensures { result ≡ is_array frame.now }
{
    matches!(frame, Frame::Array | Frame::Value(_))
}

fn is_struct(frame: &Frame) -> bool
    ensures { result ≡ is_struct frame.now }
{
    matches!(frame, Frame::Struct(_))
}

fn count_arrays(frames: &[Frame]) -> usize
    ensures { result ≡ count_by is_array frames.now }
{
    frames.iter().filter(|frame| is_array(frame)).count()
}

fn count_structs(frames: &[Frame]) -> usize
    ensures { result ≡ count_by is_struct frames.now }
{
    frames.iter().filter(|frame| is_struct(frame)).count()
}

impl Frames {
    /// None is open.
    pub fn new(alloc: Global) -> Frames
        ensures { result ≡ [] }
    {
        Frames {
            frames: Vec::new(alloc),
        }
    }

    /// Whether none is open.
    pub fn is_empty(&self) -> bool
        ensures { result ≡ is_closed self.now }
    {
        self.frames.is_empty()
    }

    /// Opens a container.
    pub fn push(&mut self, frame: Frame) -> Result<(), NoMemory>
        ensures { OnOk result (self.new ≡ frame ∷ self.old) }
    {
        self.frames.push(frame)?;
        Ok(())
    }

    /// Closes the innermost container.
    pub fn pop(&mut self) -> Option<Frame>
        ensures before { MatchOption result (self.old ≡ []) (λ frame. self.old ≡ frame ∷ self.new) }
        ensures after { MatchOption result (self.new ≡ []) (λ frame. self.old ≡ frame ∷ self.new) }
    {
        self.frames.pop()
    }

    /// How many arrays are open, those of dict entries among them.
    pub fn array_count(&self) -> usize
        ensures { result ≡ array_count self.now }
    {
        count_arrays(self.frames.as_slice())
    }

    /// How many structs are open.
    pub fn struct_count(&self) -> usize
        ensures { result ≡ struct_count self.now }
    {
        count_structs(self.frames.as_slice())
    }
}
