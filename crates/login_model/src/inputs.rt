// The last few inputs of a device.

ghost use Rattle.std.specs.Prelude.{◌≡◌, ◌≤◌, ◌++◌, [], ◌∷◌, IfOk, length};
ghost use Rattle.login_model.specs.Limits.{inputs_limit};
ghost use Rattle.login_model.specs.Reading.{last_few};

use crate::answer::Input;
use login_base::NoMemory;
use std::alloc::Global;
use std::marker::Model;

/// How many inputs are kept, and so how many a read answers at most.
const INPUTS_LIMIT: usize = 64;

/// At most 64 inputs, the oldest first. It has the memory of all of them from the start.
#[derive(Drop)]
pub struct Inputs {
    items: Vec<Input>,
}

impl Model for Inputs {
    ghost use Rattle.std.specs.Prelude.{◌≤◌, List, vec_capacity, vec_len};
    ghost use Rattle.login_model.specs.Limits.{inputs_limit};
    ghost use Rattle.login_model.specs.declared.answer.Input.{Input};

    ghost Value = { List Input };

    ghost view = { λ s. s.items.items };

    ghost invariant = { λ s. (vec_len s.items ≤ inputs_limit) × (inputs_limit ≤ vec_capacity s.items) };
}

impl Inputs {
    /// No inputs.
    pub fn new(alloc: Global) -> Result<Inputs, NoMemory>
        ensures { IfOk result (λ inputs. inputs ≡ []) }
    {
        Ok(Inputs {
            items: Vec::with_capacity(alloc, INPUTS_LIMIT)?,
        })
    }

    /// The inputs in order.
    pub fn as_slice(&self) -> &[Input]
        ensures value { result.now ≡ self.now }
        ensures few { length result.now ≤ inputs_limit }
    {
        self.items.as_slice()
    }

    /// Forgets all inputs.
    pub fn clear(&mut self)
        ensures { self.new ≡ [] }
    {
        self.items.clear();
    }

    /// Puts an input at the end. Where there are 64 before it, the oldest goes. It takes no memory.
    pub fn keep(&mut self, input: Input)
        ensures { self.new ≡ last_few (self.old ++ input ∷ []) }
    {
        if self.items.as_slice().len() >= INPUTS_LIMIT {
            self.items.remove(0);
        }
        match self.items.push(input) {
            Ok(()) => {}
            Err(_) => unreachable!(),
        }
    }
}
