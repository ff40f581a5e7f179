//! The references that an instruction writes.
ghost use Rattle.std.specs.Prelude.{◌≡◌, ℕ, ◌≤◌, List, [], ◌∷◌, take, length, slice_get};
ghost use Rattle.std.specs.Option.{option_to_list};
ghost use Rattle.model.specs.Values.{births_of};

use std::marker::Model;
use values::Value;

/// The references that an instruction wrote, by their numbers and in the order of writing: six at the most, since
/// `dup2_x2` leaves six values.
#[derive(Drop)]
pub struct Written {
    numbers: [u32; 6],
    count: usize,
}

impl Model for Written {
    ghost Value = { List ℕ };

    ghost view = { λ a. take a.count a.numbers };

    ghost invariant = { λ a. a.count ≤ 6 };
}

#[tactic(auto, using(crate::proofs::BirthLemmas::births))]
impl Written {
    /// None.
    #[inline(always)]
    pub fn none() -> Written
        ensures { result ≡ [] }
    {
        Written {
            numbers: [0; 6],
            count: 0,
        }
    }

    /// The reference that a value is, if it is one to an object.
    // Without a loop, so that nothing is left of it where the value's kind is known.
    #[inline(always)]
    pub fn one(value: Value) -> Written
        ensures births { result ≡ births_of (value ∷ []) }
        ensures few { length result ≤ 1 }
    {
        match reference(value) {
            Some(number) => Written {
                numbers: [number, 0, 0, 0, 0, 0],
                count: 1,
            },
            None => Written::none(),
        }
    }

    /// The references among values, in order.
    #[inline(always)]
    pub fn of(values: &[Value]) -> Written
        requires { length values.now ≤ 6 }
        ensures { result ≡ births_of values.now }
    {
        let mut numbers = [0; 6];
        let mut count = 0;
        for value in values {
            if let Some(number) = reference(*value) {
                numbers[count] = number;
                count += 1;
            }
        }
        Written { numbers, count }
    }

    /// The first one, if there is any.
    #[inline(always)]
    pub fn first(&self) -> Option<u32>
        ensures { result ≡ slice_get self.now 0 }
    {
        if self.count > 0 {
            Some(self.numbers[0])
        } else {
            None
        }
    }

    /// The numbers, in order.
    pub fn as_slice(&self) -> &[u32]
        ensures { result.now ≡ self.now }
    {
        &self.numbers[..self.count]
    }
}

/// The number of the object that a value refers to.
#[inline(always)]
fn reference(value: Value) -> Option<u32>
    ensures { births_of (value ∷ []) ≡ option_to_list result }
{
    match value {
        Value::Ref(number) => number,
        Value::Int(_) | Value::Long(_) => None,
    }
}
