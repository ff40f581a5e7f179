//! Places in code before which many turns in one call end.
ghost use Rattle.std.specs.Prelude.{◌≡◌, ◌<◌, ℕ, false, replicate, slice_index_or, true};
ghost use Rattle.model.specs.declared.places.CodePlace.{CodePlace};
ghost use Rattle.instructions.specs.Stops.{is_stop, number_of};

use model::places::CodePlace;
use std::marker::Model;

/// How many marks there are.
const MARKS: usize = 1024;

/// The number of a place's mark. Many places share one.
#[inline(always)]
fn number_of(place: CodePlace) -> usize
    ensures number { result ≡ number_of place }
    ensures within { result < 1024 }
{
    let method = place.method.method % MARKS * 61;
    let class = place.method.class % MARKS * 17;
    (usize::from(place.pc) + method + class) % MARKS
}

/// Places before which turns end, each by its mark. As places share marks, turns may end before others too.
#[derive(Clone, Copy)]
pub struct Stops<'m> {
    marks: &'m [bool],
}

impl Stops<'_> {
    /// Whether turns end before no place.
    #[inline(always)]
    pub(crate) fn are_none(self) -> bool
        ensures { result ≡ true → (place : CodePlace) → is_stop self.entry place ≡ false }
    {
        self.marks.is_empty()
    }

    /// Whether turns end before a place.
    #[inline(always)]
    pub fn has(self, place: CodePlace) -> bool
        ensures { result ≡ is_stop self.entry place }
    {
        if self.are_none() {
            return false;
        }
        match self.marks.get(number_of(place)) {
            Some(mark) => *mark,
            None => false,
        }
    }
}

/// No place.
pub fn no_stops() -> Stops<'static>
    ensures { (place : CodePlace) → is_stop result place ≡ false }
{
    Stops { marks: &[] }
}

/// Marks for places.
#[derive(Drop)]
pub struct Marks {
    marks: [bool; MARKS],
}

impl Model for Marks {
    ghost use Rattle.std.specs.Prelude.{◌≡◌, Bool, List, length};

    ghost Value = { List Bool };

    ghost view = { λ a. a.marks };

    ghost invariant = { λ a. length a.marks ≡ 1024 };
}

impl Marks {
    /// None.
    pub fn new() -> Marks
        ensures { result ≡ replicate 1024 false }
    {
        Marks {
            marks: [false; MARKS],
        }
    }

    /// Marks a place.
    pub fn add(&mut self, place: CodePlace)
        ensures added { slice_index_or self.new (number_of place) false ≡ true }
        ensures others { (n : ℕ) → slice_index_or self.old n false ≡ true → slice_index_or self.new n false ≡ true }
    {
        self.marks[number_of(place)] = true;
    }

    /// The places that were marked, and those that share a mark with them.
    pub fn stops(&self) -> Stops<'_>
        ensures { result.marks.now ≡ self.now }
    {
        Stops { marks: &self.marks }
    }
}
