//! The reports of several explorations as one.
ghost use Rattle.std.specs.Prelude.{◌≡◌, [], Bool, IfSome, List, None, OnOk, true};
ghost use Rattle.model.specs.declared.journals.Limits.{Limits};
ghost use Rattle.model.specs.ClassListings.{ClassListing};
ghost use Rattle.exploring.specs.declared.explored.Move.{Move};
ghost use Rattle.exploring.specs.Parts.{AreParts};
ghost use Rattle.exploring_together.specs.Merging.{StaySound, with_all};
ghost use Rattle.exploring_together.specs.Together.{AreOfParts, IsExplored};

use crate::outcomes::note;
use exploring::{Cut, Explored, Found};
use std::alloc::{AllocError, Global};

/// Adds those of some findings whose outcomes weren't found. `AllocError` where memory runs out; then some of them were
/// added.
fn note_all(found: &mut Vec<Found>, more: Vec<Found>) -> Result<(), AllocError>
    ensures sound { StaySound found.old.items more.items found.new.items }
    ensures all { OnOk result (found.new.items ≡ with_all found.old.items more.items) }
{
    for one in more {
        note(found, one)?;
    }
    Ok(())
}

/// The first reason for which one of two searches was cut off, or that memory ran out for what they found.
fn first_cut(all: Option<Cut>, more: Option<Cut>, noted: bool) -> Option<Cut>
    ensures { result ≡ None → (all ≡ None) × (more ≡ None) × (noted ≡ true) }
{
    match all.or(more) {
        Some(cut) => Some(cut),
        None if noted => None,
        None => Some(Cut::Memory),
    }
}

/// Two reports as one: the outcomes of the first, and those of the second that are new. States and turns are summed.
fn merged(all: Explored, more: Explored) -> Explored
    ensures sound { StaySound all.found more.found result.found }
    ensures cut { result.cut ≡ None → (all.cut ≡ None) × (more.cut ≡ None)
        × (result.found ≡ with_all all.found more.found) }
{
    let mut found = all.found;
    let noted = note_all(&mut found, more.found).is_ok();
    Explored {
        found,
        states: all.states.saturating_add(more.states),
        turns: all.turns.saturating_add(more.turns),
        cut: first_cut(all.cut, more.cut, noted),
    }
}

/// The report of no exploration.
fn nothing(alloc: Global) -> Explored
    ensures { result ≡ record { found = []; states = 0; turns = 0; cut = None } }
{
    Explored {
        found: Vec::new(alloc),
        states: 0,
        turns: 0,
        cut: None,
    }
}

/// The reports of the parts of an exploration as one, with their outcomes in the order of the parts. `None` where one is
/// missing.
pub(crate) fn put_together(alloc: Global, made: Vec<Option<Explored>>) -> Option<Explored>
    ensures { (program : List ClassListing) (limits : Limits) (first : List Move) (no_room : Bool) (parts : List (List Move))
        → AreParts program limits first no_room parts → AreOfParts program limits no_room parts made.items
        → IfSome result (IsExplored program limits first no_room) }
{
    let mut all = nothing(alloc);
    for each in made {
        all = merged(all, each?);
    }
    Some(all)
}
