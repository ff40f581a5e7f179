//! Whether two outcomes are the same, and findings of which no two have one.
ghost use Rattle.std.specs.Prelude.{◌≡◌, Decides, OnErr, OnOk, map};
ghost use Rattle.std.specs.List.{list_any};
ghost use Rattle.std.specs.Str.{bytes_eq};
ghost use Rattle.exploring.specs.Explorations.{key_of};
ghost use Rattle.exploring.specs.Keys.{outcome};
ghost use Rattle.exploring_together.specs.Merging.{with_one};

use exploring::{End, Found, Outcome};
use model::turns::{Fault, Status};
use std::alloc::AllocError;

fn are_bytes(one: &[u8], other: &[u8]) -> bool
    ensures { Decides result (one.now ≡ other.now) }
{
    one == other
}

/// Whether threads came to the same ends.
#[tactic(auto, using(crate::proofs::Deciding::deciding))]
fn are_ends(one: &[End], other: &[End]) -> bool
    ensures { Decides result (one.now ≡ other.now) }
{
    one == other
}

fn is_fault(one: Option<(Fault, u8)>, other: Option<(Fault, u8)>) -> bool
    ensures { Decides result (one ≡ other) }
{
    one == other
}

fn is_status(one: Status, other: Status) -> bool
    ensures { Decides result (one ≡ other) }
{
    one == other
}

/// Whether two outcomes are the same.
#[tactic(auto, using(crate::proofs::Deciding::deciding))]
fn is_same(one: &Outcome, other: &Outcome) -> bool
    ensures { Decides result (one.now ≡ other.now) }
{
    are_bytes(&one.output, &other.output)
        && is_fault(one.fault, other.fault)
        && are_ends(&one.ends, &other.ends)
        && is_status(one.status, other.status)
}

/// Whether a finding has this outcome.
fn has_outcome(found: &Found, wanted: &Outcome) -> bool
    ensures { result ≡ bytes_eq (outcome wanted.now) (key_of found.now) }
{
    is_same(&found.outcome, wanted)
}

/// Whether an outcome is among those that were found.
fn is_found(found: &[Found], wanted: &Outcome) -> bool
    ensures { result ≡ list_any (bytes_eq (outcome wanted.now)) (map key_of found.now) }
{
    for each in found {
        if has_outcome(each, wanted) {
            return true;
        }
    }
    false
}

/// Adds a finding, unless its outcome was found. `AllocError` where memory runs out; then nothing is added.
pub(crate) fn note(found: &mut Vec<Found>, one: Found) -> Result<(), AllocError>
    ensures noted { OnOk result (found.new.items ≡ with_one found.old.items one) }
    ensures kept { OnErr result (found.new.items ≡ found.old.items) }
{
    if !is_found(found.as_slice(), &one.outcome) {
        found.push(one)?;
    }
    Ok(())
}
