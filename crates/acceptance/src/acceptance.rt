//! Which lists of listings are programs.
ghost use Rattle.std.specs.Prelude.{◌≡◌, None, OnOk, IfErr};
ghost use Rattle.model.specs.Accepted.Refusals.{refusal_of};
ghost use Rattle.acceptance.specs.Reported.{refusal_value};
ghost use Rattle.acceptance.specs.Errors.{Tells, IsRefusedBy};
ghost use Rattle.linking.specs.CanRun.{CanRun};

use crate::errors::LoadError;
use crate::rules::{Refusal, Stop, obeys_rules};
use model::listings::Listing;
use std::alloc::Global;

fn reported(refusal: Refusal<'_>) -> LoadError
    ensures { Tells (refusal_value refusal.entry) result }
{
    let rule = refusal.rule;
    match refusal.class {
        Some(class) => match class.name.share() {
            Ok(class) => LoadError::InClass { rule, class },
            Err(error) => LoadError::Memory(error),
        },
        None => LoadError::InProgram { rule },
    }
}

/// Tests whether these listings, in order, are a program: the rules are tried in their order, each over all classes. An
/// error names the first rule that is broken and the first class that breaks it; `Memory` comes where memory runs out.
/// Classes are found in an index of their names, and for each class what is above it is walked once (JVMS 5.3).
#[tactic(auto, using(linking::proofs::RunLemmas::accepted_runs))]
pub fn accept(alloc: Global, program: &[Listing]) -> Result<(), LoadError>
    ensures accepted { OnOk result (refusal_of program.now ≡ None) }
    ensures runs { OnOk result (CanRun program.now) }
    ensures refused { IfErr result (IsRefusedBy program.now) }
{
    match obeys_rules(alloc, program) {
        Ok(()) => Ok(()),
        Err(Stop::Refused(refusal)) => Err(reported(refusal)),
        Err(Stop::Memory(error)) => Err(LoadError::Memory(error)),
    }
}
