//! What comes before an instruction that uses a class (JVMS 5.5): the class and those above it are initialised first.
ghost use Rattle.std.specs.Prelude.{◌≡◌, IfOk};
ghost use Rattle.std.specs.Option.{option_copied};
ghost use Rattle.model.specs.Completions as completion;
ghost use Rattle.model.specs.Initialisation.{with_states};
ghost use Rattle.model.specs.Table.Initialisation.{claims, initialises_chain, after_initialising};
ghost use Rattle.ideal_run.specs.Completed.{reported, plainly};
ghost use Rattle.ideal_run.specs.Claimed.{claimed_at, comes_before};

use crate::calls::are_within_limits;
use crate::completions::{Change, Completion, Site, raises};
use crate::initialisation::{Chain, chain_of, claim_frames, set_states};
use crate::worlds::Step;
use model::turns::{ClassState, Exception};
use std::alloc::{AllocError, Global};

/// The states of the classes, with these in another one.
fn states_with(
    alloc: Global,
    states: &[ClassState],
    classes: &[usize],
    state: ClassState,
) -> Result<Vec<ClassState>, AllocError>
    ensures { IfOk result (λ after. after.items ≡ with_states state classes.now states.now) }
{
    let mut after = Vec::from_slice(alloc, states)?;
    set_states(&mut after, classes, state);
    Ok(after)
}

/// The thread runs these classes' initializers, the last one first; without room for their frames nothing is claimed.
fn claims_with(site: &Site<'_, '_>, classes: &[usize]) -> Result<Completion, AllocError>
    ensures { IfOk result (λ c. reported site.now.world site.now.thread c ≡ plainly (claimed_at site.now classes.now)) }
{
    let alloc = site.alloc();
    let above = claim_frames(alloc, site.program(), classes)?;
    if are_within_limits(site.frames(), &above) {
        let running = ClassState::Running(site.thread());
        let states = states_with(alloc, site.world().states(), classes, running)?;
        Ok(Completion::Goes(Change::States(states), Step::Claims(above)))
    } else {
        Ok(raises(Exception::StackOverflow))
    }
}

/// A class that is initialised, or that this thread initialises, may be used: `None`.
fn claims(site: &Site<'_, '_>, classes: &[usize]) -> Result<Option<Completion>, AllocError>
    ensures { IfOk result (λ before. (own : completion.Completion)
        → comes_before site.now before own ≡ plainly (claims site.now classes.now own)) }
{
    match classes {
        [] => Ok(None),
        [_, ..] => Ok(Some(claims_with(site, classes)?)),
    }
}

/// By the state of the first class upwards that was used before: another thread's initialisation is waited for, and
/// below a class that failed all fail.
fn initialises(site: &Site<'_, '_>, chain: &Chain) -> Result<Option<Completion>, AllocError>
    ensures { IfOk result (λ before. (own : completion.Completion)
        → comes_before site.now before own ≡ plainly (initialises_chain site.now own chain.now)) }
{
    match chain.above {
        ClassState::Unused | ClassState::Done => claims(site, &chain.unused),
        ClassState::Running(thread) => {
            if thread == site.thread() {
                claims(site, &chain.unused)
            } else {
                Ok(Some(Completion::Waits))
            }
        }
        ClassState::Failed => {
            let states = site.world().states();
            let failed = states_with(site.alloc(), states, &chain.unused, ClassState::Failed)?;
            Ok(Some(Completion::Denies(failed)))
        }
    }
}

/// What an instruction that uses a class comes to before that class is initialised; `None` where nothing comes before
/// the instruction's own case. `AllocError` where memory runs out.
pub fn before_initialised(
    site: &Site<'_, '_>,
    class: Option<&[u8]>,
) -> Result<Option<Completion>, AllocError>
    ensures { IfOk result (λ before. (own : completion.Completion)
        → comes_before site.now before own ≡ plainly (after_initialising site.now (option_copied class.entry) own)) }
{
    match class {
        None => Ok(None),
        Some(class) => {
            let states = site.world().states();
            let chain = chain_of(site.alloc(), site.program(), states, class)?;
            initialises(site, &chain)
        }
    }
}
