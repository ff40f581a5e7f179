//! Explorations of small programs whose outcomes were worked out by hand.

use crate::programs::{
    ALL, FAULT, GARBAGE, HELPERS, LIMITS, LOCKS, MAKERS, PRINTS, explored, program_of, watched,
};
use exploring::{Bounds, Choice, Cut, End, Explored, States, canonical, keys_tell};
use ideal_run::Transitions;
use model::journals::Limits;
use model::turns::{Fault, Status};
use std::alloc::Global;
use std::test::Fail;

/// Whether the outcomes have these statuses, in this order, and there is no other one.
fn are(explored: &Explored, statuses: &[Status]) -> bool {
    if explored.found.len() != statuses.len() || explored.cut.is_some() {
        return false;
    }
    for (found, status) in explored.found.iter().zip(statuses) {
        if found.outcome.status != *status {
            return false;
        }
    }
    true
}

/// How many threads of all outcomes were ended by an exception.
fn thrown(explored: &Explored) -> usize {
    let mut count = 0_usize;
    for found in &explored.found {
        for end in &found.outcome.ends {
            if matches!(end, End::Ended(Some(_))) {
                count = count.saturating_add(1);
            }
        }
    }
    count
}

/// Each holds what the other one waits for, or both get through. The shorter one is found first: main takes seven turns
/// up to its second lock, the thread three up to its own, and two of them lead to each lock.
#[test]
fn locks_are_stuck_or_finished(rt: HostRuntime) -> Result<(), Fail> {
    let (explored, told) = watched(rt.alloc(), LOCKS, LIMITS, ALL)?;
    assert!(rt; are(&explored, &[Status::Stuck, Status::Finished]));
    assert!(rt; told.times > 0 && told.left == 0);
    assert!(rt; told.done as u64 == explored.states);
    Ok(())
}

/// A loop that makes garbage has three states, and no outcome.
#[test]
fn garbage_makes_no_states(rt: HostRuntime) -> Result<(), Fail> {
    let explored = explored(rt.alloc(), GARBAGE, LIMITS, ALL)?;
    assert!(rt; are(&explored, &[]));
    assert!(rt; explored.states <= 3);
    Ok(())
}

/// A method of local work is no state: main stands at its opening, at the start of the thread and at its end, or has ended,
/// and the thread at its opening or its end, or has ended.
#[test]
fn local_work_is_no_state(rt: HostRuntime) -> Result<(), Fail> {
    let explored = explored(rt.alloc(), HELPERS, LIMITS, ALL)?;
    assert!(rt; are(&explored, &[Status::Finished]));
    assert!(rt; explored.states <= 8);
    Ok(())
}

/// Main finds no cell for the thread and is ended, or each of the two finds one for its object or is ended: five
/// outcomes, in which five threads are ended in all.
#[test]
fn cells_are_missing(rt: HostRuntime) -> Result<(), Fail> {
    let bounds = Bounds {
        states: 1_000,
        no_room: true,
    };
    let roomy = explored(rt.alloc(), MAKERS, LIMITS, ALL)?;
    assert!(rt; are(&roomy, &[Status::Finished]));
    let scarce = explored(rt.alloc(), MAKERS, LIMITS, bounds)?;
    assert!(rt; are(&scarce, &[Status::Finished; 5]));
    assert!(rt; thrown(&scarce) == 5);
    let Some(first) = scarce.found.first() else {
        return Ok(());
    };
    assert!(rt; first.witness.len() == 1 && first.witness[0].choice == Choice::NoRoom);
    Ok(())
}

/// Three letters are printed, and no fourth one.
#[test]
fn output_is_full(rt: HostRuntime) -> Result<(), Fail> {
    let explored = explored(rt.alloc(), PRINTS, LIMITS, ALL)?;
    assert!(rt; are(&explored, &[Status::Running]));
    for found in &explored.found {
        assert!(rt; found.outcome.output.as_slice() == b"AAA".as_slice());
    }
    Ok(())
}

#[test]
fn faults_are_outcomes(rt: HostRuntime) -> Result<(), Fail> {
    let explored = explored(rt.alloc(), FAULT, LIMITS, ALL)?;
    assert!(rt; are(&explored, &[Status::Faulted]));
    for found in &explored.found {
        assert!(rt; found.outcome.fault == Some((Fault::StackEmpty, 0)));
    }
    Ok(())
}

/// Why the exploration of two locks is cut off within these bounds.
fn cut(alloc: Global, steps: u32, states: u32) -> Result<Option<Cut>, Fail> {
    let limits = Limits { steps, output: 3 };
    let bounds = Bounds {
        states,
        no_room: false,
    };
    Ok(explored(alloc, LOCKS, limits, bounds)?.cut)
}

#[test]
fn bounds_cut_off(rt: HostRuntime) -> Result<(), Fail> {
    assert!(rt; cut(rt.alloc(), 1_000, 2)? == Some(Cut::States));
    assert!(rt; cut(rt.alloc(), 1, 1_000)? == Some(Cut::Depth));
    Ok(())
}

/// A state is new once; its canonical form is the same state.
#[test]
fn states_come_once(rt: HostRuntime) -> Result<(), Fail> {
    keys_tell();
    let program = program_of(rt.alloc(), LOCKS)?;
    let Some(transitions) = Transitions::new(rt.alloc(), &program, LIMITS)? else {
        return Ok(());
    };
    let mut states = States::new(rt.alloc(), &program)?;
    let opening = transitions.opening()?;
    assert!(rt; states.add(rt.alloc(), &opening)?);
    assert!(rt; !states.add(rt.alloc(), &canonical(rt.alloc(), &opening)?)?);
    assert!(rt; states.len() == 1);
    Ok(())
}
