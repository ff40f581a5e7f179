//! Explorations of what follows some turns, and of parts.

use crate::programs::{ALL, GARBAGE, LIMITS, LOCKS, Told, program_of};
use exploring::{Choice, Explored, Move, Part, explore_after, split};
use ideal_run::Transitions;
use model::turns::Status;
use std::alloc::{AllocError, Global};
use std::test::Fail;

/// So many turns of a thread.
fn turns(alloc: Global, thread: u8, count: usize) -> Result<Vec<Move>, Fail> {
    let turn = Move {
        thread,
        choice: Choice::NewObject,
    };
    Ok(vec![in alloc; turn; count]?)
}

/// What the exploration of two threads with two locks finds after some turns.
fn after(alloc: Global, first: &[Move]) -> Result<Option<Explored>, Fail> {
    let program = program_of(alloc, LOCKS)?;
    let Some(transitions) = Transitions::new(alloc, &program, LIMITS)? else {
        return Err(Fail::from(AllocError));
    };
    let mut told = Told {
        times: 0,
        done: 0,
        left: 0,
    };
    Ok(explore_after(alloc, &transitions, first, ALL, &mut told))
}

/// The parts, at most so many, of the exploration of a program after some turns.
fn parts_of(
    alloc: Global,
    text: &str,
    first: &[Move],
    most: u32,
) -> Result<Option<Vec<Part>>, Fail> {
    let program = program_of(alloc, text)?;
    let Some(transitions) = Transitions::new(alloc, &program, LIMITS)? else {
        return Err(Fail::from(AllocError));
    };
    match split(alloc, &transitions, first, ALL, most) {
        Ok(parts) => Ok(parts),
        Err(_) => Err(Fail::from(AllocError)),
    }
}

/// How many of the outcomes are stuck, and how many aren't; each witness begins with these turns.
fn counted(explored: &Explored, first: &[Move]) -> Option<(usize, usize)> {
    let mut stuck = 0_usize;
    let mut others = 0_usize;
    for found in &explored.found {
        if !found.witness.starts_with(first) {
            return None;
        }
        match found.outcome.status {
            Status::Stuck => stuck = stuck.saturating_add(1),
            _ => others = others.saturating_add(1),
        }
    }
    Some((stuck, others))
}

/// Main has one lock after nine of its turns, and both after ten; then none gets stuck.
#[test]
fn what_follows_turns_is_explored(rt: HostRuntime) -> Result<(), Fail> {
    for (count, wanted) in [(9, (1, 1)), (10, (0, 1))] {
        let first = turns(rt.alloc(), 0, count)?;
        let Some(explored) = after(rt.alloc(), &first)? else {
            assert!(rt; false);
            return Ok(());
        };
        assert!(rt; explored.cut.is_none());
        assert!(rt; counted(&explored, &first) == Some(wanted));
    }
    Ok(())
}

/// The thread can't begin before main has started it.
#[test]
fn what_follows_a_refused_turn_is_nothing(rt: HostRuntime) -> Result<(), Fail> {
    let early = turns(rt.alloc(), 1, 1)?;
    assert!(rt; after(rt.alloc(), &early)?.is_none());
    assert!(rt; parts_of(rt.alloc(), LOCKS, &early, 4)?.is_none());
    Ok(())
}

/// Whichever parts there are, both outcomes follow some of them.
#[test]
fn parts_have_all_outcomes(rt: HostRuntime) -> Result<(), Fail> {
    for most in [1, 2, 3, 7] {
        let Some(parts) = parts_of(rt.alloc(), LOCKS, &[], most)? else {
            assert!(rt; false);
            return Ok(());
        };
        assert!(rt; 0 < parts.len() && parts.len() <= most as usize);
        let mut stuck = 0_usize;
        let mut others = 0_usize;
        for part in &parts {
            let Some(explored) = after(rt.alloc(), &part.moves)? else {
                assert!(rt; false);
                return Ok(());
            };
            let Some(count) = counted(&explored, &part.moves) else {
                assert!(rt; false);
                return Ok(());
            };
            stuck = stuck.saturating_add(count.0);
            others = others.saturating_add(count.1);
        }
        assert!(rt; 0 < stuck && 0 < others);
    }
    Ok(())
}

/// All is explored while it's divided: two runs that came to rest, or none at all.
#[test]
fn small_programs_are_divided_whole(rt: HostRuntime) -> Result<(), Fail> {
    let parts = parts_of(rt.alloc(), LOCKS, &[], 1_000)?;
    assert!(rt; matches!(&parts, Some(parts) if parts.len() == 2));
    let none = parts_of(rt.alloc(), GARBAGE, &[], 1_000)?;
    assert!(rt; matches!(&none, Some(parts) if parts.is_empty()));
    Ok(())
}
