//! A world and the ideal run of its program, side by side.

use crate::errors::RaceError;
use comparison::shows;
use ideal_run::{Choice, Ideal};
use loader::programs::Program;
use model::journals::{HeapShape, Limits};
use model::turns::{Actor, Turn};
use scheduler::worlds::World;
use std::alloc::{AllocError, Global};

const LIMITS: Limits = Limits {
    steps: 100,
    output: 0,
};

/// A world and the ideal run of its program, which make the same turns.
#[derive(Drop)]
pub struct Sides<'a> {
    alloc: Global,
    program: &'a Program,
    cells: u32,
    world: World,
    run: Ideal<'a>,
}

/// The world of a program on so many small cells, which has made no turn.
fn world_on(alloc: Global, program: &Program, cells: u32) -> Result<World, RaceError> {
    let shape = HeapShape {
        small: cells,
        medium: 0,
        large: 0,
    };
    match World::new(alloc, program.copy()?, shape, LIMITS) {
        Ok(world) => Ok(world),
        Err(_) => Err(RaceError::World),
    }
}

impl<'a> Sides<'a> {
    /// Both before the first turn of a program, the world on so many small cells.
    pub fn new(alloc: Global, program: &'a Program, cells: u32) -> Result<Sides<'a>, RaceError> {
        let world = world_on(alloc, program, cells)?;
        match Ideal::new(alloc, program.listings(), LIMITS)? {
            Some(run) => Ok(Sides {
                alloc,
                program,
                cells,
                world,
                run,
            }),
            None => Err(RaceError::World),
        }
    }

    /// Both before the first turn again: the world is a new one.
    pub fn reopen(&mut self) -> Result<(), RaceError> {
        self.world = world_on(self.alloc, self.program, self.cells)?;
        self.run.reopen()?;
        Ok(())
    }

    /// Asks both for a turn of an actor. Whether the world made it: if it did and has an object more, the ideal run
    /// makes one too.
    pub fn turn(&mut self, actor: Actor) -> Result<bool, AllocError> {
        let births = self.world.next_birth();
        let answer = self.world.turn(actor);
        let choice = if births < self.world.next_birth() {
            Choice::NewObject
        } else {
            Choice::NoRoom
        };
        self.run.turn(actor, choice)?;
        Ok(matches!(answer, Turn::Done | Turn::Fault(_)))
    }

    /// Whether the world's cells show the ideal run.
    pub fn agree(&self) -> Result<bool, AllocError> {
        shows(&self.world, &self.run)
    }

    /// How many objects were made.
    pub fn objects(&self) -> u64 {
        u64::from(self.world.next_birth()).saturating_sub(3)
    }
}
