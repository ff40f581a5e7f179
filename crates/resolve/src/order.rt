//! The classes of a program, parents first.

use crate::index::Index;
use crate::reached::Reached;
use model::listings::Listing;
use std::alloc::{AllocError, Global};

/// Names of classes on the way upwards.
#[derive(Drop)]
struct Climb<'a> {
    /// Those that stand after their parents already.
    done: Reached<'a>,
    /// Those whose parents were put before them.
    opened: Reached<'a>,
    /// Those that are still to be looked at, the next one last.
    waiting: Vec<&'a [u8]>,
}

impl<'a> Climb<'a> {
    /// Puts a class before what is waiting, and its parents before it.
    fn open(&mut self, class: &'a Listing) -> Result<(), AllocError> {
        let name = class.name.as_bytes();
        self.opened.add(name)?;
        self.waiting.push(name)?;
        self.waiting.push(class.superclass.as_bytes())?;
        for interface in &class.interfaces {
            self.waiting.push(interface.as_bytes())?;
        }
        Ok(())
    }

    /// Looks at the class of a name: the second time, its parents are done.
    fn visit(&mut self, index: &Index<'a>, name: &'a [u8]) -> Result<(), AllocError> {
        match index.listed(name) {
            Some(class) => {
                if self.opened.has(name) {
                    self.done.add(name)
                } else {
                    self.open(class)
                }
            }
            None => Ok(()),
        }
    }

    /// Looks at all that is waiting.
    fn visit_all(&mut self, index: &Index<'a>) -> Result<(), AllocError> {
        for _ in 0..u64::MAX {
            match self.waiting.pop() {
                Some(name) => self.visit(index, name)?,
                None => return Ok(()),
            }
        }
        Ok(())
    }

    /// Looks at all classes of a program.
    fn visit_program(&mut self, index: &Index<'a>) -> Result<(), AllocError> {
        for class in index.program() {
            self.waiting.push(class.name.as_bytes())?;
            self.visit_all(index)?;
        }
        Ok(())
    }
}

/// The names of the classes of a program, each after its parents in the program where no class is above itself;
/// nothing but the time that is taken rests on the order. `AllocError` where memory runs out.
pub fn parents_first<'a>(alloc: Global, index: &Index<'a>) -> Result<Reached<'a>, AllocError> {
    let mut climb = Climb {
        done: Reached::new(alloc),
        opened: Reached::new(alloc),
        waiting: Vec::new(alloc),
    };
    climb.visit_program(index)?;
    Ok(climb.done)
}
