//! What a turn reads of a program by numbers: no name is compared, no list searched and no class walked.
ghost use Rattle.std.specs.Prelude.{IfOk};
ghost use Rattle.linking.specs.Tables.{HasTables};

use crate::class_tables::ClassTables;
use crate::initializers::Initializers;
use crate::method_tables::MethodTables;
use crate::selection::Selection;
use crate::selector_arguments::SelectorArguments;
use crate::static_slots::StaticSlots;
use resolve::classes::Classes;
use std::alloc::{AllocError, Global};

/// The tables of a program, by the numbers of its classes, slots, methods and selectors.
#[derive(Drop)]
pub struct Tables {
    pub classes: ClassTables,
    pub slots: StaticSlots,
    pub methods: MethodTables,
    pub initializers: Initializers,
    pub selection: Selection,
    pub arguments: SelectorArguments,
}

impl Tables {
    /// The tables of a program. `AllocError` where memory runs out.
    pub fn new(alloc: Global, classes: &Classes<'_>) -> Result<Tables, AllocError>
        ensures { IfOk result (λ tables. HasTables classes.now tables) }
    {
        Ok(Tables {
            classes: ClassTables::new(alloc, classes)?,
            slots: StaticSlots::new(alloc, classes)?,
            methods: MethodTables::new(alloc, classes)?,
            initializers: Initializers::new(alloc, classes)?,
            selection: Selection::new(alloc, classes)?,
            arguments: SelectorArguments::new(alloc, classes)?,
        })
    }
}
