//! The switches (JVMS 6.5).
ghost use Rattle.std.specs.Prelude.{◌≡◌, IfOk};
ghost use Rattle.model.specs.Table.Switches.{table_switched, lookup_switched};
ghost use Rattle.ideal_run.specs.Reported.{frame_in};

use crate::frames::{Frame, Moved, faulted, moved};
use crate::operands::int_on;
use model::instructions::{LookupSwitch, TableSwitch};
use std::alloc::{AllocError, Global};
use values::{lookup_target, table_target};

/// `tableswitch`: the target of the int at the top, or the default. F1, F3. `AllocError` where memory runs out.
pub fn table_switched(
    alloc: Global,
    table: &TableSwitch<u16>,
    frame: &Frame,
) -> Result<Moved, AllocError>
    ensures { IfOk result (λ moved. moved ≡ frame_in (table_switched table.now frame.now)) }
{
    match int_on(&frame.stack) {
        Err(fault) => Ok(faulted(fault)),
        Ok(key) => moved(alloc, table_target(table, key), frame, 1, &[]),
    }
}

/// `lookupswitch`: the target of the int at the top, or the default where it is none of the keys. F1, F3. `AllocError`
/// where memory runs out.
pub fn lookup_switched(
    alloc: Global,
    lookup: &LookupSwitch<u16>,
    frame: &Frame,
) -> Result<Moved, AllocError>
    ensures { IfOk result (λ moved. moved ≡ frame_in (lookup_switched lookup.now frame.now)) }
{
    match int_on(&frame.stack) {
        Err(fault) => Ok(faulted(fault)),
        Ok(key) => moved(alloc, lookup_target(lookup, key), frame, 1, &[]),
    }
}
