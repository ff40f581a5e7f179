//! The switches.
ghost use Rattle.std.specs.Prelude.{◌≡◌, ◌<◌, length, OnErr};
ghost use Rattle.model.specs.Frames.{running_frame};
ghost use Rattle.model.specs.Table.Switches.{table_switched as table_move, lookup_switched as lookup_move};
ghost use Rattle.plain_steps.specs.Reported.{reported_with, moved_with};

use crate::written::Written;
use frames::Frames;
use model::instructions::{LookupSwitch, TableSwitch};
use model::turns::Abrupt;
use values::{lookup_target, table_target};

/// `tableswitch` (JVMS 6.5): the frame goes to the target of the int at the top, or to the default. F1, F3.
pub fn table_switched(frames: &mut Frames, table: &TableSwitch<u16>) -> Result<Written, Abrupt>
    requires { 0 < length frames.old }
    ensures step { reported_with result frames.new
        ≡ moved_with frames.old (table_move table.now (running_frame frames.old)) }
    ensures kept { OnErr result (frames.new ≡ frames.old) }
{
    let key = frames.int()?;
    frames.discard(table_target(table, key), 1);
    Ok(Written::none())
}

/// `lookupswitch` (JVMS 6.5): the frame goes to the target of the int at the top, or to the default where it is none of
/// the keys. F1, F3.
pub fn lookup_switched(frames: &mut Frames, lookup: &LookupSwitch<u16>) -> Result<Written, Abrupt>
    requires { 0 < length frames.old }
    ensures step { reported_with result frames.new
        ≡ moved_with frames.old (lookup_move lookup.now (running_frame frames.old)) }
    ensures kept { OnErr result (frames.new ≡ frames.old) }
{
    let key = frames.int()?;
    frames.discard(lookup_target(lookup, key), 1);
    Ok(Written::none())
}
