//! `pop`, `dup`, `swap` and their kin (JVMS 6.5). An instruction finds a group of values at the top, of one unit or
//! two, and perhaps another group below it.
ghost use Rattle.std.specs.Prelude.{◌≡◌, ◌++◌, IfOk};
ghost use Rattle.model.specs.Table.Stacks.{unit_on, units_on, group_on, groups_on, with_top, popped_on, doubled_on};
ghost use Rattle.model.specs.Table.Stacks.{inserted_on, rearranged};
ghost use Rattle.model.specs.declared.instructions.StackOperation.TheVariants.{Swap};
ghost use Rattle.ideal_run.specs.Reported.{frame_in};
ghost use Rattle.ideal_run.specs.Groups.{units_in};

use crate::frames::{Frame, Moved, below, faulted, moved, replaced_if_room};
use crate::operands::top_of;
use model::instructions::StackOperation;
use model::turns::Fault;
use model::values::Value;
use std::alloc::{AllocError, Global};
use std::marker::Model;

/// Values from a stack, bottom first.
#[derive(Drop)]
struct Group {
    values: Vec<Value>,
}

impl Model for Group {
    ghost use Rattle.std.specs.Prelude.{List};
    ghost use Rattle.model.specs.declared.values.Value.{Value as Operand};

    ghost Value = { List Operand };

    ghost view = { λ a. a.values.items };
}

/// Whether an instruction moves one unit or two.
#[derive(Clone, Copy)]
enum Units {
    One,
    Two,
}

impl Group {
    fn of(alloc: Global, values: &[Value]) -> Result<Group, AllocError>
        ensures { IfOk result (λ group. group ≡ values.now) }
    {
        let values = Vec::from_slice(alloc, values)?;
        Ok(Group { values })
    }

    /// This group with another one on top.
    fn followed(&self, alloc: Global, upper: &Group) -> Result<Group, AllocError>
        ensures { IfOk result (λ group. group ≡ self.now ++ upper.now) }
    {
        let mut values = Vec::from_slice(alloc, &self.values)?;
        values.extend_from_slice(&upper.values)?;
        Ok(Group { values })
    }
}

/// One unit: a value, but no long.
fn unit_on(alloc: Global, stack: &[Value]) -> Result<Result<Group, Fault>, AllocError>
    ensures { IfOk result (λ group. group ≡ unit_on stack.now) }
{
    match top_of(stack) {
        Err(fault) => Ok(Err(fault)),
        Ok(Value::Long(_)) => Ok(Err(Fault::WrongKind)),
        Ok(Value::Int(int)) => Ok(Ok(Group::of(alloc, &[Value::Int(int)])?)),
        Ok(Value::Ref(reference)) => Ok(Ok(Group::of(alloc, &[Value::Ref(reference)])?)),
    }
}

/// A value over one unit.
fn over_unit(alloc: Global, top: Value, stack: &[Value]) -> Result<Result<Group, Fault>, AllocError>
    ensures { IfOk result (λ group. group ≡ with_top top (unit_on stack.now)) }
{
    match unit_on(alloc, stack)? {
        Err(fault) => Ok(Err(fault)),
        Ok(lower) => Ok(Ok(lower.followed(alloc, &Group::of(alloc, &[top])?)?)),
    }
}

/// Two units: a long, or another value over one unit.
fn units_on(alloc: Global, stack: &[Value]) -> Result<Result<Group, Fault>, AllocError>
    ensures { IfOk result (λ group. group ≡ units_on stack.now) }
{
    match top_of(stack) {
        Err(fault) => Ok(Err(fault)),
        Ok(Value::Long(long)) => Ok(Ok(Group::of(alloc, &[Value::Long(long)])?)),
        Ok(Value::Int(int)) => over_unit(alloc, Value::Int(int), below(stack, 1)),
        Ok(Value::Ref(reference)) => over_unit(alloc, Value::Ref(reference), below(stack, 1)),
    }
}

fn group_on(
    alloc: Global,
    units: Units,
    stack: &[Value],
) -> Result<Result<Group, Fault>, AllocError>
    ensures { IfOk result (λ group. group ≡ group_on (units_in units) stack.now) }
{
    match units {
        Units::One => unit_on(alloc, stack),
        Units::Two => units_on(alloc, stack),
    }
}

/// Two groups, the upper one first.
fn groups_on(
    alloc: Global,
    upper: Units,
    lower: Units,
    stack: &[Value],
) -> Result<Result<(Group, Group), Fault>, AllocError>
    ensures { IfOk result (λ groups. groups ≡ groups_on (units_in upper) (units_in lower) stack.now) }
{
    match group_on(alloc, upper, stack)? {
        Err(fault) => Ok(Err(fault)),
        Ok(upper) => match group_on(alloc, lower, below(stack, upper.values.len()))? {
            Err(fault) => Ok(Err(fault)),
            Ok(lower) => Ok(Ok((upper, lower))),
        },
    }
}

fn popped_on(alloc: Global, next: u16, frame: &Frame, units: Units) -> Result<Moved, AllocError>
    ensures { IfOk result (λ moved. moved ≡ frame_in
        (popped_on next frame.now (group_on (units_in units) frame.now.stack))) }
{
    match group_on(alloc, units, &frame.stack)? {
        Err(fault) => Ok(faulted(fault)),
        Ok(group) => moved(alloc, next, frame, group.values.len(), &[]),
    }
}

/// The group twice.
fn doubled_on(alloc: Global, next: u16, frame: &Frame, units: Units) -> Result<Moved, AllocError>
    ensures { IfOk result (λ moved. moved ≡ frame_in
        (doubled_on next frame.now (group_on (units_in units) frame.now.stack))) }
{
    match group_on(alloc, units, &frame.stack)? {
        Err(fault) => Ok(faulted(fault)),
        Ok(group) => {
            let twice = group.followed(alloc, &group)?;
            replaced_if_room(alloc, next, frame, group.values.len(), &twice.values)
        }
    }
}

/// The upper group below the lower one too.
fn inserted_on(
    alloc: Global,
    next: u16,
    frame: &Frame,
    upper: Units,
    lower: Units,
) -> Result<Moved, AllocError>
    ensures { IfOk result (λ moved. moved ≡ frame_in
        (inserted_on next frame.now (groups_on (units_in upper) (units_in lower) frame.now.stack))) }
{
    match groups_on(alloc, upper, lower, &frame.stack)? {
        Err(fault) => Ok(faulted(fault)),
        Ok((upper, lower)) => {
            let n = upper.values.len() + lower.values.len();
            let both = upper.followed(alloc, &lower)?.followed(alloc, &upper)?;
            replaced_if_room(alloc, next, frame, n, &both.values)
        }
    }
}

fn swapped(alloc: Global, next: u16, frame: &Frame) -> Result<Moved, AllocError>
    ensures { IfOk result (λ moved. moved ≡ frame_in (rearranged next Swap frame.now)) }
{
    match groups_on(alloc, Units::One, Units::One, &frame.stack)? {
        Err(fault) => Ok(faulted(fault)),
        Ok((upper, lower)) => {
            let n = upper.values.len() + lower.values.len();
            let both = upper.followed(alloc, &lower)?;
            moved(alloc, next, frame, n, &both.values)
        }
    }
}

/// A rearrangement of the stack: faults of the values from the top, F1 and F3, then F2. `AllocError` where memory runs
/// out.
pub fn rearranged(
    alloc: Global,
    next: u16,
    operation: StackOperation,
    frame: &Frame,
) -> Result<Moved, AllocError>
    ensures { IfOk result (λ moved. moved ≡ frame_in (rearranged next operation frame.now)) }
{
    match operation {
        StackOperation::Pop => popped_on(alloc, next, frame, Units::One),
        StackOperation::Pop2 => popped_on(alloc, next, frame, Units::Two),
        StackOperation::Dup => doubled_on(alloc, next, frame, Units::One),
        StackOperation::DupX1 => inserted_on(alloc, next, frame, Units::One, Units::One),
        StackOperation::DupX2 => inserted_on(alloc, next, frame, Units::One, Units::Two),
        StackOperation::Dup2 => doubled_on(alloc, next, frame, Units::Two),
        StackOperation::Dup2X1 => inserted_on(alloc, next, frame, Units::Two, Units::One),
        StackOperation::Dup2X2 => inserted_on(alloc, next, frame, Units::Two, Units::Two),
        StackOperation::Swap => swapped(alloc, next, frame),
    }
}
