//! The branches.
ghost use Rattle.std.specs.Prelude.{◌≡◌, ◌<◌, [], length, OnErr, ◌≤◌, IfOk};
ghost use Rattle.model.specs.Frames.{replaced, running_frame, with_running};
ghost use Rattle.model.specs.declared.instructions.Test.TheVariants.{Zero, Ints, Refs, Null};
ghost use Rattle.model.specs.Table.Branches.{branch_pc, branched as branch_move};
ghost use Rattle.plain_steps.specs.Reported.{reported_with, moved_with};

use crate::written::Written;
use frames::Frames;
use model::instructions::{Comparison, Identity};
use model::turns::Abrupt;

/// The frame goes to a pc, and nothing else changes: a `goto`, or a `nop` to the next instruction.
#[inline(always)]
pub(crate) fn go(frames: &mut Frames, pc: u16) -> Written
    requires { 0 < length frames.old }
    ensures frames { frames.new ≡ with_running frames.old (replaced pc (running_frame frames.old) 0 []).frame }
    ensures none { result ≡ [] }
{
    frames.discard(pc, 0);
    Written::none()
}

/// A branch that compares the int at the top with 0.
#[inline(always)]
pub(crate) fn if_zero(
    frames: &mut Frames,
    next: u16,
    comparison: Comparison,
    target: u16,
) -> Result<Written, Abrupt>
    requires { 0 < length frames.old }
    ensures step { reported_with result frames.new
        ≡ moved_with frames.old (branch_move next (Zero comparison) target (running_frame frames.old)) }
    ensures kept { OnErr result (frames.new ≡ frames.old) }
    ensures few { IfOk result (λ written. length written ≤ 1) }
{
    let value = frames.int()?;
    let taken = values::compare_ints(comparison, value, 0);
    frames.discard_units(place(next, target, taken), 1, 1);
    Ok(Written::none())
}

/// A branch that compares the two ints at the top.
#[inline(always)]
pub(crate) fn if_ints(
    frames: &mut Frames,
    next: u16,
    comparison: Comparison,
    target: u16,
) -> Result<Written, Abrupt>
    requires { 0 < length frames.old }
    ensures step { reported_with result frames.new
        ≡ moved_with frames.old (branch_move next (Ints comparison) target (running_frame frames.old)) }
    ensures kept { OnErr result (frames.new ≡ frames.old) }
    ensures few { IfOk result (λ written. length written ≤ 1) }
{
    let (right, left) = frames.two_ints()?;
    let taken = values::compare_ints(comparison, left, right);
    frames.discard_units(place(next, target, taken), 2, 2);
    Ok(Written::none())
}

/// A branch that compares the two references at the top.
#[inline(always)]
pub(crate) fn if_references(
    frames: &mut Frames,
    next: u16,
    identity: Identity,
    target: u16,
) -> Result<Written, Abrupt>
    requires { 0 < length frames.old }
    ensures step { reported_with result frames.new
        ≡ moved_with frames.old (branch_move next (Refs identity) target (running_frame frames.old)) }
    ensures kept { OnErr result (frames.new ≡ frames.old) }
    ensures few { IfOk result (λ written. length written ≤ 1) }
{
    let (right, left) = frames.two_references()?;
    let taken = values::compare_references(identity, left, right);
    frames.discard_units(place(next, target, taken), 2, 2);
    Ok(Written::none())
}

/// A branch that compares the reference at the top with null.
#[inline(always)]
pub(crate) fn if_null(
    frames: &mut Frames,
    next: u16,
    identity: Identity,
    target: u16,
) -> Result<Written, Abrupt>
    requires { 0 < length frames.old }
    ensures step { reported_with result frames.new
        ≡ moved_with frames.old (branch_move next (Null identity) target (running_frame frames.old)) }
    ensures kept { OnErr result (frames.new ≡ frames.old) }
    ensures few { IfOk result (λ written. length written ≤ 1) }
{
    let reference = frames.reference()?;
    let taken = values::compare_references(identity, reference, None);
    frames.discard_units(place(next, target, taken), 1, 1);
    Ok(Written::none())
}

/// The target where the branch is taken, else the next instruction.
#[inline(always)]
fn place(next: u16, target: u16, taken: bool) -> u16
    ensures { result ≡ branch_pc next target taken }
{
    if taken { target } else { next }
}
