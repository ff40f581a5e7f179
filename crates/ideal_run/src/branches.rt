//! Branches (JVMS 6.5): ints compare signed, references by identity.
ghost use Rattle.std.specs.Prelude.{◌≡◌, IfOk};
ghost use Rattle.model.specs.Table.Branches.{zero_test, ints_test, refs_test};
ghost use Rattle.model.specs.Table.Branches.{null_test, branch_pc, branched_on, branched};
ghost use Rattle.model.specs.Frames.{int_on, two_ints_on, ref_on, two_refs_on};
ghost use Rattle.ideal_run.specs.Reported.{frame_in};

use crate::frames::{Frame, Moved, faulted, moved};
use crate::operands::{int_on, ref_on, two_ints_on, two_refs_on};
use model::instructions::{Comparison, Identity, Test};
use model::turns::Fault;
use model::values::Value;
use std::alloc::{AllocError, Global};

fn zero_test(comparison: Comparison, stack: &[Value]) -> Result<bool, Fault>
    ensures { result ≡ zero_test comparison (int_on stack.now) }
{
    let int = int_on(stack)?;
    Ok(values::compare_ints(comparison, int, 0))
}

fn ints_test(comparison: Comparison, stack: &[Value]) -> Result<bool, Fault>
    ensures { result ≡ ints_test comparison (two_ints_on stack.now) }
{
    let (right, left) = two_ints_on(stack)?;
    Ok(values::compare_ints(comparison, left, right))
}

fn refs_test(identity: Identity, stack: &[Value]) -> Result<bool, Fault>
    ensures { result ≡ refs_test identity (two_refs_on stack.now) }
{
    let (right, left) = two_refs_on(stack)?;
    Ok(values::compare_references(identity, left, right))
}

fn null_test(identity: Identity, stack: &[Value]) -> Result<bool, Fault>
    ensures { result ≡ null_test identity (ref_on stack.now) }
{
    let reference = ref_on(stack)?;
    Ok(values::compare_references(identity, reference, None))
}

/// The target where the branch is taken, else the next instruction.
fn branch_pc(next: u16, target: u16, taken: bool) -> u16
    ensures { result ≡ branch_pc next target taken }
{
    if taken { target } else { next }
}

/// So many operands go.
fn branched_on(
    alloc: Global,
    next: u16,
    target: u16,
    frame: &Frame,
    n: usize,
    taken: Result<bool, Fault>,
) -> Result<Moved, AllocError>
    ensures { IfOk result (λ moved. moved ≡ frame_in (branched_on next target frame.now n taken)) }
{
    match taken {
        Err(fault) => Ok(faulted(fault)),
        Ok(taken) => moved(alloc, branch_pc(next, target, taken), frame, n, &[]),
    }
}

/// A branch: faults of the operands, F1 and F3 from the top. `AllocError` where memory runs out.
pub fn branched(
    alloc: Global,
    next: u16,
    test: Test,
    target: u16,
    frame: &Frame,
) -> Result<Moved, AllocError>
    ensures { IfOk result (λ moved. moved ≡ frame_in (branched next test target frame.now)) }
{
    let stack = frame.stack.as_slice();
    match test {
        Test::Always(_) => moved(alloc, target, frame, 0, &[]),
        Test::Zero(comparison) => {
            branched_on(alloc, next, target, frame, 1, zero_test(comparison, stack))
        }
        Test::Ints(comparison) => {
            branched_on(alloc, next, target, frame, 2, ints_test(comparison, stack))
        }
        Test::Refs(identity) => {
            branched_on(alloc, next, target, frame, 2, refs_test(identity, stack))
        }
        Test::Null(identity) => {
            branched_on(alloc, next, target, frame, 1, null_test(identity, stack))
        }
    }
}
