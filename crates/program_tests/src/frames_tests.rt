//! Each call, with the values of small methods worked out by hand from the JVMS.
//!
//! A story is a function that borrows the frames, which one test makes and drops: a test that owns frames and asks them
//! twenty things takes minutes to prove.

use frames::Frames;
use model::places::MethodPlace;
use model::turns::{Abrupt, Fault, Mark};
use model::values::{Entry, Kind, Value};
use std::alloc::{AllocError, Global};

const MAIN: MethodPlace = MethodPlace {
    class: 0,
    method: 1,
};

const CALLEE: MethodPlace = MethodPlace {
    class: 2,
    method: 3,
};

/// A frame is wanted, and there is none.
const NO_FRAME: Abrupt = Abrupt::Fault(Fault::NoInstruction);

/// One frame, of main, with so many locals and so many units of stack.
fn main_frame(alloc: Global, max_locals: u16, max_stack: u16) -> Result<Frames, AllocError> {
    let mut frames = Frames::new(alloc)?;
    if frames.has_room_for(max_locals, max_stack) {
        frames.enter(MAIN, max_locals, max_stack);
    }
    Ok(frames)
}

/// Pushes a value, and goes to this pc.
fn push(frames: &mut Frames, next: u16, value: Value) -> Result<(), Abrupt> {
    if frames.depth() == 0 {
        return Err(NO_FRAME);
    }
    frames.replace_if_room(next, 0, value)
}

/// How many frames there are, the pc of the running one, how many values stand on its stack, and the upper three.
fn seen(frames: &Frames) -> (usize, u16, usize, [Option<Value>; 3]) {
    if frames.depth() == 0 {
        return (0, 0, 0, [None; 3]);
    }
    let upper = [
        frames.value(0).ok(),
        frames.value(1).ok(),
        frames.value(2).ok(),
    ];
    (frames.depth(), frames.pc(), frames.values(), upper)
}

/// `bipush 7`, `bipush 5`, `isub`.
fn subtracts(frames: &mut Frames) -> Result<bool, Abrupt> {
    push(frames, 2, Value::Int(7))?;
    push(frames, 4, Value::Int(5))?;
    if frames.depth() == 0 {
        return Err(NO_FRAME);
    }
    let (right, left) = frames.two_ints()?;
    frames.replace(5, 2, Value::Int(left.wrapping_sub(right)));
    let int = frames.int()?;
    Ok(int == 2 && seen(frames) == (1, 5, 1, [Some(Value::Int(2)), None, None]))
}

/// `swap` of 7 and 5.
fn swaps(frames: &mut Frames) -> Result<bool, Abrupt> {
    push(frames, 2, Value::Int(7))?;
    push(frames, 4, Value::Int(5))?;
    if frames.depth() == 0 {
        return Err(NO_FRAME);
    }
    let (right, left) = frames.two_ints()?;
    frames.replace_all(5, 2, [Value::Int(right), Value::Int(left)].as_slice());
    Ok(frames.two_ints()? == (7, 5))
}

/// How many frames there are; of the running one how many locals, and the first four of their entries.
fn locals(frames: &Frames) -> Option<(usize, usize, [Option<Entry>; 4])> {
    let views = frames.views().ok()?;
    let frame = views.last()?;
    let entries = [
        frame.locals.get(0).copied(),
        frame.locals.get(1).copied(),
        frame.locals.get(2).copied(),
        frame.locals.get(3).copied(),
    ];
    Some((views.len(), frame.locals.len(), entries))
}

/// Calls a method with an int and a long after a null, which stays.
fn call(frames: &mut Frames) -> Result<(), Abrupt> {
    if frames.depth() == 0 {
        return Err(NO_FRAME);
    }
    let arguments = [Value::Ref(None), Value::Int(5), Value::Long(9)];
    frames.replace_all_if_room(3, 0, arguments.as_slice())?;
    if !frames.has_room_for(4, 1) {
        return Err(Abrupt::Fault(Fault::StackFull));
    }
    frames.call(CALLEE, 4, 1, 2);
    Ok(())
}

/// The running frame's method, which is then left.
fn leave(frames: &mut Frames) -> Option<MethodPlace> {
    if frames.depth() == 0 {
        return None;
    }
    let method = frames.method();
    frames.leave();
    Some(method)
}

/// `f(IJ)V` is called with 5 and 9: its locals 0 and 1 hold them, local 2 the long's upper half, and local 3 is unset.
fn hands_over(frames: &mut Frames) -> Result<bool, Abrupt> {
    call(frames)?;
    let five = Some(Entry::Holds(Value::Int(5)));
    let nine = Some(Entry::Holds(Value::Long(9)));
    let entries = [five, nine, Some(Entry::UpperHalf), Some(Entry::Unset)];
    if locals(frames) != Some((2, 4, entries)) || seen(frames) != (2, 0, 0, [None; 3]) {
        return Ok(false);
    }
    let left = [Some(Value::Ref(None)), None, None];
    Ok(leave(frames) == Some(CALLEE) && seen(frames) == (1, 3, 1, left))
}

/// `g(IJ)V` is called on the reference 8, with 5 and 9. Before that a method that takes a long and then an int isn't,
/// and nothing changes.
fn calls_by_kinds(frames: &mut Frames) -> Result<bool, Abrupt> {
    if frames.depth() == 0 {
        return Err(NO_FRAME);
    }
    let operands = [Value::Ref(Some(8)), Value::Int(5), Value::Long(9)];
    frames.replace_all_if_room(3, 0, operands.as_slice())?;
    let before = seen(frames);
    if frames.call_with(CALLEE, 4, 1, [Kind::Long, Kind::Int].as_slice(), 1) {
        return Ok(false);
    }
    if seen(frames) != before {
        return Ok(false);
    }
    if !frames.call_with(CALLEE, 4, 1, [Kind::Int, Kind::Long].as_slice(), 1) {
        return Ok(false);
    }
    let eight = Some(Entry::Holds(Value::Ref(Some(8))));
    let five = Some(Entry::Holds(Value::Int(5)));
    let nine = Some(Entry::Holds(Value::Long(9)));
    let entries = [eight, five, nine, Some(Entry::UpperHalf)];
    if locals(frames) != Some((2, 4, entries)) || seen(frames) != (2, 0, 0, [None; 3]) {
        return Ok(false);
    }
    Ok(leave(frames) == Some(CALLEE) && seen(frames) == (1, 3, 0, [None; 3]))
}

/// A frame of a method over main's, with a monitor, a mark, a local that holds the reference 5, and 7 and the reference
/// 6 on its stack.
fn open_callee(frames: &mut Frames) -> Result<(), Abrupt> {
    if !frames.has_room_for(1, 3) {
        return Err(Abrupt::Fault(Fault::StackFull));
    }
    frames.enter(CALLEE, 1, 3);
    frames.set_monitor(Some(8));
    frames.set_mark(Mark::Waiting);
    frames.store(1, 0, 0, Value::Ref(Some(5)));
    let values = [Value::Long(7), Value::Ref(Some(6))];
    frames.replace_all_if_room(2, 0, values.as_slice())
}

/// What is seen of the running frame: its monitor, its mark, and the units that its stack may take and takes.
fn reported(frames: &Frames) -> Option<(Option<u32>, Mark, usize, usize)> {
    if frames.depth() == 0 {
        return None;
    }
    Some((
        frames.monitor(),
        frames.mark(),
        frames.room(),
        frames.taken(),
    ))
}

/// The same of a frame by its depth, with its method and pc.
fn reported_at(
    frames: &Frames,
    depth: usize,
) -> Option<(MethodPlace, u16, Option<u32>, Mark, usize, usize)> {
    let head = frames.frame_at(depth)?;
    Some((
        head.method,
        head.pc,
        head.monitor,
        head.mark,
        head.room,
        head.taken,
    ))
}

fn tells_of_frames(frames: &mut Frames) -> Result<bool, Abrupt> {
    open_callee(frames)?;
    Ok(
        reported(frames) == Some((Some(8), Mark::Waiting, 3, 3))
            && reported_at(frames, 1) == Some((CALLEE, 2, Some(8), Mark::Waiting, 3, 3))
            && reported_at(frames, 2) == None
            && locals(frames).is_some_and(|(count, _, _)| count == 2),
    )
}

/// What a collector finds in two frames: the callee's local, then its stack bottom first, and the monitors.
fn shows_roots(frames: &mut Frames) -> Result<bool, Abrupt> {
    open_callee(frames)?;
    for (depth, entries, monitor) in [(0usize, 1usize, None), (1, 3, Some(8u32)), (2, 0, None)] {
        if (frames.entries(depth), frames.monitor_at(depth)) != (entries, monitor) {
            return Ok(false);
        }
    }
    for (entry, wanted) in [(0usize, Some(5u32)), (1, None), (2, Some(6)), (3, None)] {
        if frames.reference_at(1, entry) != wanted {
            return Ok(false);
        }
    }
    Ok(true)
}

/// A long takes both units of a stack of two: a push beside it is F2, and changes nothing. Then the stack is cleared.
fn is_full(frames: &mut Frames) -> Result<bool, Abrupt> {
    push(frames, 1, Value::Long(-1))?;
    let full = Err(Abrupt::Fault(Fault::StackFull));
    let long = [Some(Value::Long(-1)), None, None];
    if push(frames, 2, Value::Int(1)) != full || seen(frames) != (1, 1, 1, long) {
        return Ok(false);
    }
    if frames.depth() == 0 {
        return Err(NO_FRAME);
    }
    frames.clear(8);
    frames.go_to(9);
    Ok(seen(frames) == (1, 9, 0, [None; 3]))
}

/// `lstore_0`, with what local 0 and the int in local 1 are then.
fn store_long(frames: &mut Frames) -> Result<(Value, Fault), Abrupt> {
    if frames.depth() == 0 {
        return Err(NO_FRAME);
    }
    let long = frames.operand(Kind::Long)?;
    frames.store(2, 1, 0, long);
    let long = frames.load(Kind::Long, 0)?;
    match frames.local_int(1) {
        Ok(_) => Err(Abrupt::Fault(Fault::WrongKind)),
        Err(fault) => Ok((long, fault)),
    }
}

/// `istore_1`, with the value that it takes off the stack, that of local 1, and whether local 0 holds a long.
fn store_int(frames: &mut Frames) -> Result<(Value, i32, bool), Abrupt> {
    if frames.depth() == 0 {
        return Err(NO_FRAME);
    }
    let value = frames.operand(Kind::Int)?;
    frames.store(4, 1, 1, value);
    let local = frames.local_int(1)?;
    Ok((value, local, frames.load(Kind::Long, 0).is_ok()))
}

/// Whether local 2 can hold an int, and a long.
fn last_local(frames: &Frames) -> (bool, bool) {
    if frames.depth() == 0 {
        return (false, false);
    }
    (
        frames.has_local(Kind::Int, 2),
        frames.has_local(Kind::Long, 2),
    )
}

/// `lstore_0`, then `istore_1` over its upper half: the long's first entry is unset.
fn stores_over_half_a_long(frames: &mut Frames) -> Result<bool, Abrupt> {
    push(frames, 1, Value::Long(8))?;
    let long = store_long(frames)?;
    push(frames, 3, Value::Int(6))?;
    let int = store_int(frames)?;
    Ok(
        long == (Value::Long(8), Fault::WrongLocal)
            && int == (Value::Int(6), 6, false)
            && last_local(frames) == (true, false),
    )
}

/// `dup_x1` of a null and a reference, and then `pop`.
fn duplicate(frames: &mut Frames) -> Result<(), Abrupt> {
    if frames.depth() == 0 {
        return Err(NO_FRAME);
    }
    let null = Value::Ref(None);
    let cell = Value::Ref(Some(3));
    frames.replace_all_if_room(1, 0, [null, cell].as_slice())?;
    let (right, left) = frames.two_references()?;
    let values = [Value::Ref(right), Value::Ref(left), Value::Ref(right)];
    frames.replace_all_if_room(2, 2, values.as_slice())?;
    let _top = frames.reference()?;
    frames.discard(3, 1);
    Ok(())
}

/// Why the two values on top are no longs, and no long below a count; and what the long on top is.
fn no_longs(frames: &Frames) -> [Option<Fault>; 3] {
    if frames.depth() == 0 {
        return [None; 3];
    }
    [
        frames.two_longs().err(),
        frames.count_and_long().err(),
        frames.long().err(),
    ]
}

fn rearranges(frames: &mut Frames) -> Result<bool, Abrupt> {
    duplicate(frames)?;
    let left = [Some(Value::Ref(None)), Some(Value::Ref(Some(3))), None];
    Ok(seen(frames) == (1, 3, 2, left) && no_longs(frames) == [Some(Fault::WrongKind); 3])
}

/// Stories, with the locals of main's frame and the units of its stack.
const STORIES: &[(&str, u16, u16)] = &[
    ("subtracts", 2, 2),
    ("swaps", 0, 2),
    ("hands over arguments", 1, 4),
    ("calls by kinds", 0, 4),
    ("shows its roots", 1, 1),
    ("tells of its frames", 1, 1),
    ("is full", 0, 2),
    ("stores over half a long", 3, 2),
    ("rearranges", 0, 4),
];

/// Whether a story goes as it is to.
fn goes_well(frames: &mut Frames, story: &str) -> Result<bool, Abrupt> {
    match story {
        "subtracts" => subtracts(frames),
        "swaps" => swaps(frames),
        "hands over arguments" => hands_over(frames),
        "calls by kinds" => calls_by_kinds(frames),
        "shows its roots" => shows_roots(frames),
        "tells of its frames" => tells_of_frames(frames),
        "is full" => is_full(frames),
        "stores over half a long" => stores_over_half_a_long(frames),
        "rearranges" => rearranges(frames),
        _ => Ok(false),
    }
}

#[test]
fn stories_go_well(rt: HostRuntime) -> Result<(), AllocError> {
    for (story, max_locals, max_stack) in STORIES {
        let mut frames = main_frame(rt.alloc(), *max_locals, *max_stack)?;
        assert!(rt; goes_well(&mut frames, story) == Ok(true), "{story}");
    }
    Ok(())
}
