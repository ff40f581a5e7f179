//! The frames of one thread (JVMS 2.6), in one fixed array of 4,096 units that is made once.
//!
//! A contract sees `Frames` as a `List Frame` of `Rattle.model.specs.Frames`, outermost first; the last one runs. No
//! call but `new` takes memory. With f for `running_frame frames.old`, and under `0 < length frames` where a frame must
//! run:
//!
//! | call | what it ensures |
//! |---|---|
//! | `new` | `[]` |
//! | `depth` | how many frames there are |
//! | `has_room_for(max_locals, max_stack)` | `has_room_for frames max_locals max_stack` |
//! | `enter(method, max_locals, max_stack)` | under `has_room_for`: `frames ++ opening_frame method max_locals max_stack ∷ []` |
//! | `call(method, max_locals, max_stack, n)` | under `has_room_for`, `n ≤ length f.stack` and `units_of_all (take n f.stack) ≤ max_locals`: `frames_of_call frames method max_locals max_stack n`, where the n values at the top of the caller's stack are the first locals |
//! | `call_with(method, max_locals, max_stack, kinds, below)` | under `units_of_all (take n f.stack) ≤ max_locals` with n for `length kinds + below`, wherever `fault_in_pops (reverse kinds) f.stack ≡ None`: where it is true, that is so, there is room, and `frames_of_call frames method max_locals max_stack n`; where it is false, nothing changes |
//! | `leave` | `callers frames` |
//! | `method`, `pc`, `monitor`, `mark`, `room`, `taken`, `values`, `locals` | of f: its method, its pc, its monitor, its mark, the units that its stack may take and takes, how many values stand on it, how many entries its locals have |
//! | `value(k)` | `top_of (drop k f.stack)` |
//! | `int`, `long`, `reference`, `two_ints`, `two_longs`, `two_references`, `count_and_long` | `int_on f.stack` and the like; where it is `Ok`, the stack has so many values (`deep`), which take so many units (`wide`) |
//! | `int_below(k)`, `long_below(k)`, `reference_below(k)` | `int_on (drop k f.stack)` and the like |
//! | `go_to(pc)` | `with_running frames (record f { pc = pc })` |
//! | `clear(pc)` | `with_running frames (record f { pc = pc; stack = [] })` |
//! | `set_monitor(m)`, `set_mark(m)` | `with_running frames (record f { monitor = m })`, `with_running frames (record f { mark = m })` |
//! | `discard(next, n)` | under `n ≤ length f.stack`: `with_running frames (replaced next f n []).frame` |
//! | `replace(next, n, v)`, `replace_slot(next, n, s)` with v for `value_of s` | also under `units_of v ≤ units_of_all (take n f.stack)`: `with_running frames (replaced next f n (v ∷ [])).frame` |
//! | `replace_all(next, n, vs)` | under `n ≤ length f.stack` and `units_of_all vs ≤ units_of_all (take n f.stack)`: `with_running frames (replaced next f n vs).frame` |
//! | `replace_if_room(next, n, v)`, `replace_slot_if_room(next, n, s)`, `replace_all_if_room(next, n, vs)` | under `n ≤ length f.stack`: `told result after ≡ moved_on frames (replaced_if_room next f n vs)`, and nothing changes on an `Err` |
//! | `has_local(kind, i)`, `load(kind, i)`, `local_int(i)` | `has_local kind f.locals i`, `local_at kind f.locals i`, `as_int (local_at Int f.locals i)` |
//! | `operand(kind)`, `operand_below(kind, k)` | `value_on kind f.stack`, `value_on kind (drop k f.stack)` |
//! | `entries(d)`, `reference_at(d, j)`, `monitor_at(d)` | of the frame d, counted from the outermost: `length (entries_at frames d)`, `ref_at (entries_at frames d) j`, `monitor_at frames d` |
//! | `frame_at(d)` | of the frame d, counted from the outermost: `head_at frames d`, its method, pc, monitor and mark, and the units that its stack takes and may take |
//! | `store(next, n, i, v)` | under `n ≤ length f.stack`: `with_running frames (stored next f n i v).frame` |
//! | `discard_units(next, n, u)`, `replace_units(next, n, u, v)`, `store_units(next, n, u, i, v)` | what `discard`, `replace` and `store` do, where u is known to be `units_of_all (take n f.stack)` |
//! | `is_at(code, place)` | `true` only where f stands as the place's point says: `IsAt` |
//! | `run_registers(code, place, most)` | under `IsAt` and `Keeps`: so many steps of register code lead from f's units to those that it then has, at the point that is reached: `RunsOn` |
//! | `views()` | `frames`, as plain data |
//!
//! A burst of calls and returns keeps less (code_frames.rt): of a frame that runs register code no more than the code,
//! the place in it and the unit at which the frame begins (`At`), and for one that called another, how high its stack
//! is. What else a frame has, the point at that place says. With `frames` for `frames_at` of what is lent and where the
//! running frame stands, and f for `running_frame frames`:
//!
//! | call | what it ensures |
//! |---|---|
//! | `lend(frames, callers, code, place)` | under `IsAt`, where f runs the code's method, gives no monitor back and isn't marked: `frames`; `callers` is room for those that call |
//! | `take_back(at)` | `frames` |
//! | `run(at, memory, context, most)` | as `run_registers`: `Runs` |
//! | `call(at, code, start, kinds, below)` | as `call_with`, of the method of the code, with its limits; the frame that it enters stands at the place `start`, and the caller stays at its call. A `None` leaves `frames` as they are |
//! | `back(at)` | the running frame is left, and its caller goes on at the place after its call: `with_running (callers frames) (replaced next (running_frame (callers frames)) 0 []).frame`, with the pc of that place for `next`. A `None` changes nothing |
//! | `back_with(at, v)` | the same with `v ∷ []` |
//! | `operand(at, kind)`, `reference_below(at, k)`, `locals_held(at)` | as those of `Frames` |
//!
//! Inside, an activation record says where a frame's locals begin in the array; its stack stands after them, a value
//! in one unit each, while the units that the values take are counted beside them. So each call takes the time of the
//! values that it moves. The running frame's record stands apart from those below it, in fields of its own, so nobody
//! has to ask which one runs. The records below it stay in their places when they are left, so that a call writes over
//! them and takes no memory. All of it stands behind one reference, so that frames are moved as one word.
#![tactic(auto)]

mod activations;
mod arguments;
pub mod code_frames;
pub mod heads;
mod locals;
mod operands;
mod registers;
mod results;
mod thread_frames;
mod units;

pub use thread_frames::Frames;
