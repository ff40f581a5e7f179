//! One case of the instruction table: a thread's turn on the state of a running program.
//!
//! `State` (state.rt) is what a caller has: a program, its threads, its heap, its output, and the fault, if there was one.
//! `Machine` (machines.rt) is what one turn works on: the frames of the thread that runs, static fields, class states,
//! heap and output. The other threads' frames stand in `Threads` (threads.rt).
//!
//! The general way makes any turn; each of its functions ensures what the instruction table says of its operation:
//!
//! | files | what stands there |
//! |---|---|
//! | acting | the match over a step's operation, and what becomes of the machine |
//! | asides, pushes, exchanges | switches and wide longs; values that a turn puts on the stack |
//! | fields, statics, arrays, casts, types, type_operations, objects, kinds | members, arrays, types, new objects |
//! | calls, invoking, starting, own_prints, printing, returns, leaving | calls, the machine's own methods, returns |
//! | monitoring, awaiting, readiness | monitors; what a turn waits for, and what it prints, before it is made |
//! | throwing, unwinding, landing | exceptions, where a throwable lands, and that it does |
//! | initialising, claims, opening | class initialisation, and how a program opens |
//! | heaps, with the files of heaps/ | objects in cells, the account of the cells, the write barrier |
//! | state/classes, state/listing, state/objects, state/showing, state/threads, held, lists, names | what an observer is told |
//!
//! The quick ways make many turns in one call. Each answers how many it made; then the general way is asked. Within a
//! loop, what makes one step answers that it did, or that it changed nothing:
//!
//! | files | what stands there |
//! |---|---|
//! | first_turns, state/first, state/running, idle | turns of several threads in a loop; who is known not to be ready, or to be so |
//! | bursts, state/bursts | many turns of a thread that is alone, whatever comes of their steps, and their rows |
//! | register_turns, code_calls, code_steps, monitors_in_code, callees, heap_steps | register code and other steps, on lent frames |
//! | quick_calls, quick_arrays, quick_fields, quick_statics, quick_casts | steps on whole frames, of which nothing unusual comes |
//! | lone_rounds, noted_rounds, quick_objects, doubling | rounds with turns of the collector and with new objects |
//! | owed_rounds, heaps/owed, heaps/owed_steps | such rounds on lent frames: the collector's turns after many steps |
//! | stops | places before which such rounds end |
//!
//! To change what an instruction does, begin with its family in the crate `model`, then its file of the general way, and
//! then the quick ways that carry it out too.
#![tactic(auto)]

mod acting;
mod arrays;
mod asides;
mod awaiting;
mod bursts;
mod callees;
mod calls;
mod casts;
mod claims;
mod code_calls;
mod code_steps;
mod doubling;
pub mod errors;
mod exchanges;
mod fields;
mod first_turns;
mod heap_steps;
mod heaps;
pub mod held;
pub mod idle;
mod initialising;
mod invoking;
pub mod kinds;
mod landing;
mod leaving;
pub mod lists;
pub mod lone_rounds;
mod machines;
mod methods;
mod monitoring;
mod monitors_in_code;
mod names;
pub mod noted_rounds;
mod objects;
mod opening;
mod owed_rounds;
mod own_prints;
mod printing;
mod pushes;
mod quick_arrays;
mod quick_calls;
mod quick_casts;
mod quick_fields;
mod quick_objects;
mod quick_statics;
mod readiness;
mod register_turns;
mod returns;
mod starting;
pub mod state;
mod statics;
pub mod stops;
mod threads;
mod throwing;
mod type_operations;
mod types;
mod unwinding;
