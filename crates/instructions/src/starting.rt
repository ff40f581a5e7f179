//! The machine's own methods on objects, a thread's start and join among them.
ghost use Rattle.std.specs.Prelude.{◌≡◌, ◌&&◌, ◌<◌, ◌≤◌, IfSome, Ok, OnErr, Some, false, is_some, length, codes, true};
ghost use Rattle.std.specs.List.{find};
ghost use Rattle.std.specs.Option.{option_copied};
ghost use Rattle.std.specs.Str.{bytes_eq};
ghost use Rattle.model.specs.Accepted.Refusals.{refusal_of};
ghost use Rattle.model.specs.Frames.{ref_on, running_frame};
ghost use Rattle.model.specs.Objects.{object_at};
ghost use Rattle.model.specs.Table.Threads.{joined};
ghost use Rattle.resolve.specs.Numbers.{all_classes};
ghost use Rattle.instructions.specs.declared.kinds.Kind.TheVariants.{Instance};
ghost use Rattle.instructions.specs.Acting.{Begins, CanBegin, Keeps, Ready, Stays, TurnsAmong, site_at};
ghost use Rattle.instructions.specs.Heaps.{all_shaded, held};
ghost use Rattle.instructions.specs.OwnCalls.{begins, begun_known, begun_of, begun_writes, is_printing, own_call};
ghost use Rattle.instructions.specs.OwnCalls.{run_signature, starts};
ghost use Rattle.instructions.specs.CallsByNumbers.{known_at, selected_place};
ghost use Rattle.instructions.specs.Shown.{object_shown};
ghost use Rattle.instructions.specs.Starting.{is_own_run, is_run, is_run_row, lives_on};

use crate::acting::{Begun, Stepped, Turned, alone};
use crate::heaps::Heap;
use crate::kinds::{Course, Kind};
use crate::machines::Machine;
use linking::method_tables::{Body, MethodInfo};
use linking::selection_rows::SelectionRow;
use loader::programs::Program;
use model::builtins::Builtin;
use model::listings::Method;
use model::places::MethodPlace;
use model::turns::{Exception, Fault};

/// How many threads may be started.
const MOST_THREADS: usize = 64;

/// How many classes the machine has of its own, which are numbered after those of the program.
const OWN_CLASSES: usize = 23;

/// Whether a method is called `run()V`.
fn is_run(method: &Method) -> bool
    ensures { result ≡ is_run method.now }
{
    method.name.is("run") && method.descriptor.is("()V")
}

/// Whether it is the `run` of the machine's own Thread.
fn is_own_run(body: Body) -> bool
    ensures { result ≡ is_own_run body }
{
    match body {
        Body::Own(builtin) => matches!(builtin, Builtin::RunThread),
        Body::NoCode | Body::Coded { .. } => false,
    }
}

/// Whether a row of a selection table is that of `run()V`. Of the machine's own classes Thread alone has a `run`.
fn is_run_row(program: &Program, row: SelectionRow) -> bool
    ensures { result ≡ is_run_row program.now row }
{
    match program.listings().get(row.class) {
        Some(class) => match class.methods.get(row.method) {
            Some(method) => is_run(method),
            None => false,
        },
        None => {
            let place = MethodPlace {
                class: row.class,
                method: row.method,
            };
            match program.tables().methods.method(place) {
                Some(method) => is_own_run(method.body()),
                None => false,
            }
        }
    }
}

/// The row of `run()V` among these.
fn run_row<'a>(program: &Program, rows: &'a [SelectionRow]) -> Option<&'a SelectionRow>
    ensures { option_copied result ≡ find (is_run_row program.now) rows.now }
{
    rows.iter().find(|row| is_run_row(program, **row))
}

/// The method `run()V` that is selected for the objects of the class of a number.
fn run_place(program: &Program, class: u16) -> Option<MethodPlace>
    requires accepted { refusal_of program.now ≡ None }
    ensures { result ≡ selected_place program.now run_signature (Instance class) }
{
    if class as usize >= program.listings().len() + OWN_CLASSES {
        return None;
    }
    match run_row(program, program.table(class as usize)) {
        Some(row) => Some(MethodPlace {
            class: row.class,
            method: row.method,
        }),
        None => None,
    }
}

/// The thread that begins with a method, on an object; none where the method has no code.
fn begun_by(place: MethodPlace, method: &MethodInfo, object: u32) -> Option<Begun>
    ensures { result ≡ begun_known place object (Some method.now) }
{
    match method.body() {
        Body::NoCode => None,
        Body::Own(_) => Some(Begun::Ended),
        Body::Coded {
            max_locals,
            max_stack,
        } => Some(Begun::Runs {
            place,
            max_locals,
            max_stack,
            reference: object,
        }),
    }
}

/// The thread that starts on an object of this kind; none where no `run()V` with code is selected for it.
fn begun_of(program: &Program, kind: Kind, object: u32) -> Option<Begun>
    requires accepted { refusal_of program.now ≡ None }
    ensures { result ≡ begun_of program.now object (Some kind) }
{
    match kind {
        Kind::Instance(class) => match run_place(program, class) {
            Some(place) => match program.tables().methods.method(place) {
                Some(method) => begun_by(place, method, object),
                None => None,
            },
            None => None,
        },
        Kind::Array(_) => None,
    }
}

/// Whether the thread of this number was started and goes on, the threads being in these courses.
pub(crate) fn lives(courses: &[Course], thread: Option<u32>) -> bool
    ensures { result ≡ lives_on courses.now thread }
{
    match thread {
        Some(thread) => match courses.get(thread as usize) {
            Some(course) => *course == Course::Live,
            None => false,
        },
        None => false,
    }
}

/// Shades the object of a thread that begins to run.
fn shade_begun(heap: &mut Heap, object: u32, begun: Begun)
    ensures { heap.new ≡ all_shaded heap.old (begun_writes object begun) }
{
    match begun {
        Begun::Ended => {}
        Begun::Runs { .. } => heap.shade(Some(object)),
    }
}

impl Machine {
    /// A thread begins on the object at the top, which goes and is to know it by its number.
    fn begin(
        &mut self,
        program: &Program,
        courses: &[Course],
        next: u16,
        object: u32,
        begun: Begun,
    ) -> Stepped
        requires ready { Ready program.now self.old }
        requires there { 1 ≤ length (running_frame self.old.frames).stack }
        requires object { is_some (held self.old.heap object) ≡ true }
        requires few { length courses.now < 64 }
        ensures step { TurnsAmong program.now courses.now self.old self.new (Ok result)
            (λ w. begins (site_at program.now self.old w next) object
            (object_shown program.now (held self.old.heap object)) (Some begun)) }
        ensures begun { result.begun ≡ Some begun }
        ensures keeps { Keeps program.now self.old self.new }
    {
        self.frames.discard(next, 1);
        self.heap.set_thread(object, courses.len() as u32);
        shade_begun(&mut self.heap, object, begun);
        Stepped {
            turned: Turned::to(Course::Live),
            begun: Some(begun),
        }
    }

    /// start: F8 where 64 threads were started, F9 where the object has no `run()V` with code;
    /// IllegalThreadStateException where a thread was started on it.
    fn start(
        &mut self,
        program: &Program,
        courses: &[Course],
        next: u16,
        object: u32,
    ) -> Result<Stepped, Fault>
        requires ready { Ready program.now self.old }
        requires there { 1 ≤ length (running_frame self.old.frames).stack }
        requires object { is_some (held self.old.heap object) ≡ true }
        ensures step { TurnsAmong program.now courses.now self.old self.new result
            (λ w. let s = site_at program.now self.old w next in
            starts s self.old.heap object (object_at w object)) }
        ensures begins { Begins courses.now result }
        ensures kept { OnErr result (Stays self.old self.new) }
        ensures keeps { Keeps program.now self.old self.new }
    {
        if self.heap.thread(object).is_some() {
            return alone(self.raise(program, Exception::IllegalThreadState));
        }
        if courses.len() >= MOST_THREADS {
            return Err(Fault::ThreadLimit);
        }
        match self.heap.kind(object) {
            Some(kind) => match begun_of(program, kind, object) {
                Some(begun) => Ok(self.begin(program, courses, next, object, begun)),
                None => Err(Fault::NoMethod),
            },
            None => unreachable!(),
        }
    }

    /// join: the thread waits where the object's thread goes on.
    fn join(&mut self, program: &Program, courses: &[Course], next: u16, object: u32) -> Stepped
        requires ready { Ready program.now self.old }
        requires there { 1 ≤ length (running_frame self.old.frames).stack }
        ensures step { TurnsAmong program.now courses.now self.old self.new (Ok result)
            (λ w. joined (site_at program.now self.old w next) (Ok (Some object))) }
        ensures begun { result.begun ≡ None }
        ensures keeps { Keeps program.now self.old self.new }
    {
        let turned = if lives(courses, self.heap.thread(object)) {
            Turned::to(Course::Live)
        } else {
            self.do_nothing(program, next)
        };
        Stepped {
            turned,
            begun: None,
        }
    }

    /// One of the machine's own methods, on the object at the top.
    pub(crate) fn call_own(
        &mut self,
        program: &Program,
        courses: &[Course],
        next: u16,
        builtin: Builtin,
        object: u32,
    ) -> Result<Stepped, Fault>
        requires ready { Ready program.now self.old }
        requires there { 1 ≤ length (running_frame self.old.frames).stack }
        requires object { is_some (held self.old.heap object) ≡ true }
        requires top { is_printing builtin ≡ false → ref_on (running_frame self.old.frames).stack ≡ Ok (Some object) }
        ensures step { TurnsAmong program.now courses.now self.old self.new result
            (λ w. own_call self.old.heap (site_at program.now self.old w next) builtin) }
        ensures begins { Begins courses.now result }
        ensures kept { OnErr result (Stays self.old self.new) }
        ensures keeps { Keeps program.now self.old self.new }
    {
        match builtin {
            Builtin::Initialize | Builtin::RunThread => {
                alone(Ok(self.do_nothing(program, next)))
            }
            Builtin::StartThread => self.start(program, courses, next, object),
            Builtin::JoinThread => Ok(self.join(program, courses, next, object)),
            Builtin::PrintInt | Builtin::PrintLong | Builtin::PutByte => Err(Fault::NoInstruction),
        }
    }
}
