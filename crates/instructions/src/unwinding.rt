//! Where a throwable lands (JVMS 2.10): the innermost frame with a fitting row handles it, and frames inside of it are
//! left.
ghost use Rattle.std.specs.Prelude.{◌≡◌, None, reverse};
ghost use Rattle.model.specs.Accepted.Refusals.{refusal_of};
ghost use Rattle.model.specs.Unwinding.{way_of};
ghost use Rattle.instructions.specs.Shown.{kind_name};
ghost use Rattle.instructions.specs.Throwing.{IsThrown, IsWithin, answer_by, handler_by, handler_in_rows, is_full_at};
ghost use Rattle.instructions.specs.Throwing.{is_kind_below, is_throwable, row_fits, takes_kind, way_as};

use crate::kinds::Kind;
use crate::machines::Machine;
use crate::methods::{info_of, is_initializer};
use frames::heads::FrameHead;
use linking::method_tables::{Catch, Row};
use loader::programs::Program;
use model::turns::Mark;

/// What a frame does with a throwable.
pub(crate) enum Answer {
    /// goes on at a handler
    Handles(u16),
    /// is an initializer, and throws an ExceptionInInitializerError in its place
    Fails,
    Leaves,
}

/// Where a throwable lands: how many frames are left, and what becomes of the next.
#[derive(Clone, Copy)]
pub(crate) enum Target {
    /// at a handler, at this pc
    Handler(usize, u16),
    /// at an initializer that fails
    Initializer(usize),
    /// all frames are left, and the thread ends
    Nowhere,
}

/// Whether what is of this kind is of the class of a number or of one below it.
fn is_kind_below(program: &Program, kind: Kind, above: usize) -> bool
    ensures { result ≡ is_kind_below program.now kind above }
{
    match kind {
        Kind::Instance(class) => program.tables().classes.is_subtype(class as usize, above),
        Kind::Array(_) => false,
    }
}

/// Whether what is of this kind can be thrown.
pub(crate) fn is_throwable(program: &Program, kind: Kind) -> bool
    ensures { result ≡ is_throwable program.now kind }
{
    is_kind_below(program, kind, program.listings().len() + 1)
}

fn takes(program: &Program, kind: Kind, catch: Catch) -> bool
    ensures { result ≡ takes_kind program.now kind catch }
{
    match catch {
        Catch::Any => true,
        Catch::Class(above) => is_kind_below(program, kind, above),
    }
}

fn fits(program: &Program, kind: Kind, pc: u16, row: Row) -> bool
    ensures { result ≡ row_fits program.now kind pc row }
{
    row.start <= pc && pc < row.end && takes(program, kind, row.class)
}

/// The handler of the first row that fits.
fn handler_in(program: &Program, kind: Kind, pc: u16, rows: &[Row]) -> Option<u16>
    ensures { result ≡ handler_in_rows program.now kind pc rows.now }
{
    match rows.iter().find(|row| fits(program, kind, pc, **row)) {
        Some(row) => Some(row.handler),
        None => None,
    }
}

/// The handler of a frame. `None` where no row fits, and where the frame waits or fails.
fn handler(program: &Program, kind: Kind, head: FrameHead) -> Option<u16>
    ensures { result ≡ handler_by program.now kind head head.mark }
{
    match head.mark {
        Mark::Unmarked => match info_of(program, head.method) {
            Some(method) => handler_in(program, kind, head.pc, method.rows()),
            None => None,
        },
        Mark::Waiting | Mark::Failing => None,
    }
}

/// What a frame does with a throwable of a kind.
fn answer_of(program: &Program, kind: Kind, head: FrameHead) -> Answer
    ensures { result ≡ answer_by program.now kind head }
{
    if let Some(handler) = handler(program, kind, head) {
        return Answer::Handles(handler);
    }
    let error = program.listings().len() + 3;
    if is_initializer(program, head.method) && !is_kind_below(program, kind, error) {
        Answer::Fails
    } else {
        Answer::Leaves
    }
}

impl Machine {
    /// Where a throwable of a kind lands.
    pub(crate) fn target(&self, program: &Program, kind: Kind) -> Target
        requires accepted { refusal_of program.now ≡ None }
        requires thrown { IsThrown program.now kind }
        ensures way { way_of program.now (kind_name program.now kind) (reverse self.now.frames)
            ≡ way_as self.now.frames result }
        ensures within { IsWithin self.now.frames result }
    {
        let depth = self.frames.depth();
        for left in 0..depth {
            let Some(head) = self.frames.frame_at(depth - left - 1) else {
                unreachable!()
            };
            match answer_of(program, kind, head) {
                Answer::Handles(handler) => return Target::Handler(left, handler),
                Answer::Fails => return Target::Initializer(left),
                Answer::Leaves => {}
            }
        }
        Target::Nowhere
    }

    /// Whether the stack of the handler's frame has no room for the throwable.
    pub(crate) fn is_full(&self, target: Target) -> bool
        requires { IsWithin self.now.frames target }
        ensures { result ≡ is_full_at self.now.frames target }
    {
        match target {
            Target::Handler(left, _) => match self.frames.frame_at(self.frames.depth() - left - 1) {
                Some(head) => head.room == 0,
                None => unreachable!(),
            },
            Target::Initializer(_) | Target::Nowhere => false,
        }
    }
}
