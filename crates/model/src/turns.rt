//! Who takes a turn, and what comes of it.
ghost use Rattle.std.specs.Prelude.{◌≡◌};

use std::fmt;

/// Who takes a turn: the thread of this number, or the collector.
#[derive(Clone, Copy, Debug, PartialEq, Eq)]
pub enum Actor {
    Thread(u8),
    Collector,
}

/// A mistake that a verifier would have refused. It stops the world.
#[derive(Clone, Copy, Debug, PartialEq, Eq)]
pub enum Fault {
    /// F1: an operand is wanted and the stack is empty.
    StackEmpty,
    /// F2: a push past the method's limit.
    StackFull,
    /// F3: an operand or local of another kind than the instruction wants.
    WrongKind,
    /// F4: a local out of range, or half of a long.
    WrongLocal,
    /// F5: the pc is past the last instruction.
    NoInstruction,
    /// F6: an object of a wrong class.
    WrongClass,
    /// F7: a return of another kind than the method's.
    WrongReturn,
    /// F8: a 65th thread.
    ThreadLimit,
    /// F9: no method is selected, or an abstract one.
    NoMethod,
    /// F10: a monitor's count past 65,535.
    MonitorLimit,
}

impl Fault {
    ghost use Rattle.model.specs.Faults.{fault_number};

    /// The number after the F by which users know the fault, from 1 to 10.
    pub fn number(self) -> u8
        ensures { result ≡ fault_number self }
    {
        self as u8 + 1
    }
}

impl fmt::Display for Fault {
    fn fmt<W: fmt::Write>(&self, f: &mut fmt::Formatter<W>) -> fmt::Result {
        let number = self.number();
        write!(f, "F{number}")
    }
}

/// What a turn answers. Only `Done` and `Fault` make a row of the journal; after any other answer the world is as it
/// was.
#[derive(Clone, Copy, Debug, PartialEq, Eq)]
pub enum Turn {
    /// The instruction or the collector's step was carried out.
    Done,
    /// The thread was never started, has ended, or waits for a monitor or another thread.
    NotReady,
    /// There was a fault before.
    Stopped,
    /// The instruction is at fault; the fault is recorded, and nothing else changes.
    Fault(Fault),
    /// The instruction prints, and its bytes don't fit.
    OutputFull,
    /// As many rows as the limit allows were made.
    StepLimit,
}

/// How a world stands.
#[derive(Clone, Copy, Debug, PartialEq, Eq)]
pub enum Status {
    /// Some thread is ready.
    Running,
    /// Every thread has ended.
    Finished,
    /// Some thread lives, and none is ready.
    Stuck,
    /// There was a fault.
    Faulted,
}

/// Whether a class is initialised (JVMS 5.5).
#[derive(Clone, Copy, Debug, PartialEq, Eq)]
pub enum ClassState {
    Unused,
    Running(u8),
    Done,
    Failed,
}

/// Whether a frame's method was kept from running by the initialisation of a class.
#[derive(Clone, Copy, Debug, PartialEq, Eq)]
pub enum Mark {
    Unmarked,
    Waiting,
    Failing,
}

/// The exceptions that the machine makes by itself (JVMS 2.10, 6.5), by their classes in `java/lang`.
#[derive(Clone, Copy, Debug, PartialEq, Eq)]
pub enum Exception {
    Arithmetic,
    NullPointer,
    ClassCast,
    NegativeArraySize,
    ArrayStore,
    IllegalMonitorState,
    ArrayIndexOutOfBounds,
    IllegalThreadState,
    StackOverflow,
    ExceptionInInitializer,
    NoClassDefFound,
}

/// Why an instruction completes abruptly (JVMS 2.6.5): a fault, or an exception that the machine makes.
#[derive(Clone, Copy, Debug, PartialEq, Eq)]
pub enum Abrupt {
    Fault(Fault),
    Throw(Exception),
}

impl From<Fault> for Abrupt {
    ghost use Rattle.std.specs.Prelude.{◌≡◌};
    ghost use Rattle.model.specs.declared.turns.Abrupt.TheVariants.{Fault as Faulted};

    ghost from_gives = { λ fault abrupt. abrupt ≡ Faulted fault };

    fn from(fault: Fault) -> Abrupt {
        Abrupt::Fault(fault)
    }
}
