//! The methods that the machine itself has.

/// A built-in method. A call of one is one turn and makes no frame.
#[derive(Clone, Copy, PartialEq, Eq)]
pub enum Builtin {
    /// `vm/Sys/print(I)V`: an int in decimal, and a newline.
    PrintInt,
    /// `vm/Sys/printl(J)V`: a long in decimal, and a newline.
    PrintLong,
    /// `vm/Sys/putc(I)V`: the low 8 bits of an int, as one byte.
    PutByte,
    /// `<init>()V` of the machine's own classes: nothing.
    Initialize,
    /// `java/lang/Thread/run()V`: nothing.
    RunThread,
    /// `java/lang/Thread/start()V`: a thread that begins with the object's `run()V`.
    StartThread,
    /// `java/lang/Thread/join()V`: waits for the end of the object's thread.
    JoinThread,
}
