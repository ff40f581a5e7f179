//! Small programs, each one class, and what their exploration finds.

use exploring::{Bounds, Explored, explore};
use ideal_run::Transitions;
use model::journals::Limits;
use model::listings::Listing;
use model::watching::Watch;
use std::alloc::{AllocError, Global};
use std::test::Fail;

/// Two threads, each of which locks two objects, in opposite orders.
pub const LOCKS: &str =
    ".class D\n.super java/lang/Thread\n.field static a Ljava/lang/Object;\n.field static b Ljava/lang/Object;\n\
    .method static main()V\n.limit stack 1\n.limit locals 0\nnew java/lang/Object\nputstatic D/a Ljava/lang/Object;\n\
    new java/lang/Object\nputstatic D/b Ljava/lang/Object;\nnew D\ninvokevirtual D/start()V\n\
    getstatic D/a Ljava/lang/Object;\nmonitorenter\ngetstatic D/b Ljava/lang/Object;\nmonitorenter\n\
    getstatic D/b Ljava/lang/Object;\nmonitorexit\ngetstatic D/a Ljava/lang/Object;\nmonitorexit\nreturn\n.end method\n\
    .method run()V\n.limit stack 1\n.limit locals 1\n\
    getstatic D/b Ljava/lang/Object;\nmonitorenter\ngetstatic D/a Ljava/lang/Object;\nmonitorenter\n\
    getstatic D/a Ljava/lang/Object;\nmonitorexit\ngetstatic D/b Ljava/lang/Object;\nmonitorexit\nreturn\n.end method\n";

/// Makes objects for ever, and drops each.
pub const GARBAGE: &str =
    ".class G\n.super java/lang/Object\n.method static main()V\n.limit stack 1\n.limit locals 0\n\
    Again:\nnew java/lang/Object\npop\ngoto Again\n.end method\n";

/// Two threads, each of which makes an object and drops it.
pub const MAKERS: &str =
    ".class M\n.super java/lang/Thread\n.method static main()V\n.limit stack 1\n.limit locals 0\n\
    new M\ninvokevirtual M/start()V\nnew java/lang/Object\npop\nreturn\n.end method\n\
    .method run()V\n.limit stack 1\n.limit locals 1\nnew java/lang/Object\npop\nreturn\n.end method\n";

/// Two threads, each of which calls a method that counts to three by itself.
pub const HELPERS: &str =
    ".class H\n.super java/lang/Thread\n.method static main()V\n.limit stack 1\n.limit locals 0\n\
    new H\ninvokevirtual H/start()V\ninvokestatic H/three()I\npop\nreturn\n.end method\n\
    .method static three()I\n.limit stack 2\n.limit locals 1\niconst_0\nistore_0\nAgain:\niinc 0 1\n\
    iload_0\niconst_3\nif_icmplt Again\niload_0\nireturn\n.end method\n\
    .method run()V\n.limit stack 1\n.limit locals 1\ninvokestatic H/three()I\npop\nreturn\n.end method\n";

/// Prints an A, again and again.
pub const PRINTS: &str =
    ".class P\n.super java/lang/Object\n.method static main()V\n.limit stack 1\n.limit locals 0\n\
    Again:\nbipush 65\ninvokestatic vm/Sys/putc(I)V\ngoto Again\n.end method\n";

/// Wants an operand that isn't there.
pub const FAULT: &str =
    ".class F\n.super java/lang/Object\n.method static main()V\n.limit stack 1\n.limit locals 0\n\
    pop\nreturn\n.end method\n";

pub const LIMITS: Limits = Limits {
    steps: 1_000,
    output: 3,
};

/// Room for all states of these programs, and a cell for each object.
pub const ALL: Bounds = Bounds {
    states: 1_000,
    no_room: false,
};

/// The program of a text.
pub fn program_of(alloc: Global, text: &str) -> Result<Vec<Listing>, Fail> {
    let tree = jasmin::read(alloc, text.as_bytes())?;
    let listing = assembler::listing(alloc, tree)?;
    Ok(vec![in alloc; listing]?)
}

/// How often a watch was told, and what the last time.
#[derive(Clone, Copy, Drop)]
pub struct Told {
    pub times: usize,
    pub done: usize,
    pub left: usize,
}

impl Watch for Told {
    fn reached(&mut self, done: usize, left: usize) {
        self.times = self.times.saturating_add(1);
        self.done = done;
        self.left = left;
    }
}

/// What the exploration of a text finds, and what a watch was told.
pub fn watched(
    alloc: Global,
    text: &str,
    limits: Limits,
    bounds: Bounds,
) -> Result<(Explored, Told), Fail> {
    let program = program_of(alloc, text)?;
    let Some(transitions) = Transitions::new(alloc, &program, limits)? else {
        return Err(Fail::from(AllocError));
    };
    let mut told = Told {
        times: 0,
        done: 0,
        left: 0,
    };
    let explored = explore(alloc, &transitions, bounds, &mut told);
    Ok((explored, told))
}

/// What the exploration of a text finds.
pub fn explored(
    alloc: Global,
    text: &str,
    limits: Limits,
    bounds: Bounds,
) -> Result<Explored, Fail> {
    let (explored, _) = watched(alloc, text, limits, bounds)?;
    Ok(explored)
}
