//! What is done under the lock.
//!
//! With one round a turn a worker takes the lock for each row. So what a thread's turn needs then stands in the loop of
//! the worker, and what makes many rows, or is rare, is a call (docs/SPEED.md).
ghost use Rattle.std.specs.Prelude.{◌≡◌, ◌<◌};
ghost use Rattle.model.specs.Machines.{after_turn_by, answer_to};
ghost use Rattle.model.specs.Observers.{next_birth_of, phase_of, status_of, pick_of};
ghost use Rattle.scheduler.specs.Rounds.{answered_by, collections, turned_by, after_rounds as after_thread_rounds};
ghost use Rattle.scheduler.specs.Rounds.{swept, rounds_answer as thread_rounds_answer};
ghost use Rattle.hall.specs.declared.roles.Role.TheVariants.{Both};
ghost use Rattle.hall.specs.Roles.{after_bursts, after_carried, after_role, answer_bursts, answer_carried, answer_role};
ghost use Rattle.hall.specs.Roles.{collected, collected_answer, cycled, cycled_after, goes_on, is_idle};
ghost use Rattle.hall.specs.Roles.{last_is_collector, swept_once, swept_after, after_rounds, answer_rounds};
ghost use Rattle.hall.specs.Roles.{after_known, answer_known, done_so_far};
ghost use Rattle.hall.specs.Shares.{Takes, CountsRows};

use crate::roles::{Burst, Role};
use crate::shares::{Share, Shared};
use model::colours::Phase;
use model::turns::{Actor, Status, Turn};
use scheduler::rounds::is_done;
use std::sync::ledger::Ledger;

// What rounds answer that end with a turn of this answer.
fn done_so_far(answer: Turn) -> Turn
    ensures { result ≡ done_so_far answer }
{
    match answer {
        Turn::Done | Turn::NotReady => Turn::Done,
        Turn::Stopped | Turn::Fault(_) | Turn::OutputFull | Turn::StepLimit => answer,
    }
}

// Whether rounds that answered this are followed by as many; a collection is due from the birth `due` on.
fn goes_on(answer: Turn, next: u32, due: u32) -> bool
    ensures { result ≡ goes_on answer next due }
{
    is_done(answer) && next < due
}

fn is_idle(phase: Phase) -> bool
    ensures { result ≡ is_idle phase }
{
    match phase {
        Phase::Idle => true,
        Phase::Statics { .. } | Phase::Frames { .. } | Phase::Mark { .. } | Phase::Append { .. } =>
            false,
    }
}

impl<L: Ledger> Shared<L> {
    /// How the world stands.
    pub fn status(&self) -> Status
        ensures { result ≡ status_of self.now }
    {
        self.world.status()
    }

    // Whether the world runs.
    #[inline(never)]
    pub(crate) fn is_running(&self) -> bool {
        match self.status() {
            Status::Running => true,
            Status::Finished | Status::Stuck | Status::Faulted => false,
        }
    }

    // Whether the journal's last row is the collector's.
    fn last_is_collector(&self) -> bool
        ensures { result ≡ last_is_collector self.now }
    {
        match self.world.journal().rows().last() {
            Some(row) => match row.actor {
                Actor::Collector => true,
                Actor::Thread(_) => false,
            },
            None => false,
        }
    }

    // One turn of an actor by this worker, counted where it makes a row.
    fn make(&mut self, share: &mut Share<L>, actor: Actor) -> Turn
        requires { share.old.worker < self.old.journal.workers }
        ensures world { self.new ≡ after_turn_by self.old actor share.old.worker }
        ensures answer { result ≡ answer_to self.old actor share.old.worker }
        ensures share { CountsRows self.old self.new share.old share.new }
    {
        let Shared { world, book, .. } = self;
        let answer = world.turn_by(actor, share.worker());
        let rows = world.journal().rows().len();
        share.note(book, answer, rows);
        answer
    }

    // A turn of the picked thread.
    #[inline(always)]
    fn carry(&mut self, share: &mut Share<L>) -> Turn
        requires { share.old.worker < self.old.journal.workers }
        ensures world { self.new ≡ turned_by self.old share.old.worker (pick_of self.old) }
        ensures answer { result ≡ answered_by self.old share.old.worker (pick_of self.old) }
        ensures share { CountsRows self.old self.new share.old share.new }
    {
        let Shared { world, book, .. } = self;
        let answer = world.turn_of_picked(share.worker());
        let rows = world.journal().rows().len();
        share.note(book, answer, rows);
        answer
    }

    // A collector's turn, unless the last row is the collector's.
    fn collect(&mut self, share: &mut Share<L>) -> Turn
        requires { share.old.worker < self.old.journal.workers }
        ensures world { self.new ≡ collected self.old share.old.worker }
        ensures answer { result ≡ collected_answer self.old share.old.worker }
        ensures share { CountsRows self.old self.new share.old share.new }
    {
        if self.last_is_collector() {
            Turn::NotReady
        } else {
            self.make(share, Actor::Collector)
        }
    }

    // A collector's turn, if the world is running.
    fn sweep_once(&mut self, share: &mut Share<L>)
        requires { share.old.worker < self.old.journal.workers }
        ensures world { self.new ≡ swept_once self.old share.old.worker }
        ensures share { CountsRows self.old self.new share.old share.new }
    {
        match self.status() {
            Status::Running => {
                let _ = self.make(share, Actor::Collector);
            }
            Status::Finished | Status::Stuck | Status::Faulted => {}
        }
    }

    // So many collector turns.
    #[inline(never)]
    fn collect_times(&mut self, share: &mut Share<L>, turns: u32)
        requires { share.old.worker < self.old.journal.workers }
        ensures world { self.new ≡ collections self.old share.old.worker turns }
        ensures share { CountsRows self.old self.new share.old share.new }
    {
        for _turn in 0..turns {
            let _ = self.make(share, Actor::Collector);
        }
    }

    // So many collector turns, if the world is running.
    #[inline(always)]
    fn sweep(&mut self, share: &mut Share<L>, gc: u32)
        requires { share.old.worker < self.old.journal.workers }
        ensures world { self.new ≡ swept self.old share.old.worker gc }
        ensures share { CountsRows self.old self.new share.old share.new }
    {
        if gc == 0 {
            return;
        }
        match self.status() {
            Status::Running => self.collect_times(share, gc),
            Status::Finished | Status::Stuck | Status::Faulted => {}
        }
    }

    // A turn of the picked thread and, where it was done, so many collector turns.
    #[inline(always)]
    fn carry_and_sweep(&mut self, share: &mut Share<L>, gc: u32) -> Turn
        requires { share.old.worker < self.old.journal.workers }
        ensures world { self.new ≡ swept_after result
            (turned_by self.old share.old.worker (pick_of self.old)) share.old.worker gc }
        ensures answer { result ≡ answered_by self.old share.old.worker (pick_of self.old) }
        ensures share { CountsRows self.old self.new share.old share.new }
    {
        let answer = self.carry(share);
        match answer {
            Turn::Done => self.sweep(share, gc),
            Turn::NotReady | Turn::Stopped | Turn::Fault(_) | Turn::OutputFull | Turn::StepLimit =>
                {}
        }
        answer
    }

    // So many rounds of the picked threads, each with so many collector turns, in one call, and what the last of them
    // answered.
    #[inline(never)]
    fn carry_many(&mut self, share: &mut Share<L>, gc: u32, extra: u32) -> Turn
        requires { share.old.worker < self.old.journal.workers }
        ensures world { self.new ≡ after_thread_rounds self.old share.old.worker gc extra }
        ensures answer { result ≡ thread_rounds_answer self.old share.old.worker gc extra }
        ensures share { CountsRows self.old self.new share.old share.new }
    {
        let Shared { world, book, .. } = self;
        let before = world.journal().rows().len();
        let answer = world.rounds_by(share.worker(), extra, gc);
        let rows = world.journal().rows().len();
        share.note_rows(book, rows - before, rows);
        answer
    }

    // The same. Where there are none to make, nothing is done.
    #[inline(always)]
    fn carry_on(&mut self, share: &mut Share<L>, gc: u32, extra: u32) -> Turn
        requires { share.old.worker < self.old.journal.workers }
        ensures world { self.new ≡ after_thread_rounds self.old share.old.worker gc extra }
        ensures answer { result ≡ thread_rounds_answer self.old share.old.worker gc extra }
        ensures share { CountsRows self.old self.new share.old share.new }
    {
        if extra == 0 {
            return Turn::Done;
        }
        self.carry_many(share, gc, extra)
    }

    // A round of a thread's turn and so many collector turns, and where it is done so many more.
    #[inline(always)]
    fn rounds(&mut self, share: &mut Share<L>, gc: u32, extra: u32) -> Turn
        requires { share.old.worker < self.old.journal.workers }
        ensures world { self.new ≡ after_rounds self.old (Both gc) share.old.worker extra }
        ensures answer { result ≡ answer_rounds self.old (Both gc) share.old.worker extra }
        ensures share { CountsRows self.old self.new share.old share.new }
    {
        let answer = self.carry_and_sweep(share, gc);
        if is_done(answer) {
            done_so_far(self.carry_on(share, gc, extra))
        } else {
            answer
        }
    }

    // The number of the next birth.
    pub(crate) fn next_birth(&self) -> u32
        ensures { result ≡ next_birth_of self.now }
    {
        self.world.next_birth()
    }

    // So many rounds of the picked threads, and so often again as many, while all were done and no collection is due.
    #[inline(never)]
    fn carry_again(&mut self, share: &mut Share<L>, burst: Burst, due: u32) -> Turn
        requires { share.old.worker < self.old.journal.workers }
        ensures world { self.new ≡ after_bursts self.old share.old.worker due burst.extra burst.again }
        ensures answer { result ≡ answer_bursts self.old share.old.worker due burst.extra burst.again }
        ensures share { CountsRows self.old self.new share.old share.new }
    {
        for _burst in 0..burst.again {
            let answer = self.carry_on(share, 0, burst.extra);
            if !goes_on(answer, self.next_birth(), due) {
                return done_so_far(answer);
            }
        }
        done_so_far(self.carry_on(share, 0, burst.extra))
    }

    // A round of a carrier and, where it was done, its burst.
    #[inline(always)]
    fn carry_in_bursts(&mut self, share: &mut Share<L>, due: u32) -> Turn
        requires { share.old.worker < self.old.journal.workers }
        ensures world { self.new ≡ after_carried self.old share.old.worker share.old.burst due }
        ensures answer { result ≡ answer_carried self.old share.old.worker share.old.burst due }
        ensures share { CountsRows self.old self.new share.old share.new }
    {
        let answer = self.carry(share);
        if is_done(answer) {
            self.carry_again(share, share.burst(), due)
        } else {
            answer
        }
    }

    // Whether the collector's cycle has ended.
    pub(crate) fn is_idle(&self) -> bool
        ensures { result ≡ is_idle (phase_of self.now) }
    {
        is_idle(self.world.phase())
    }

    // So many collector turns at most, until a cycle ends, each if the world is running.
    fn end_cycle(&mut self, share: &mut Share<L>, most: u32)
        requires { share.old.worker < self.old.journal.workers }
        ensures world { self.new ≡ cycled self.old share.old.worker most }
        ensures share { CountsRows self.old self.new share.old share.new }
    {
        for _turn in 0..most {
            if self.is_idle() {
                return;
            }
            self.sweep_once(share);
        }
    }

    // A collector's turn and, where it was done, so many more at most.
    #[inline(never)]
    fn collect_cycle(&mut self, share: &mut Share<L>, most: u32) -> Turn
        requires { share.old.worker < self.old.journal.workers }
        ensures world { self.new ≡ cycled_after result (collected self.old share.old.worker) share.old.worker most }
        ensures answer { result ≡ collected_answer self.old share.old.worker }
        ensures share { CountsRows self.old self.new share.old share.new }
    {
        let answer = self.collect(share);
        match answer {
            Turn::Done => self.end_cycle(share, most),
            Turn::NotReady | Turn::Stopped | Turn::Fault(_) | Turn::OutputFull | Turn::StepLimit =>
                {}
        }
        answer
    }

    // One turn of the share's role, by a worker that the journal knows.
    #[inline(always)]
    fn turn_of_role(&mut self, share: &mut Share<L>, due: u32) -> Turn
        requires { share.old.worker < self.old.journal.workers }
        ensures world { self.new ≡ after_known self.old share.old.role share.old.worker share.old.burst due }
        ensures answer { result ≡ answer_known self.old share.old.role share.old.worker share.old.burst due }
        ensures share { CountsRows self.old self.new share.old share.new }
    {
        let Burst { extra, sweep, .. } = share.burst();
        match share.role() {
            Role::Collector => self.collect_cycle(share, sweep),
            Role::Carrier => self.carry_in_bursts(share, due),
            Role::Both { gc } => self.rounds(share, gc, extra),
        }
    }

    // The same by any worker.
    #[tactic(auto, unfolding(crate::specs::Roles::after_role, crate::specs::Roles::answer_role))]
    #[inline(always)]
    fn turn_if_known(&mut self, share: &mut Share<L>, due: u32) -> Turn
        ensures world { self.new ≡ after_role self.old share.old.role share.old.worker share.old.burst due }
        ensures answer { result ≡ answer_role self.old share.old.role share.old.worker share.old.burst due }
        ensures share { CountsRows self.old self.new share.old share.new }
    {
        if share.worker() < self.world.journal().workers() {
            self.turn_of_role(share, due)
        } else {
            Turn::NotReady
        }
    }

    /// One turn of the share's role, by the share's worker. A round of `Both` and `Carrier` is a turn of the picked
    /// thread, `NotReady` where there is none; after a done one `Both` takes its collector turns, if the world is
    /// running then. A round of a `Collector` is a collector turn, `NotReady` where the last row is the collector's.
    /// Where the first round is done, so many more follow as the share's burst has extra ones, until one isn't done. A
    /// carrier makes them so often again as its burst says, each time only if all were done and the next birth is below
    /// `due`, from which on a collection is due. The collector's are as many as its burst's sweep at most, until a
    /// cycle ends, each if the world is running. `Done` where they ended with nobody ready. The share counts the rows
    /// that were added. A worker that isn't below the journal's number of workers does nothing, `NotReady`.
    #[inline(always)]
    pub fn turn_as(&mut self, share: &mut Share<L>, due: u32) -> Turn
        ensures world { self.new ≡ after_role self.old share.old.role share.old.worker share.old.burst due }
        ensures answer { result ≡ answer_role self.old share.old.role share.old.worker share.old.burst due }
        ensures takes { Takes self.old self.new result share.old share.new }
    {
        self.turn_if_known(share, due)
    }
}
