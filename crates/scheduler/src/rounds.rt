//! Rounds: the turns of the threads that are picked, and the collector's between them.
ghost use Rattle.std.specs.Prelude.{◌≡◌, ◌<◌, ◌≤◌, true};
ghost use Rattle.scheduler.specs.Rounds.{LeadsInto, LeadsPast, after_round, after_rounds, collections, is_done};
ghost use Rattle.scheduler.specs.Rounds.{picked, picked_answer, rounds_answer, rounds_left, swept};

use crate::worlds::World;
use instructions::lone_rounds::Rounds;
use instructions::noted_rounds::Pace;
use instructions::stops::{Stops, no_stops};
use model::turns::{Actor, Turn};

/// Whether a turn that answers this was done.
pub fn is_done(answer: Turn) -> bool
    ensures { result ≡ is_done answer }
{
    match answer {
        Turn::Done => true,
        Turn::NotReady | Turn::Stopped | Turn::Fault(_) | Turn::OutputFull | Turn::StepLimit =>
            false,
    }
}

/// What many rounds came to.
#[derive(Clone, Copy)]
pub struct RoundsMade {
    /// what the last thread's turn answered; `Done` where no round was asked for
    pub answer: Turn,
    /// how many rounds are left to make: from the one on whose thread's turn isn't done; none where all were made
    pub left: u32,
}

impl World {
    /// The turn of the thread that is picked, as it comes about for any of them; `NotReady` where none is.
    #[inline(never)]
    fn turn_of_ready(&mut self, worker: u8) -> Turn
        requires { worker < self.old.journal.workers }
        ensures world { self.new ≡ picked self.old worker }
        ensures answer { result ≡ picked_answer self.old worker }
    {
        match self.pick() {
            Some(thread) => self.turn_by(Actor::Thread(thread), worker),
            None => Turn::NotReady,
        }
    }

    /// The turn of the thread that is picked, made by a worker; `NotReady` where none is.
    #[inline(always)]
    pub fn turn_of_picked(&mut self, worker: u8) -> Turn
        requires { worker < self.old.journal.workers }
        ensures world { self.new ≡ picked self.old worker }
        ensures answer { result ≡ picked_answer self.old worker }
    {
        let (gc, stops) = (0, no_stops());
        let rounds = self.rounds_in_turn(Pace { worker, gc, stops }, false, 1);
        if rounds.made > 0 {
            Turn::Done
        } else {
            self.turn_of_ready(worker)
        }
    }

    /// So many turns of the collector by a worker.
    fn collect(&mut self, worker: u8, turns: u32)
        requires { worker < self.old.journal.workers }
        ensures world { self.new ≡ collections self.old worker turns }
        ensures workers { self.new.journal.workers ≡ self.old.journal.workers }
    {
        for _turn in 0..turns {
            let _ = self.turn_by(Actor::Collector, worker);
        }
    }

    /// So many turns of the collector by a worker, where the world runs.
    fn sweep(&mut self, worker: u8, gc: u32)
        requires { worker < self.old.journal.workers }
        ensures world { self.new ≡ swept self.old worker gc }
        ensures workers { self.new.journal.workers ≡ self.old.journal.workers }
    {
        if self.runs() {
            self.collect(worker, gc);
        }
    }

    /// One round, which `some_rounds` didn't make; what its thread's turn answers.
    fn another_round(&mut self, worker: u8, gc: u32) -> Turn
        requires { worker < self.old.journal.workers }
        ensures world { self.new ≡ after_round self.old worker gc }
        ensures answer { result ≡ picked_answer self.old worker }
        ensures workers { self.new.journal.workers ≡ self.old.journal.workers }
    {
        let answer = self.turn_of_ready(worker);
        if is_done(answer) {
            self.sweep(worker, gc);
        }
        answer
    }

    /// So many rounds with no turn of the collector.
    // Many in one call where that can be, and else one by one.
    fn rounds_alone(&mut self, worker: u8, n: u32) -> RoundsMade
        requires { worker < self.old.journal.workers }
        ensures world { self.new ≡ after_rounds self.old worker 0 n }
        ensures answer { result.answer ≡ rounds_answer self.old worker 0 n }
        ensures left { result.left ≡ rounds_left self.old worker 0 n }
    {
        let mut left = n;
        'rounds: loop {
            let made = self.rounds_plainly(worker, left);
            left -= made;
            if left == 0 {
                let answer = Turn::Done;
                return RoundsMade { answer, left };
            }
            let answer = self.turn_of_ready(worker);
            if !is_done(answer) {
                return RoundsMade { answer, left };
            }
            left -= 1;
        }
    }

    /// Rounds by a worker, so many at most: whole ones, in which each turn is done, and of one more, maybe, the thread's
    /// turn alone. Where no more were made, there may be one all the same.
    // Many in one call where one thread was ever started, and else one by one.
    fn some_rounds(&mut self, worker: u8, gc: u32, most: u32) -> Rounds
        requires { worker < self.old.journal.workers }
        ensures rounds { LeadsInto self.old worker gc result self.new }
        ensures most { result.made ≤ most }
        ensures begun { result.begun ≡ true → result.made < most }
        ensures workers { self.new.journal.workers ≡ self.old.journal.workers }
    {
        let stops = no_stops();
        let pace = Pace { worker, gc, stops };
        if self.thread_count() > 1 {
            self.rounds_in_turn(pace, true, most)
        } else {
            self.rounds_at_pace(pace, most)
        }
    }

    /// So many rounds, each with so many turns of the collector.
    // Many in one call where that can be, and else one by one.
    fn rounds_and_sweeps(&mut self, worker: u8, n: u32, gc: u32) -> RoundsMade
        requires { worker < self.old.journal.workers }
        ensures world { self.new ≡ after_rounds self.old worker gc n }
        ensures answer { result.answer ≡ rounds_answer self.old worker gc n }
        ensures left { result.left ≡ rounds_left self.old worker gc n }
    {
        let mut left = n;
        'rounds: loop {
            let rounds = self.some_rounds(worker, gc, left);
            left -= rounds.made;
            if left == 0 {
                let answer = Turn::Done;
                return RoundsMade { answer, left };
            }
            if rounds.begun {
                self.sweep(worker, gc);
                left -= 1;
                continue;
            }
            let answer = self.another_round(worker, gc);
            if !is_done(answer) {
                return RoundsMade { answer, left };
            }
            left -= 1;
        }
    }

    /// How many rounds may be made one by one before many in one call are tried again: one where one thread was ever
    /// started, else so many.
    fn most_one_by_one(&self, most: u32) -> u32
        ensures { result ≤ most }
    {
        if self.thread_count() > 1 {
            most
        } else {
            most.min(1)
        }
    }

    /// Rounds by worker 0, so many at most, of which none begins with a thread at a stop: whole ones, in which each
    /// turn is done, and of one more, maybe, the thread's turn alone. Where no more were made, there may be one all the
    /// same: another way to make it is to be asked. It takes no memory.
    // Many in one call where that can be, and else one by one.
    pub fn rounds_past(&mut self, stops: Stops<'_>, gc: u32, most: u32) -> Rounds
        ensures rounds { LeadsPast stops.entry self.old 0 gc result self.new }
        ensures most { result.made ≤ most }
        ensures begun { result.begun ≡ true → result.made < most }
    {
        let worker = self.first_worker();
        let pace = Pace { worker, gc, stops };
        let rounds = self.rounds_at_pace(pace, most);
        if rounds.begun || rounds.made > 0 {
            return rounds;
        }
        let few = self.most_one_by_one(most);
        self.rounds_in_turn(pace, true, few)
    }

    /// So many rounds by a worker, and what they came to.
    fn make_rounds_by(&mut self, worker: u8, n: u32, gc: u32) -> RoundsMade
        requires { worker < self.old.journal.workers }
        ensures world { self.new ≡ after_rounds self.old worker gc n }
        ensures answer { result.answer ≡ rounds_answer self.old worker gc n }
        ensures left { result.left ≡ rounds_left self.old worker gc n }
    {
        if gc > 0 {
            self.rounds_and_sweeps(worker, n, gc)
        } else {
            self.rounds_alone(worker, n)
        }
    }

    /// So many rounds by worker 0, as `rounds` makes them, with how many are left where they ended early.
    pub fn make_rounds(&mut self, n: u32, gc: u32) -> RoundsMade
        ensures world { self.new ≡ after_rounds self.old 0 gc n }
        ensures answer { result.answer ≡ rounds_answer self.old 0 gc n }
        ensures left { result.left ≡ rounds_left self.old 0 gc n }
    {
        let first = self.first_worker();
        self.make_rounds_by(first, n, gc)
    }

    /// So many rounds by a worker: the turn of the thread that is picked, and where it was done and the world runs so
    /// many turns of the collector. They end with the first thread's turn that isn't done. Answers what the last
    /// thread's turn did: `Done` where all rounds were made, `NotReady` where no thread was picked.
    pub fn rounds_by(&mut self, worker: u8, n: u32, gc: u32) -> Turn
        requires { worker < self.old.journal.workers }
        ensures world { self.new ≡ after_rounds self.old worker gc n }
        ensures answer { result ≡ rounds_answer self.old worker gc n }
    {
        self.make_rounds_by(worker, n, gc).answer
    }

    /// So many rounds by worker 0, as `rounds_by` makes them.
    pub fn rounds(&mut self, n: u32, gc: u32) -> Turn
        ensures world { self.new ≡ after_rounds self.old 0 gc n }
        ensures answer { result ≡ rounds_answer self.old 0 gc n }
    {
        self.make_rounds(n, gc).answer
    }
}
