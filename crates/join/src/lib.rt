//! The machine on cells is the ideal machine under a naming of births, on definitions alone.
//!
//! The instruction table and the collector's theorem speak of births, on a heap where nothing is ever freed. A machine
//! that frees holds numbers of cells instead. `specs/` says what its turns do, by the same table, and what it is for
//! the two to be joined; the function below has the theorem that they stay so.
#![tactic(auto)]

ghost use Rattle.join.specs.Joined.{Bounded, Joint};
ghost use Rattle.join.specs.ReadBack.{ReadsBack};
ghost use Rattle.join.specs.Runs.{EachRun, EachTurn, EachTurnIsShown, OpeningIsBounded, OpeningIsJoined};

/// What turns do on cells is what they do on births, for every program, accepted or not, every heap shape that fits and
/// all limits. The machines are joined where the world on cells is the image of the ideal world under a naming that
/// gives each birth the number of its cell and one more, and never forgets.
///
/// The opening is joined, and each word of its objects leads to a birth that was made. An actor's turn keeps both,
/// where the invariant of three colours holds: a thread's, by each case of the instruction table, refused or not, and
/// the collector's. Of the machine that a world's journal stands for, the machine on cells shows what each turn leaves,
/// its row and its answer.
///
/// So the machines are joined after every list of turns; and what is read off the cells then, with the birth in its
/// cell in place of each reference, is the ideal machine: its threads, static fields, class states, output and fault,
/// the objects that paths reach, the account, the status, and the refusal or the row of each turn to come.
pub fn turns_on_cells_are_ideal_turns()
    ensures opening { OpeningIsJoined }
    ensures opening_bounded { OpeningIsBounded }
    ensures turn { EachTurn (λ on m. Joint on m) }
    ensures turn_bounded { EachTurn (λ on m. Bounded m.world) }
    ensures shown { EachTurnIsShown }
    ensures run { EachRun (λ program limits on m. Joint on m) }
    ensures read_back { EachRun ReadsBack }
{}
