//! The rule that the board's words and the seats' views keep, and what each step tells its seat.
ghost use Rattle.board.specs.Rule.{IsKept, unseated, seated, seats_left};
ghost use Rattle.board.specs.Rule.{spent, hosting, gathered, host_after, guest_after};

use crate::views::View;
use atomic_table::{Join, Play, Split, TableRule};

/// Each word is what the views say of it, and no worker's count has two owners. The key is the number of workers.
#[derive(Clone, Copy)]
pub struct CountsRule;

impl TableRule<u8, View, usize> for CountsRule {
    ghost use Rattle.std.specs.Prelude.{ℕ};

    ghost holds = { IsKept ℕ };

    ghost first = { unseated };
}

/// The next worker gets its seat.
pub struct GivesSeat;

impl Split<View> for GivesSeat {
    ghost left = { seats_left };

    ghost right = { seated };
}

/// A seat hands over all that it knows and owns.
pub struct HandsOver;

impl Split<View> for HandsOver {
    ghost left = { λ _. spent };

    ghost right = { λ v. v };
}

/// A seat takes in what another knows and owns, as its guest.
pub struct TakesIn;

impl Join<View> for TakesIn {
    ghost both = { hosting };

    ghost spent = { spent };
}

/// A seat takes in what another knows and owns, for good.
pub struct Gathers;

impl Join<View> for Gathers {
    ghost both = { gathered };

    ghost spent = { spent };
}

/// The guest goes with its own count, and with all that is known.
pub struct Parts;

impl Split<View> for Parts {
    ghost left = { host_after };

    ghost right = { guest_after };
}

/// A load of a worker's count.
pub struct Looks;

impl Play<u8, View> for Looks {
    ghost use Rattle.board.specs.Rule.{FindsCount};

    ghost then = { FindsCount };
}

/// One is added to the own count.
pub struct Pulses;

impl Play<u8, View> for Pulses {
    ghost use Rattle.board.specs.Rule.{AddsOne};

    ghost then = { AddsOne };
}

/// A load of the stop.
pub struct LooksForStop;

impl Play<u8, View> for LooksForStop {
    ghost use Rattle.board.specs.Rule.{FindsStop};

    ghost then = { FindsStop };
}

/// The stop is set.
pub struct AsksStop;

impl Play<u8, View> for AsksStop {
    ghost use Rattle.board.specs.Rule.{SetsStop};

    ghost then = { SetsStop };
}
