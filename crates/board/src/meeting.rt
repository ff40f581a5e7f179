//! Two seats meet.
ghost use Rattle.std.specs.Prelude.{◌≡◌};
ghost use Rattle.board.specs.Seats.{IsSeatOf, HasMet};
ghost use Rattle.board.specs.Rule.{LooksRound};

use crate::boards::Board;
use crate::rule::{HandsOver, Looks, LooksForStop, Parts, TakesIn};
use crate::seats::BoardSeat;
use crate::views::View;
use atomic_table::Seat;

impl Board {
    /// Each of two seats learns what the other knows: the other's count exactly, and of every worker and of the stop at
    /// least what either has seen. Each of the two loads every word itself.
    pub fn meet(&self, a: &mut BoardSeat, b: &mut BoardSeat)
        requires a { IsSeatOf self.now a.old }
        requires b { IsSeatOf self.now b.old }
        ensures a { HasMet a.old b.old a.new }
        ensures b { HasMet b.old a.old b.new }
    {
        self.visit(a, b);
        self.visit(b, a);
    }

    // The host takes in all that the guest knows and owns, loads every word, and gives the guest its own back.
    fn visit(&self, host: &mut BoardSeat, guest: &mut BoardSeat)
        requires host { IsSeatOf self.now host.old }
        requires guest { IsSeatOf self.now guest.old }
        ensures host { HasMet host.old guest.old host.new }
        ensures guest { HasMet guest.old host.old guest.new }
    {
        let BoardSeat { seat: host, .. } = host;
        let BoardSeat { seat: guest, .. } = guest;
        let handed = self.table.shared.split_seat::<HandsOver>(guest);
        self.table.shared.join_seat::<TakesIn>(host, handed);
        self.look_round(host);
        *guest = self.table.shared.split_seat::<Parts>(host);
    }

    // Loads every word.
    fn look_round(&self, seat: &mut Seat<u8, View>)
        requires { seat.old.table_id ≡ self.now.table.shared.table_id }
        ensures table { (seat.new.table_id ≡ seat.old.table_id) × (seat.new.me.1 ≡ seat.old.me.1) }
        ensures view { LooksRound self.now.workers seat.old.me.0 seat.new.me.0 }
    {
        self.table.shared.load::<LooksForStop>(seat, 0);
        for worker in 0..self.workers {
            self.table.shared.load::<Looks>(seat, worker + 1);
        }
    }
}
