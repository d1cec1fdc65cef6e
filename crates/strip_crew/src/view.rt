//! What a seat at the table of claims knows.

ghost use Rattle.std.specs.Borrow.{ftrue};
ghost use Rattle.strip_crew.specs.Counting.{SeatClaims};
ghost use Rattle.strip_crew.specs.Run.{Run};

use std::marker::Model;

/// What a seat has claimed, and the fixed data of its run. Contracts alone see it: the program makes no value of it.
pub struct View {
    pub ghost claim: { SeatClaims },
    pub ghost of: { Run },
}

impl Model for View {
    ghost also_owns = { λ _. ftrue };
}
