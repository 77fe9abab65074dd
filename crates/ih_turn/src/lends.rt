// `get_mut` has a file of its own: its clause names the row of `Guard`, which the file that declares `Guard` cannot
// import.
ghost use Rattle.std.specs.Prelude.{◌≡◌};
ghost use Rattle.std.specs.Borrow.{Lends, sem};
ghost use Rattle.ih_turn.specs.contracts.held.Guard.{the_row};

use crate::held::Guard;

impl<H, B> Guard<H, B> {
    ghost use Rattle.ih_turn.specs.Seats.{value_of};

    /// The value, to change.
    pub fn get_mut(&mut self) -> &mut B
        ensures* writes_back { sem 𝓛
            (Lends (the_row H.row B.row) B.row self.entry result (λ w. record self.entry.now { value = w })) }
        ensures value { result.now ≡ value_of self.old }
    {
        &mut self.value
    }
}
