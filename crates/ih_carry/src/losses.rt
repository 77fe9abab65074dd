//! Why a choice of a timetable can't be kept in the next ward.

ghost use Rattle.std.specs.Prelude.{◌≡◌};
ghost use Rattle.ih_carry.specs.Losses.{is_loss, loss_number, loss_text};

/// Why a choice can't be kept.
#[derive(Clone, Copy, Debug, PartialEq, Eq)]
pub enum Loss {
    /// Its day is before the next ward's first.
    Before,
    /// Its day is past the next ward's last.
    Past,
    RoomGone,
    TheatreGone,
    NurseGone,
    /// The nurse doesn't work the shift.
    OffDuty,
}

impl Loss {
    fn number(self) -> u32
        ensures { result ≡ loss_number self }
    {
        match self {
            Loss::Before => 0,
            Loss::Past => 1,
            Loss::RoomGone => 2,
            Loss::TheatreGone => 3,
            Loss::NurseGone => 4,
            Loss::OffDuty => 5,
        }
    }

    /// Whether the two are the same.
    pub fn is(self, other: Loss) -> bool
        ensures { result ≡ is_loss self other }
    {
        self.number() == other.number()
    }

    /// How it is said.
    pub fn text(self) -> &'static str
        ensures { result.now ≡ loss_text self }
    {
        match self {
            Loss::Before => "the day is before the first",
            Loss::Past => "the day is past the last",
            Loss::RoomGone => "the room has gone",
            Loss::TheatreGone => "the theatre has gone",
            Loss::NurseGone => "the nurse has gone",
            Loss::OffDuty => "the nurse doesn't work then",
        }
    }
}
