// The numbers that a call says no with (document 01, "Numbers the desk says no with").
ghost use Rattle.std.specs.Prelude.{◌≡◌};
ghost use Rattle.state.specs.Refusals.{number_of};

// Why a record, a piece or a report is refused. The first six are kept.
#[derive(Clone, Copy, Debug, PartialEq, Eq)]
pub enum Refusal {
    UnknownKind = 1,
    Order = 2,
    Field = 3,
    Numbering = 4,
    TooMany = 5,
    ClosingDiffers = 6,
    AfterClosing = 7,
    NotClosed = 8,
    NoSuchTarget = 9,
    ListTooShort = 10,
}

impl Refusal {
    pub fn number(self) -> u8
        ensures { result ≡ number_of self }
    {
        self as u8
    }
}
