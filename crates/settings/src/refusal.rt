// Why a call is refused: 01's numbers 1 to 15, and 02's 16 and 17. Inside the library a refusal is an error; only the calls of C answer with its number.
ghost use Rattle.std.specs.Prelude.{◌≡◌};
ghost use Rattle.settings.specs.Refusal.{number};

#[derive(Clone, Copy, PartialEq, Eq)]
pub enum Refusal {
    Settings = 1,
    Regions = 2,
    Length = 3,
    Kind = 4,
    Content = 5,
    Party = 6,
    ViewBelow = 7,
    ViewAbove = 8,
    Certificate = 9,
    Repeated = 10,
    Conflicting = 11,
    ParentMissing = 12,
    ParentWrong = 13,
    StoreFull = 14,
    Turn = 15,
    ContentsTooLong = 16,
    NameWrong = 17,
}

impl From<Refusal> for u64 {
    ghost from_gives = { λ r n. n ≡ number r };

    fn from(refusal: Refusal) -> u64 {
        refusal as u64
    }
}
