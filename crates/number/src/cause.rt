// Why an input is refused, and where.
ghost use Rattle.std.specs.Prelude.{◌≡◌};
ghost use Rattle.number.specs.Cause.{number_of};
ghost use Rattle.number.specs.Number.{refused_at};

// The causes in the order of their numbers.
#[derive(Clone, Copy, Debug, PartialEq, Eq)]
pub enum Cause {
    // A book, a list or a part of a certificate stops before a due number is complete.
    Incomplete = 1,
    // Padded, or a third byte with its top bit set.
    Malformed = 2,
    Form = 3,
    // T, N, S or P outside its range.
    Count = 4,
    // A left side or a length outside its range.
    Production = 5,
    // Something follows the last number.
    Surplus = 6,
    Symbol = 7,
    // A sentence of over 1,000 symbols.
    Length = 8,
    // A list of over 128 entries.
    Entries = 9,
    State = 10,
    Lookahead = 11,
    // Too short an output.
    Output = 12,
    // Too few work or stack cells.
    Room = 13,
    Action = 14,
    Goto = 15,
    // T or more, or used before.
    Rank = 16,
    // On the way to form 1 a rank is not its terminal's number.
    Order = 17,
}

impl Cause {
    pub fn number(self) -> u8
        ensures { result ≡ number_of self }
    {
        self as u8
    }
}

// A refusal: its cause, and the place of that.
#[derive(Clone, Copy, Debug, PartialEq, Eq)]
pub struct Refusal {
    pub cause: Cause,
    pub place: usize,
}

impl Refusal {
    pub fn at(cause: Cause, place: usize) -> Refusal
        ensures { result ≡ refused_at cause place }
    {
        Refusal { cause, place }
    }
}
