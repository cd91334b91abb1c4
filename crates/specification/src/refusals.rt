// Refusals: why a sheet is refused, and where.
ghost use Rattle.std.specs.Prelude.{◌≡◌};
ghost use Rattle.specification.specs.Refusals.{reason_number, refusal_with};

// The reasons, with their numbers (docs/NOTATION.md, "Refused sheets").
#[derive(Clone, Copy, Debug, PartialEq, Eq)]
pub enum Reason {
    // the path limit is not from 1 to 32,768, or less memory is lent than is asked for
    Memory = 1,
    // the sheet is longer than 4,096 bytes
    TooLong = 2,
    // a line does not begin with its key and `=`
    Key = 3,
    // a number is not in good form or outside its limits; the seventeenth array; the length that passes 512 cells
    Number = 4,
    // another byte than the form wants; the sheet ends early, or goes on after its end
    Byte = 5,
    // a token is empty, no word of the set, or of another sort than is due
    Word = 6,
    // a name or an element is not declared
    Undeclared = 7,
    // a local stands outside its binder's F, or is bound a second time
    Binder = 8,
    // the 1,025th token, or nesting 65
    TooMany = 9,
    // a given item is not above the one before it
    NotRising = 10,
    // a call names no earlier procedure
    Procedure = 11,
    // a parameter stands outside a procedure's line, or is not below its number of parameters
    Parameter = 12,
    // a given value is none that its cell may have
    OutOfRange = 13,
    // the lowest value of a range is above its highest
    EmptyRange = 14,
    // of a sheet that is moved back: a range is not full
    NarrowRange = 15,
    // of a sheet that is moved back: a word rounds down
    Rounding = 16,
    // both bounds of a quantifier are constants, and the lower is above the upper
    EmptyBounds = 17,
}

impl From<Reason> for u32 {
    ghost from_gives = { λ r n. n ≡ reason_number r };

    fn from(reason: Reason) -> u32 {
        reason as u32
    }
}

// The number of the reason, and the byte place. (The number and no `Reason`: clauses see it as the documents have it, a report can be told again, and
// without a model of its own a `Result` that holds it is copied as any plain value.)
#[derive(Clone, Copy, Debug, PartialEq, Eq)]
pub struct Refusal {
    pub number: u32,
    pub place: usize,
}

impl Refusal {
    pub fn new(reason: Reason, place: usize) -> Refusal
        ensures { result ≡ refusal_with (reason_number reason) place }
    {
        Refusal {
            number: reason.into(),
            place,
        }
    }

    pub fn number(self) -> u32
        ensures { result ≡ self.number }
    {
        self.number
    }

    pub fn place(self) -> usize
        ensures { result ≡ self.place }
    {
        self.place
    }
}
