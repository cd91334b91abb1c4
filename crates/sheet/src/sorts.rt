// The operands of a code: one match on the code gives their sort and how many there are. A procedure's number has its arguments, and its code
// tells how many.
ghost use Rattle.std.specs.Prelude.{◌≡◌, min};
ghost use Rattle.sheet.specs.Sorts.{range_sort, sort_number, numbered, word_operands, arity};

use tables::codes;

// The sorts of what is due. The stack keeps a word for each: its number, which is that of specs/Sorts.antt.
#[derive(Clone, Copy, PartialEq, Eq, Debug)]
pub(crate) enum Sort {
    Formula,
    Term,
    // The upper bound after a constant.
    Upper,
    // Both bounds.
    Bounds,
    // A procedure's number.
    Procedure,
    // The local of `ex`.
    ExLocal,
    // The local of `some` or `all`.
    RangeLocal,
}

impl From<Sort> for u32 {
    ghost from_gives = { λ s n. n ≡ sort_number s };

    fn from(sort: Sort) -> u32 {
        sort as u32
    }
}

// The last sort takes what is no sort's number.
impl From<u32> for Sort {
    ghost from_gives = { λ n s. sort_number s ≡ min n range_sort };

    fn from(word: u32) -> Sort {
        match word {
            0 => Sort::Formula,
            1 => Sort::Term,
            2 => Sort::Upper,
            3 => Sort::Bounds,
            4 => Sort::Procedure,
            5 => Sort::ExLocal,
            _ => Sort::RangeLocal,
        }
    }
}

// The operands of a word's code, all of one sort. A binder has its local, and a call its procedure's number: the others become due when that is read.
#[derive(Clone, Copy)]
pub(crate) struct Operands {
    pub sort: Sort,
    pub count: u32,
}

pub(crate) fn word_operands(code: u32) -> Operands
    ensures { numbered result ≡ word_operands code }
{
    match code {
        codes::NOT => Operands {
            sort: Sort::Formula,
            count: 1,
        },
        codes::EX => Operands {
            sort: Sort::ExLocal,
            count: 1,
        },
        codes::ARRAY => Operands {
            sort: Sort::Term,
            count: 1,
        },
        codes::CALL => Operands {
            sort: Sort::Procedure,
            count: 1,
        },
        codes::AND..=codes::IMP => Operands {
            sort: Sort::Formula,
            count: 2,
        },
        codes::EQ..=codes::GE => Operands {
            sort: Sort::Term,
            count: 2,
        },
        codes::SOME..=codes::ALL => Operands {
            sort: Sort::RangeLocal,
            count: 1,
        },
        codes::FIRST_OPERATION..=codes::LAST_OPERATION => Operands {
            sort: Sort::Term,
            count: 2,
        },
        _ => Operands {
            sort: Sort::Formula,
            count: 0,
        },
    }
}

// How many operands of a code stand in the table, those of a binder after its local among them.
pub(crate) fn arity(code: u32) -> u32
    ensures { result ≡ arity code }
{
    if codes::PROCEDURE <= code {
        return code - codes::PROCEDURE;
    }
    let o = word_operands(code);
    match o.sort {
        Sort::ExLocal => 2,
        Sort::RangeLocal => 4,
        _ => o.count,
    }
}
