// An answer as four numbers, for callers in C and Rust.
#![tactic(auto)]

ghost use Rattle.std.specs.Prelude.{◌≡◌};
ghost use Rattle.sheet.specs.Answers.{Answer, refused, answered, result_answer};
ghost use Rattle.evaluator.specs.Answers.{unmet_answer};
ghost use Rattle.search.specs.Answers.{found_answer};
ghost use Rattle.merge.specs.Answers.{merged_answer, sheet_refused};
ghost use Rattle.numbers.specs.Answers.{numbers_of, merge_numbers};

use merge::MergeRefusal;
use search::Found;
use sheet::{Condition, Header, Refusal};

// An answer: the check that refused, 0 where none did, then the place, or the values. Behind the place a merge has the number of the sheet that was refused.
#[repr(C)]
#[derive(Clone, Copy, Debug, PartialEq, Eq)]
pub struct Numbers {
    pub check: u32,
    pub first: u32,
    pub second: u32,
    pub third: u32,
}

// What a service answers where it doesn't refuse: its values.
pub trait Values {
    ghost answer: { Self → Answer };

    fn numbers(self) -> Numbers
        ensures { result ≡ numbers_of (answer self) };
}

fn answered(first: u32, second: u32, third: u32) -> Numbers
    ensures { result ≡ numbers_of (answered first second third) }
{
    Numbers {
        check: 0,
        first,
        second,
        third,
    }
}

// The reader: lots, conditions and term records.
impl Values for Header {
    ghost answer = { λ h. answered h.lots h.conditions h.records };

    fn numbers(self) -> Numbers {
        answered(
            self.lots as u32,
            self.conditions as u32,
            self.records as u32,
        )
    }
}

// The evaluator: the lowest condition that isn't met, if there is one.
impl Values for Option<Condition> {
    ghost answer = { unmet_answer };

    fn numbers(self) -> Numbers {
        match self {
            Some(c) => answered(c.0 as u32, 0, 0),
            None => answered(0, 0, 0),
        }
    }
}

// A count of unmet conditions, or the length of what was written.
impl Values for u32 {
    ghost answer = { λ n. answered n 0 0 };

    fn numbers(self) -> Numbers {
        answered(self, 0, 0)
    }
}

// The search: 1 for met or 2 for cannot, and the count of records.
impl Values for Found {
    ghost answer = { found_answer };

    fn numbers(self) -> Numbers {
        match self {
            Found::Met { count } => answered(1, count, 0),
            Found::Cannot { count } => answered(2, count, 0),
        }
    }
}

// The refutation checker has no value for a list that passes.
impl Values for () {
    ghost answer = { λ _. answered 0 0 0 };

    fn numbers(self) -> Numbers {
        answered(0, 0, 0)
    }
}

// A refusal is its check and its place, whichever they are; a sheet's number stands behind them where a merge was refused when it read that, else 0.
pub fn refused_in(check: u32, place: u32, sheet: u32) -> Numbers
    ensures { result ≡ merge_numbers (refused check place) sheet }
{
    Numbers {
        check,
        first: place,
        second: sheet,
        third: 0,
    }
}

impl<T: Values> From<Result<T, Refusal>> for Numbers {
    ghost from_gives = { λ r n. n ≡ numbers_of (result_answer T.answer r) };

    fn from(answer: Result<T, Refusal>) -> Numbers {
        match answer {
            Ok(values) => values.numbers(),
            Err(refusal) => refused_in(refusal.check(), refusal.place(), 0),
        }
    }
}

impl From<Result<u32, MergeRefusal>> for Numbers {
    ghost from_gives = { λ r n. n ≡ merge_numbers (merged_answer r) (sheet_refused r) };

    fn from(answer: Result<u32, MergeRefusal>) -> Numbers {
        match answer {
            Ok(length) => length.numbers(),
            Err(MergeRefusal::First(refusal)) => refused_in(refusal.check(), refusal.place(), 1),
            Err(MergeRefusal::Second(refusal)) => refused_in(refusal.check(), refusal.place(), 2),
            Err(MergeRefusal::Both(refusal)) => refused_in(refusal.check(), refusal.place(), 0),
        }
    }
}
