// What is counted.
use second_solver::{Answer, Refusal};
use std::fmt;

// Of a group of sheets: how many there are, how many of each verdict, the nodes of all searches, how many verdicts the second solver can't judge, and how many
// sheets on which two answers differ.
#[derive(Clone, Copy, Debug, Default, PartialEq, Eq)]
pub struct Tally {
    pub sheets: u32,
    pub met: u32,
    pub cannot: u32,
    pub refused: u32,
    pub nodes: u32,
    pub untested: u32,
    pub differ: u32,
}

// Of damaged lists or sheets: how many were tried, how many passed the checker all the same, of how many of those the second solver says that they are wrong
// or can't judge, and how many on which two answers differ.
#[derive(Clone, Copy, Debug, Default, PartialEq, Eq)]
pub struct Damage {
    pub tried: u32,
    pub passed: u32,
    pub wrong: u32,
    pub untested: u32,
    pub differ: u32,
}

// There are fewer of anything.
const MOST: u32 = 1000000;

// One more where it is so.
fn plus(x: u32, so: bool) -> u32 {
    if so && x < MOST { x + 1 } else { x }
}

// The sum of two numbers, neither above a million.
fn sum(x: u32, y: u32) -> u32 {
    if x <= MOST && y <= MOST { x + y } else { x }
}

impl Tally {
    // A sheet more: what the search answers, whether the second solver has no verdict where it should, and whether two answers differ.
    pub fn count(&mut self, answer: Result<Answer, Refusal>, untested: bool, differs: bool) {
        self.sheets = plus(self.sheets, true);
        self.untested = plus(self.untested, untested);
        self.differ = plus(self.differ, differs);
        match answer {
            Ok(Answer::Met { count }) => {
                self.met = plus(self.met, true);
                self.nodes = sum(self.nodes, count);
            }
            Ok(Answer::Cannot { count }) => {
                self.cannot = plus(self.cannot, true);
                self.nodes = sum(self.nodes, count);
            }
            Ok(Answer::Full { .. }) => {}
            Err(_) => self.refused = plus(self.refused, true),
        }
    }
}

impl Damage {
    // A list or sheet more, and whether two answers differ on it.
    pub fn count(&mut self, differs: bool) {
        self.tried = plus(self.tried, true);
        self.differ = plus(self.differ, differs);
    }

    // A list passes for a sheet; what the second solver says of the sheet.
    pub fn count_passed(&mut self, verdict: Option<bool>) {
        self.passed = plus(self.passed, true);
        self.wrong = plus(self.wrong, verdict == Some(true));
        self.untested = plus(self.untested, verdict.is_none());
    }
}

impl fmt::Display for Tally {
    fn fmt<W: fmt::Write>(&self, f: &mut fmt::Formatter<W>) -> fmt::Result {
        let Tally {
            sheets,
            met,
            cannot,
            refused,
            nodes,
            untested,
            differ,
        } = *self;
        write!(
            f,
            "sheets {sheets} met {met} cannot {cannot} refused {refused} nodes {nodes} untested {untested} differ {differ}",
        )
    }
}

impl fmt::Display for Damage {
    fn fmt<W: fmt::Write>(&self, f: &mut fmt::Formatter<W>) -> fmt::Result {
        let Damage {
            tried,
            passed,
            wrong,
            untested,
            differ,
        } = *self;
        write!(
            f,
            "tried {tried} passed {passed} wrong {wrong} untested {untested} differ {differ}",
        )
    }
}
