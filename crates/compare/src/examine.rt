// One sheet, before all solvers and services.
use second_solver::{Answer, Refusal, partitions, table};
use trials::tally::{Damage, Tally};
use trials::{damage, services};

// The counts of a run: of the group, of damaged lists, of damaged sheets, of sheets with a condition withdrawn.
#[derive(Clone, Copy, Debug, Default, PartialEq, Eq)]
pub struct Counts {
    pub tally: Tally,
    pub lists: Damage,
    pub sheets: Damage,
    pub withdrawn: Damage,
}

impl Counts {
    // A sheet through the search, the two other services, the second solver and the second statement of the table. `wanted` is the answer that the search is
    // to give; there is none for a sheet of which only these two know what it comes to, and the group's line has how many are refused.
    pub fn examine(&mut self, sheet: &[u8], wanted: Option<Result<Answer, Refusal>>) {
        let mut grouping = [0; 128];
        let mut store = [0; 4096];
        let answer = services::searched(sheet, &mut grouping, &mut store);
        let borne_out = services::confirmed(sheet, &grouping, &store, answer);
        let found = found(answer);
        let verdict = found.and_then(|_| partitions::verdict(sheet));
        let agreed = verdict.is_none() || verdict == found;
        let same_refusals = table::agrees(sheet, 128, answer.err()) && refused_short(sheet);
        let differs = !(borne_out && agreed && same_refusals && expected(answer, wanted));
        self.tally
            .count(answer, found.is_some() && verdict.is_none(), differs);
        if let (Ok(Answer::Cannot { count }), Some(false)) = (answer, verdict) {
            self.damage(sheet, &mut store, count);
        }
    }

    // The refutation of a sheet with few lots named is damaged, then the sheet, and at last the sheet's conditions are withdrawn one by one.
    fn damage(&mut self, sheet: &[u8], store: &mut [u8], count: u32) {
        if let Some(list) = store.get_mut(..8 * (count as usize)) {
            damage::lists(sheet, list, &mut self.lists);
            damage::sheets(sheet, list, &mut self.sheets);
            damage::conditions(sheet, list, &mut self.withdrawn);
        }
    }

    // No sheet of a group yet; the damage goes on.
    pub fn begin_group(&mut self) {
        self.tally = Tally::default();
    }
}

// Whether the search finds that the sheet can be met; None where it finds neither.
fn found(answer: Result<Answer, Refusal>) -> Option<bool> {
    match answer {
        Ok(Answer::Met { .. }) => Some(true),
        Ok(Answer::Cannot { .. }) => Some(false),
        Ok(Answer::Full { .. }) | Err(_) => None,
    }
}

// Whether the search, lent a grouping of two bytes, refuses as the table does.
fn refused_short(sheet: &[u8]) -> bool {
    let answer = services::searched(sheet, &mut [0; 2], &mut [0; 4096]);
    table::agrees(sheet, 2, answer.err())
}

// Whether the answer is the one wanted. The store has room for any sheet of which none is known.
fn expected(answer: Result<Answer, Refusal>, wanted: Option<Result<Answer, Refusal>>) -> bool {
    match wanted {
        Some(wanted) => answer == wanted,
        None => !matches!(answer, Ok(Answer::Full { .. })),
    }
}
