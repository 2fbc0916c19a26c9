// The services under test, and whether their answers bear each other out.
use search::Found;
use second_solver::{Answer, Refusal};

// A refusal by the numbers that the second statement of the checks gives, too.
fn numbered(refusal: sheet::Refusal) -> Refusal {
    Refusal {
        check: refusal.check(),
        place: refusal.place(),
    }
}

pub fn searched(sheet: &[u8], grouping: &mut [u8], store: &mut [u8]) -> Result<Answer, Refusal> {
    match search::search(sheet, grouping, store) {
        Ok(Found::Met { count }) => Ok(Answer::Met { count }),
        Ok(Found::Cannot { count }) => Ok(Answer::Cannot { count }),
        Err(sheet::Refusal::FullStore(capacity)) => Ok(Answer::Full { capacity }),
        Err(refusal) => Err(numbered(refusal)),
    }
}

// What the checker says of a list.
pub fn checked(sheet: &[u8], list: &[u8]) -> Result<(), Refusal> {
    checker::check(sheet, list).map_err(numbered)
}

fn is_met_by(sheet: &[u8], grouping: &[u8]) -> bool {
    matches!(evaluator::evaluate(sheet, grouping), Ok(None))
}

fn is_refuted_by(sheet: &[u8], store: &[u8], count: u32) -> bool {
    match store.get(..8 * (count as usize)) {
        Some(list) => checked(sheet, list).is_ok(),
        None => false,
    }
}

// Whether the evaluator says that a grouping found meets the sheet, and the checker passes a refutation.
pub fn confirmed(
    sheet: &[u8],
    grouping: &[u8],
    store: &[u8],
    answer: Result<Answer, Refusal>,
) -> bool {
    match answer {
        Ok(Answer::Met { .. }) => is_met_by(sheet, grouping),
        Ok(Answer::Cannot { count }) => is_refuted_by(sheet, store, count),
        Ok(Answer::Full { .. }) => false,
        Err(_) => true,
    }
}
