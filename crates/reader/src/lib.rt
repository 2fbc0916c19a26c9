// The sheet reader.
#![tactic(auto)]

mod checks; // checks.rt: checks 1 to 5 and 7
mod once; // once.rt: checks 17 and 6, and with them check 7

ghost use Rattle.std.specs.Prelude.{◌≡◌};
ghost use Rattle.sheet.specs.Checks.{sheet_verdict};
ghost use Rattle.sheet.specs.Answers.{read_answer, reading_answer};

use sheet::{Header, Refusal};

// The sheet reader: the header's counts, or the first check that fails, for any bytes at all. Heads are read once by check 4 and once by the walk, records once
// by check 5 and once by the walk, or, where that doesn't reach them, by check 7.
pub fn read(sheet: &[u8]) -> Result<Header, Refusal>
    ensures { reading_answer result ≡ read_answer sheet.now }
{
    let h = checks::header(sheet)?;
    checks::heads(sheet, h)?;
    checks::records(sheet, h)?;
    once::check(sheet, h)?;
    Ok(h)
}
