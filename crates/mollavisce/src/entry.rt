// The verdict of a sheet, and the entry for a C++ host, which `mollavisce_c` exports.
ghost use Rattle.mollavisce.specs.Entry.{Entered};
ghost use Rattle.judge.specs.OfSheet.{VerdictOf};

use answers::{DONE, Refusal};
use judge::route::Route;
use judge::verdict::Verdict;

// What the judge says of the table that a sheet holds.
pub fn verdict_of(bytes: &[u8], route: u64) -> Verdict
    ensures { VerdictOf bytes.now route result }
{
    judge::of_sheet::verdict_of(bytes, route)
}

// One lent slice is read as the sheet, the other is written with 38 bytes where the answer is 0, and else with none.
pub fn sheet_verdict(sheet: &[u8], route: u64, strip: &mut [u8]) -> u32
    ensures { Entered sheet.now route strip.old strip.new result }
{
    if let Err(refusal) = Route::try_from(route) {
        return refusal.number();
    }
    if strip.len() < 38 {
        return Refusal::ShortStrip.number();
    }
    let verdict = verdict_of(sheet, route);
    let answer = verdict.answer;
    if answer != DONE {
        return answer;
    }
    crate::strip::lay(strip, verdict);
    DONE
}
