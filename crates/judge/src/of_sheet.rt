// The verdict of a sheet. It stands beside the judge, since what is known of a table that was just read spares the judge two looks at it: an accepted
// sheet's table is sound, and the reader hands over who is blocked.
ghost use Rattle.judge.specs.OfSheet.{VerdictOf};

use crate::judge::found;
use crate::route::Route;
use crate::verdict::Verdict;
use hall::table::Table;
use sheet::reader::read_with_blocked;

// What the judge says of the table that a sheet holds.
pub fn verdict_of(bytes: &[u8], route: u64) -> Verdict
    ensures { VerdictOf bytes.now route result }
{
    let route = match Route::try_from(route) {
        Ok(route) => route,
        Err(refusal) => return Verdict::nobody(refusal.number()),
    };
    let mut table = Table::fresh();
    let mut blocked = 0;
    match read_with_blocked(bytes, &mut table, &mut blocked) {
        Ok(()) => found(table, blocked, route),
        Err(refusal) => Verdict::nobody(refusal.number()),
    }
}
