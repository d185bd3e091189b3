// The demands of a sheet: of what the reader hands back, of a sheet's verdict, of what the two entries answer and leave in the lent bytes, and of what is
// printed.
ghost use Rattle.answers.specs.Answers.{answer_of};
ghost use Rattle.hall.specs.Calls.{call};
ghost use Rattle.writer.specs.Next.{hands_over};
ghost use Rattle.demands.specs.Demands.{SheetRead, SheetVerdict, SheetAnswered, SheetPrinted};
ghost use Rattle.demands.specs.SheetCalls.{SheetCallAnswered};

use answers::Refusal;
use hall::table::Table;
use judge::verdict::Verdict;
use text::text::Text;

pub fn read(sheet: &[u8], table: &mut Table) -> Result<(), Refusal>
    ensures { SheetRead sheet.now (answer_of result) table.new }
{
    sheet::reader::read(sheet, table)
}

pub fn verdict_of(sheet: &[u8], route: u64) -> Verdict
    ensures { SheetVerdict sheet.now route result }
{
    mollavisce::entry::verdict_of(sheet, route)
}

pub fn sheet_verdict(sheet: &[u8], route: u64, strip: &mut [u8]) -> u32
    ensures { SheetAnswered sheet.now route strip.old strip.new result }
{
    mollavisce::entry::sheet_verdict(sheet, route, strip)
}

// As a C++ host calls it.
pub fn sheet_call(
    sheet: &[u8],
    kind: u64,
    task: u64,
    phaser: u64,
    other: u64,
    sort: u64,
    next: &mut [u8],
    value: &mut u64,
    length: &mut u64,
) -> u32
    ensures { SheetCallAnswered sheet.now (call kind task phaser other) next.old
        (hands_over result value.new length.new next.new) }
{
    sheet_call::sheet_call(sheet, kind, task, phaser, other, sort, next, value, length)
}

// What `sheetverdict` prints.
pub fn text_of(sheet: &[u8]) -> Text
    ensures { SheetPrinted sheet.now result }
{
    text::verdict::text_of(verdict_of(sheet, 0))
}
