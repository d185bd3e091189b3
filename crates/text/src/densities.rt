// What `sheetdensity` prints of a file of sheets (document 02, M-101): a line for each sheet, and a last line.
ghost use Rattle.std.specs.Prelude.{◌≡◌, ◌+◌, ◌≤◌, length};
ghost use Rattle.text.specs.Density.{worded, density_words, sheet_line, total_line, stopped_line};
ghost use Rattle.text.specs.Parts.{Adds};
ghost use Rattle.text.specs.Text.{text_with};

use crate::text::Text;
use density::density::Density;
use sheet_file::counted::Counted;
use sheet_file::totals::Totals;

// A blank, a word, and its number.
fn worded(text: Text, word: &[u8], number: u64) -> Text
    ensures adds { Adds text (worded word.now number) result }
    ensures short { length (worded word.now number) ≤ length word.now + 22 }
{
    text.byte(b' ').word(word).number(number)
}

fn density_words(text: Text, density: Density) -> Text
    ensures adds { Adds text (density_words density) result }
    ensures short { length (density_words density) ≤ 142 }
{
    let blocked = worded(text, b"blocked", density.blocked);
    let events = worded(blocked, b"events", density.events);
    let task_edges = worded(events, b"task", density.task_edges);
    let event_edges = worded(task_edges, b"event", density.event_edges);
    worded(event_edges, b"task-event", density.task_event_edges)
}

pub fn sheet_line(nth: u64, counted: Counted) -> Text
    ensures says { result ≡ text_with (sheet_line nth counted) }
    ensures whole { length (sheet_line nth counted) ≤ 256 }
{
    let sheet = Text::empty().word(b"sheet").number(nth);
    if counted.answer != 0 {
        return worded(sheet, b"refused", u64::from(counted.answer)).byte(b'\n');
    }
    density_words(sheet, counted.density).byte(b'\n')
}

pub fn total_line(totals: Totals) -> Text
    ensures says { result ≡ text_with (total_line totals) }
    ensures whole { length (total_line totals) ≤ 256 }
{
    let sheets = worded(Text::empty().word(b"total"), b"sheets", totals.sheets);
    let refused = worded(sheets, b"refused", totals.refused);
    density_words(refused, totals.density).byte(b'\n')
}

pub fn stopped_line(number: u32) -> Text
    ensures says { result ≡ text_with (stopped_line number) }
    ensures whole { length (stopped_line number) ≤ 256 }
{
    Text::empty()
        .word(b"stopped")
        .number(u64::from(number))
        .byte(b'\n')
}
