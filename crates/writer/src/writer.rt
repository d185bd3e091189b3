// Document 02, M-100: any sound table as a hall sheet, into a lent buffer.
ghost use Rattle.std.specs.Prelude.{◌≡◌, true, ltb, length};
ghost use Rattle.answers.specs.Answers.{answer_of};
ghost use Rattle.hall.specs.Parts.{sound_of};
ghost use Rattle.sheet.specs.Written.{sheet_of};
ghost use Rattle.writer.specs.Parts.{Laid};
ghost use Rattle.writer.specs.Writer.{wrote, value_of, write_of};

use crate::counts::{count_of, live_count};
use crate::entry::{put_entry, put_membership, row_end};
use crate::head::put_head;
use answers::Refusal;
use fields::figures::LONGEST_SHEET;
use hall::table::Table;

// The sheet from the buffer's first byte on, as far as there is room; its length. One function, since a table that goes from function to function by
// value is copied in each turn of a loop.
fn put_sheet(buffer: &mut [u8], table: Table) -> usize
    ensures { Laid buffer.old 0 (sheet_of table) buffer.new result }
{
    let mut at = put_head(buffer, table.opened, live_count(&table.tasks));
    for k in 0..32 {
        let task = table.tasks[k];
        let state = task.state;
        at = put_entry(
            buffer,
            at,
            k as u64,
            state,
            count_of(&table.members[k * 16..k * 16 + 16]),
        );
        for p in 0..row_end(state) {
            let i = k * 16 + p;
            at = put_membership(buffer, at, table.members[i], p as u64, table.phases[i]);
        }
    }
    at
}

// Whether a sound table's sheet is longer than a buffer. No sheet is longer than the longest, so most buffers are long enough at once.
fn is_short(room: usize, table: Table) -> bool
    requires { sound_of table ≡ true }
    ensures { result ≡ ltb room (length (sheet_of table)) }
{
    table.shaped();
    if LONGEST_SHEET <= room {
        return false;
    }
    room < put_sheet(&mut [], table)
}

// A sound table's sheet, as `write` writes it: for who has the table from a call, and need not test it again.
pub(crate) fn write_sound(table: Table, buffer: &mut [u8]) -> Result<u64, Refusal>
    requires { sound_of table ≡ true }
    ensures { wrote (answer_of result) (value_of result) buffer.new ≡ write_of table buffer.old }
{
    if is_short(buffer.len(), table) {
        return Err(Refusal::ShortBuffer);
    }
    let length = put_sheet(buffer, table);
    Ok(length as u64)
}

// The sheet's length.
pub fn write(table: Table, buffer: &mut [u8]) -> Result<u64, Refusal>
    ensures { wrote (answer_of result) (value_of result) buffer.new ≡ write_of table buffer.old }
{
    if !table.is_sound() {
        return Err(Refusal::NotSound);
    }
    write_sound(table, buffer)
}
