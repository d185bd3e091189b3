// A call on a table, and the sheet of the table that it leaves.
ghost use Rattle.std.specs.Prelude.{◌≡◌, List, ℕ};
ghost use Rattle.hall.specs.Calls.{call_of};
ghost use Rattle.writer.specs.Next.{hands_over, stays, hand_on};

use crate::writer::write_sound;
use hall::calls::Call;
use hall::table::Table;

// What a call hands back beside the bytes of `next`. `length` is that of the next table's sheet.
#[derive(Clone, Copy)]
pub struct SheetCalled {
    pub answer: u32,
    pub value: u64,
    pub length: u64,
}

impl SheetCalled {
    pub fn refused(refusal: u32) -> SheetCalled
        ensures { (next : List ℕ) → hands_over result.answer result.value result.length next ≡ stays refusal next }
    {
        SheetCalled {
            answer: refusal,
            value: 0,
            length: 0,
        }
    }
}

// The call's row has tested that the table is sound, and an accepted call leaves a sound one: so what it leaves is not tested again.
pub fn call_and_write(table: Table, call: Call, next: &mut [u8]) -> SheetCalled
    ensures { hands_over result.answer result.value result.length next.new ≡ hand_on (call_of table call) next.old }
{
    table.shaped();
    let called = table.call(call);
    let answer = called.answer;
    if answer >= 10 {
        return SheetCalled::refused(answer);
    }
    let after = called.table;
    match write_sound(after, next) {
        Ok(length) => SheetCalled {
            answer,
            value: called.value,
            length,
        },
        Err(refusal) => SheetCalled::refused(refusal.number()),
    }
}
