#![tactic(auto)]

// The call on a sheet for C and C++ hosts: `sheet_call`'s, under its own name in a static library.
ghost use Rattle.std.specs.Prelude.{◌≡◌};
ghost use Rattle.hall.specs.Calls.{call};
ghost use Rattle.writer.specs.Next.{hands_over};
ghost use Rattle.sheet_call.specs.Call.{sheet_call_of};

// One lent slice is read as the sheet of a table; where the call is accepted, the other then begins with the next table's sheet. `sort` is not looked at:
// it is there for M-105.
#[unsafe(no_mangle)]
pub extern "C" fn sheet_call(
    sheet: &[u8],
    kind: u64,
    task: u64,
    phaser: u64,
    other: u64,
    sort: u64,
    next: &mut [u8],
    value: &mut u64,
    length: &mut u64,
) -> u32
    ensures { hands_over result value.new length.new next.new
        ≡ sheet_call_of sheet.now (call kind task phaser other) next.old }
{
    sheet_call::sheet_call(sheet, kind, task, phaser, other, sort, next, value, length)
}
