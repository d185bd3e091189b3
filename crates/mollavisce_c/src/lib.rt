#![tactic(auto)]

// The verdict's entry for C and C++ hosts: `mollavisce`'s, under its own name in a static library.
ghost use Rattle.mollavisce.specs.Entry.{Entered};

// One lent slice is read as the sheet, the other is written with 38 bytes where the answer is 0, and else with none.
#[unsafe(no_mangle)]
pub extern "C" fn sheet_verdict(sheet: &[u8], route: u64, strip: &mut [u8]) -> u32
    ensures { Entered sheet.now route strip.old strip.new result }
{
    mollavisce::entry::sheet_verdict(sheet, route, strip)
}
