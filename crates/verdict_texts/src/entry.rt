// The entry for a C++ host: a line for each call, `entry`, the answer and the strip's bytes.
ghost use Rattle.std.specs.Prelude.{◌≤◌};

use mollavisce::entry::sheet_verdict;
use std::io;

// What the entry answers where it is lent the first `length` of 40 bytes, each 7; then all 40 as they are after it.
fn line(rt: &HostRuntime, sheet: &[u8], route: u64, length: usize) -> io::Result<()>
    requires { length ≤ 40 }
{
    let mut strip = [7u8; 40];
    let answer = sheet_verdict(sheet, route, &mut strip[..length]);
    print!(rt; "entry {answer}")?;
    for byte in strip {
        print!(rt; " {byte}")?;
    }
    println!(rt; "")
}

pub(crate) const P4: &[u8] =
    b"\x01\x02\x00\x01\x02\x00\x01\x00\x01\x02\x00\x01\x01\x00\x01\x01\x01\x01\x02\x00\x00\x01\x01";

// A sheet, a route and the strip's length.
const CALLS: [(&[u8], u64, usize); 15] = [
    // 41 before 40
    (P4, 3, 37),
    (P4, u64::MAX, 0),
    // 40, for strips of 0 and 37 bytes; before the sheet's own refusal
    (P4, 0, 0),
    (P4, 1, 37),
    (b"", 0, 37),
    // the two bytes past 38 stay; a strip of just 38
    (P4, 0, 40),
    (P4, 1, 38),
    (P4, 2, 38),
    // 30: no bytes at all
    (b"", 0, 40),
    // 31: the number of phasers with a needless group
    (b"\x01\x80\x00\x00", 1, 40),
    // 32: 17 phasers
    (b"\x01\x11", 0, 40),
    // 33: phasers 1 and 1
    (b"\x01\x02\x01\x01\x00", 1, 40),
    // 34: version 2
    (b"\x02\x00\x00", 0, 40),
    // 35: a byte after the sheet
    (b"\x01\x00\x00\x00", 1, 40),
    // 36: task 0 waits at phaser 1, and only phaser 0 is open
    (b"\x01\x01\x00\x01\x00\x01\x01\x01\x00", 0, 40),
];

pub(crate) fn lines(rt: &HostRuntime) -> io::Result<()> {
    for (sheet, route, length) in CALLS {
        line(rt, sheet, route, length)?;
    }
    Ok(())
}
