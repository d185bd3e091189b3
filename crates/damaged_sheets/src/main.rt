#![tactic(auto)]

// Seven sheets, whole and damaged at each byte, judged through the entry: a line for each, `base damage place answer`, and where the
// answer is 0 also the mask, the count, the ring's length and the ring. What it is to write was worked out by host/model/model.py, which has
// its own reader of document 01 and walks both routes.
ghost use Rattle.std.specs.Prelude.{◌+◌, ◌<◌, ◌≤◌, length};

use mollavisce::entry::sheet_verdict;
use std::io;

// What is done to a sheet at a place, by the number that is printed.
#[derive(Clone, Copy)]
enum Damage {
    None = 0,
    // the sheet ends before the place
    Cut = 1,
    // the byte at the place has its top bit turned, is one higher, is 0 or 255
    TopBit = 2,
    Higher = 3,
    Zero = 4,
    Full = 5,
    // a byte is added at the end, the number of the place
    Added = 6,
}

const DAMAGES: [Damage; 7] = [
    Damage::None,
    Damage::Cut,
    Damage::TopBit,
    Damage::Higher,
    Damage::Zero,
    Damage::Full,
    Damage::Added,
];

impl Damage {
    // How many places of a sheet are damaged in turn.
    fn places(self, sheet: &[u8]) -> usize
        requires { length sheet.now < 40 }
        ensures { result < 40 }
    {
        match self {
            Damage::None | Damage::Added => 2,
            _ => sheet.len(),
        }
    }

    // Applies the damage to a sheet, the first `length` bytes, and hands back how long it is then.
    fn apply(self, bytes: &mut [u8; 40], length: usize, place: usize) -> usize
        requires length { length < 40 }
        requires place { place < 40 }
        ensures { result ≤ 40 }
    {
        match self {
            Damage::None => {}
            Damage::Cut => return place,
            Damage::TopBit => bytes[place] ^= 0x80,
            Damage::Higher => bytes[place] = bytes[place].wrapping_add(1),
            Damage::Zero => bytes[place] = 0,
            Damage::Full => bytes[place] = 255,
            Damage::Added => {
                bytes[length] = place as u8;
                return length + 1;
            }
        }
        length
    }
}

// The mask, the count, the ring's length and the ring.
fn print_strip(rt: &HostRuntime, strip: &[u8; 38]) -> io::Result<()> {
    let [a, b, c, d, count, length, ..] = *strip;
    let mask = u32::from_le_bytes([a, b, c, d]);
    print!(rt; " {mask} {count} {length}")?;
    for task in strip[6..].iter().take(usize::from(length)) {
        print!(rt; " {task}")?;
    }
    Ok(())
}

// What the entry answers, by route 0 at even places and by route 1 at odd ones.
fn judge(rt: &HostRuntime, sheet: &[u8], place: usize) -> io::Result<()> {
    let mut strip = [0u8; 38];
    let answer = sheet_verdict(sheet, place as u64 % 2, &mut strip);
    print!(rt; " {answer}")?;
    if answer == 0 {
        print_strip(rt, &strip)?;
    }
    Ok(())
}

fn line(rt: &HostRuntime, base: usize, sheet: &[u8], damage: Damage, place: usize) -> io::Result<()>
    requires sheet { length sheet.now < 40 }
    requires place { place < 40 }
{
    let mut bytes = [0u8; 40];
    bytes[..sheet.len()].copy_from_slice(sheet);
    let length = damage.apply(&mut bytes, sheet.len(), place);
    print!(rt; "{base} {} {place}", damage as u8)?;
    judge(rt, &bytes[..length], place)?;
    println!(rt; "")
}

fn lines(rt: &HostRuntime, base: usize, sheet: &[u8]) -> io::Result<()>
    requires { length sheet.now < 40 }
{
    for damage in DAMAGES {
        for place in 0..damage.places(sheet) {
            line(rt, base, sheet, damage, place)?;
        }
    }
    Ok(())
}

const SHEETS: [&[u8]; 7] = [
    // the empty table
    b"\x01\x00\x00",
    // P2
    b"\x01\x01\x00\x01\x00\x01\x00\x01\x01\x00\x00",
    // P4
    b"\x01\x02\x00\x01\x02\x00\x01\x00\x01\x02\x00\x01\x01\x00\x01\x01\x01\x01\x02\x00\x00\x01\x01",
    // P6
    b"\x01\x02\x00\x01\x03\x00\x01\x00\x01\x02\x00\x01\x01\x00\x01\x01\x01\x01\x02\x00\x00\x01\x01\x02\x01\x00\x01\x01\x00\x01",
    // P8
    b"\x01\x03\x00\x01\x02\x03\x00\x01\x00\x02\x02\x00\x02\x01\x00\x01\x01\x01\x01\x02\x00\x02\x01\x01\x02\x01\x02\x01\x03\x00\x00\x01\x00\x02\x00",
    // P9
    b"\x01\x02\x00\x01\x03\x00\x01\x00\x01\x01\x00\x01\x01\x01\x01\x01\x02\x00\x00\x01\x00\x02\x00\x01\x00\x00",
    // numbers of one, two and three groups: named 9 31
    b"\x01\x02\x03\x0f\x03\x07\x00\x01\x0f\x80\x01\x09\x01\x03\xac\x02\x02\x03\x80\x80\x01\x0f\xfe\xff\x03\
      \x1f\x01\x0f\xff\xff\x03\x02\x03\xab\x02\x0f\xff\xff\x03",
];

fn main(rt: HostRuntime) -> io::Result<()> {
    for (base, sheet) in SHEETS.iter().enumerate() {
        lines(&rt, base, sheet)?;
    }
    Ok(())
}
