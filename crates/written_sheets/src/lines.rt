// What a table's writes do to buffers of several lengths.
ghost use Rattle.std.specs.Prelude.{◌<◌, ◌≤◌};

use fields::figures::LONGEST_SHEET;
use hall::table::Table;
use std::{array, io};
use writer::writer::write;

// A buffer before a write: no byte is like its neighbours.
fn pattern() -> [u8; 2300] {
    array::from_fn(|i| ((i * 7 + 1) % 256) as u8)
}

// Over all bytes, weighted by their places; by a prime, so that one byte that differs gives another sum.
fn sum(bytes: &[u8; 2300]) -> u16 {
    bytes.iter().fold(0u16, |sum, byte| {
        ((u32::from(sum) * 31 + u32::from(*byte)) % 65_521) as u16
    })
}

// A write into the first `length` bytes, and the length of the sheet that it wrote. The sum is over all 2,300.
fn line(rt: &HostRuntime, number: u64, table: Table, length: usize) -> io::Result<Option<u64>>
    requires { length ≤ 2300 }
{
    let mut bytes = pattern();
    let written = write(table, &mut bytes[..length]);
    let (answer, value) = match written {
        Ok(sheet) => (0, sheet),
        Err(refusal) => (refusal.number(), 0),
    };
    println!(rt; "{number} {length} {answer} {value} {}", sum(&bytes))?;
    Ok(written.ok())
}

fn print_hex(rt: &HostRuntime, bytes: &[u8]) -> io::Result<()> {
    for byte in bytes {
        print!(rt; "{byte:02x}")?;
    }
    Ok(())
}

// The sheet, and the four bytes after it.
fn sheet_line(rt: &HostRuntime, table: Table, length: usize) -> io::Result<()>
    requires { length ≤ 2296 }
{
    let mut bytes = pattern();
    let _ = write(table, &mut bytes);
    print_hex(rt, &bytes[..length])?;
    print!(rt; " ")?;
    print_hex(rt, &bytes[length..length + 4])?;
    println!(rt; "")
}

// All lines of a table.
pub(crate) fn table_lines(rt: &HostRuntime, number: u64, table: Table) -> io::Result<()> {
    let Some(sheet) = line(rt, number, table, 2300)? else {
        line(rt, number, table, 0)?;
        return Ok(());
    };
    let length = sheet as usize;
    // every sheet has room in 2,296
    if 0 < length && length <= 2296 {
        if length < LONGEST_SHEET {
            sheet_line(rt, table, length)?;
        }
        for near in length - 1..length + 2 {
            line(rt, number, table, near)?;
        }
    }
    Ok(())
}
