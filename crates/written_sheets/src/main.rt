#![tactic(auto)]

// Tables, each written as a hall sheet into buffers of several lengths. For each there is a line of a write into 2,300 bytes, `table length answer value
// sum`; after answer 0 a line with the sheet and the four bytes after it, in hex (but for the longest), and lines of writes into one byte less than the
// sheet, as many, and one more; after 44 a line of a write into no bytes. What it is to write was worked out by host/model/model.py, which has its own
// writer and draws the same tables.
mod bench;
mod drawn;
mod draws;
mod fault;
mod lines;
mod longest;
mod tables;

use std::io;

fn main(rt: HostRuntime) -> io::Result<()> {
    bench::lines(&rt)?;
    lines::table_lines(&rt, 13, longest::table())?;
    drawn::lines(&rt)
}
