#![tactic(auto)]

// What no other run has: the texts of verdicts at their edges; the entry's refusals, with every byte of the strip; tables that are not sound, judged and
// called. What it is to write was written by hand from document 01.
mod entry;
mod longest;
mod texts;
mod unsound;

use std::io;

fn main(rt: HostRuntime) -> io::Result<()> {
    texts::lines(&rt)?;
    entry::lines(&rt)?;
    unsound::lines(&rt)
}
