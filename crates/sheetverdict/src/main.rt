#![tactic(auto)]

// Reads a sheet from standard input, judges it by route 0 and prints the verdict: the answer and, if that is 0, the named tasks and the ring.
ghost use Rattle.std.specs.Io.{ReadsAtMost};

use demands::sheets::text_of;
use fields::figures::SETTLING_BYTES;
use std::env::{Env, FillError};
use std::io::{self, Read};

// How many bytes were read, up to the input's end or as far as there is room for them.
fn read_input(rt: &HostRuntime, bytes: &mut [u8]) -> io::Result<usize>
    ensures { ReadsAtMost result bytes.new }
{
    let mut read: usize = 0;
    while read < bytes.len() {
        let more = rt.stdin().read(&mut bytes[read..])?;
        if more == 0 {
            break;
        }
        read += more;
    }
    Ok(read)
}

// What is printed is what the demands speak of: the text of the sheet's verdict, in one write.
#[tactic(auto, using(text::proofs::Said::within))]
fn print(rt: &HostRuntime, sheet: &[u8]) -> io::Result<()> {
    let text = text_of(sheet);
    rt.write_all(&text.bytes[..text.length])
}

fn has_argument(rt: &HostRuntime) -> bool {
    !matches!(rt.arg(1, &mut []), Err(FillError::NotPresent))
}

// Judges the sheet and prints the verdict. The error is what to say on standard error.
fn judge(rt: &HostRuntime) -> Result<(), &'static str> {
    if has_argument(rt) {
        return Err("usage: sheetverdict < SHEET");
    }
    let mut bytes = [0u8; SETTLING_BYTES];
    let read = read_input(rt, &mut bytes).map_err(
        |_| "sheetverdict: standard input cannot be read",
    )?;
    print(rt, &bytes[..read]).map_err(|_| "sheetverdict: standard output cannot be written")
}

fn main(rt: HostRuntime) {
    if let Err(words) = judge(&rt) {
        let _ = eprintln!(rt; "{words}");
    }
}
