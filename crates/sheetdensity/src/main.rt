#![tactic(auto)]

// Reads a file of sheets, each after its length, and prints how dense the graphs of each are, then the totals. The file is standard input, or the one
// that is named by the argument. Of it no more is held than one sheet and its length.
ghost use Rattle.std.specs.Prelude.{◌≡◌, ◌⊎◌, IfOk, take};
ghost use Rattle.std.specs.Io.{ReadsAtMost};
ghost use Rattle.std.specs.Io.KnownBytes.{IsAtEnd};
ghost use Rattle.sheet_file.specs.Parts.{wanted_of};

use demands::densities::next_step;
use sheet_file::piece::{LARGEST_PIECE, wanted};
use sheet_file::totals::Totals;
use std::env::{Env, FillError};
use std::fs::File;
use std::io::{self, Read};
use std::str;

// Takes in the bytes of what comes next: first its length, then as many more as that says, or as there are. An end is asked for once.
fn take_in<R: Read>(file: &mut R, piece: &mut [u8; LARGEST_PIECE]) -> io::Result<usize>
    ensures holds { ReadsAtMost result piece.new }
    ensures whole { IfOk result (λ held. (held ≡ wanted_of (take held piece.new)) ⊎ IsAtEnd (R.remaining file.new)) }
{
    let mut held: usize = 0;
    loop {
        let want = wanted(&piece[..held]);
        if want <= held {
            return Ok(held);
        }
        let more = file.read(&mut piece[held..want])?;
        if more == 0 {
            return Ok(held);
        }
        held += more;
    }
}

// The text of an error, without its number.
fn words_of(text: &str) -> &str {
    text.split_once(" (os error ")
        .map_or(text, |(words, _)| words)
}

// Why a run stops before the last line.
#[derive(Drop)]
enum Fault {
    Usage,
    Open(io::Error),
    Read(io::Error),
    Write,
}

// What failed, a colon and the system's words for it, on standard error; without the words where there is no memory for them.
fn print_error(rt: &HostRuntime, what: &str, error: io::Error) -> io::Result<()> {
    let Ok(text) = format!(in rt.alloc(); "{error}") else {
        return eprintln!(rt; "{what}");
    };
    let words = words_of(text.as_str());
    eprintln!(rt; "{what}: {words}")
}

fn print_fault(rt: &HostRuntime, fault: Fault) -> io::Result<()> {
    match fault {
        Fault::Usage => eprintln!(rt; "usage: sheetdensity [FILE]"),
        Fault::Open(error) => print_error(rt, "sheetdensity: the file cannot be opened", error),
        Fault::Read(error) => print_error(rt, "sheetdensity: the sheets cannot be read", error),
        Fault::Write => eprintln!(rt; "sheetdensity: standard output cannot be written"),
    }
}

// A line for each sheet, and the last one, each in one write.
#[tactic(auto, using(demands::proofs::OfFiles::text_within))]
fn print_lines<R: Read>(rt: &HostRuntime, file: &mut R) -> Result<(), Fault> {
    let mut piece = [0u8; LARGEST_PIECE];
    let mut totals = Totals::none();
    loop {
        let held = take_in(file, &mut piece).map_err(Fault::Read)?;
        let step = next_step(&piece[..held], totals);
        let line = step.text;
        rt.write_all(&line.bytes[..line.length])
            .map_err(|_| Fault::Write)?;
        if step.ended {
            return Ok(());
        }
        totals = step.totals;
    }
}

fn has_argument(rt: &HostRuntime, nth: usize) -> bool {
    !matches!(rt.arg(nth, &mut []), Err(FillError::NotPresent))
}

// The system's number for a name that is too long.
const NAME_TOO_LONG: i32 = 36;

// The file that the argument names. A name has room in 4,096 bytes, and is text.
fn open(rt: &HostRuntime) -> io::Result<File> {
    let mut name = [0u8; 4096];
    let length = rt
        .arg(1, &mut name)
        .map_err(|_| io::Error::from_raw_os_error(NAME_TOO_LONG))?;
    let name = str::from_utf8(&name[..length]).map_err(|_| io::ErrorKind::InvalidFilename)?;
    File::open(rt, name)
}

fn run(rt: &HostRuntime) -> Result<(), Fault> {
    if has_argument(rt, 2) {
        return Err(Fault::Usage);
    }
    if !has_argument(rt, 1) {
        return print_lines(rt, &mut rt.stdin());
    }
    let mut file = open(rt).map_err(Fault::Open)?;
    print_lines(rt, &mut file)
}

fn main(rt: HostRuntime) {
    if let Err(fault) = run(&rt) {
        let _ = print_fault(&rt, fault);
    }
}
