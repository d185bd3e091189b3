// What comes next in a file of sheets.
ghost use Rattle.std.specs.Prelude.{◌≡◌, ◌≤◌, length};
ghost use Rattle.sheet_file.specs.Piece.{piece_of};
ghost use Rattle.sheet_file.specs.Parts.{wanted_of, largest_piece};

use answers::Refusal;
use fields::number::{Number, read};

// "A length is at most 4,096"
pub const LARGEST_LENGTH: u64 = 4_096;
// "a file of up to 1,000 sheets"
pub const MOST_SHEETS: u64 = 1_000;
// The bytes of a length, and of one sheet: no piece has more.
pub const LARGEST_PIECE: usize = 4_099;

// A sheet, from its first byte to the one after its last; a fault that stops the run; the file's end.
#[derive(Clone, Copy, Debug, PartialEq, Eq)]
pub enum Piece {
    Sheet(usize, usize),
    Stopped(u32),
    Ended,
}

// Of the bytes from here on, after so many sheets.
pub fn next_piece(bytes: &[u8], done: u64) -> Piece
    ensures { result ≡ piece_of bytes.now done }
{
    if bytes.is_empty() {
        return Piece::Ended;
    }
    if MOST_SHEETS <= done {
        return Piece::Stopped(Refusal::BytesAfter.number());
    }
    match read(bytes, LARGEST_LENGTH, 0) {
        Number::Refused(refusal) => Piece::Stopped(refusal.number()),
        Number::Value(length, from) => {
            let to = from + length as usize;
            if to <= bytes.len() {
                Piece::Sheet(from, to)
            } else {
                Piece::Stopped(Refusal::EndsInside.number())
            }
        }
    }
}

// How many bytes what comes next has, as far as these bytes tell: one more than there are where its length goes on. So many are enough to go by, and a
// program need hold no more of a file.
pub fn wanted(bytes: &[u8]) -> usize
    ensures is { result ≡ wanted_of bytes.now }
    ensures fits { length bytes.now ≤ largest_piece → result ≤ largest_piece }
{
    match read(bytes, LARGEST_LENGTH, 0) {
        Number::Value(length, from) => from + length as usize,
        Number::Refused(refusal) => match refusal {
            Refusal::EndsInside => bytes.len() + 1,
            _ => bytes.len(),
        },
    }
}

// No other promise fixes it, so this holds it to its definition.
fn largest_piece() -> usize
    ensures { result ≡ largest_piece }
{
    LARGEST_PIECE
}
