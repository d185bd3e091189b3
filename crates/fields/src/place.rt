// What the parts of the reader hand each other.
ghost use Rattle.std.specs.Prelude.{◌≡◌, ltb, length, cond};
ghost use Rattle.answers.specs.Answers.{answer_of, bytes_after, done};

use answers::Refusal;

// A part of a sheet and the next place, or the refusal.
pub type Read<T> = Result<(T, usize), Refusal>;

// Bytes after the sheet are refused last.
pub fn ended(sheet: &[u8], at: usize) -> Result<(), Refusal>
    ensures { answer_of result ≡ cond (ltb at (length sheet.now)) bytes_after done }
{
    if at < sheet.len() {
        return Err(Refusal::BytesAfter);
    }
    Ok(())
}
