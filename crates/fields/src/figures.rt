// Document 01's figures of the hall sheet.
ghost use Rattle.std.specs.Prelude.{◌≡◌};
ghost use Rattle.fields.specs.Figures.{longest_sheet, settling_bytes};

// "The longest sheet has 2,291 bytes."
pub const LONGEST_SHEET: usize = 2_291;
// "So reading 2,292 settles any input."
pub const SETTLING_BYTES: usize = 2_292;
// "At most three groups": so many may follow the first.
pub const FURTHER: usize = 2;

// No promise of the library names the first two, so these hold them to their definitions.
fn longest_sheet() -> usize
    ensures { result ≡ longest_sheet }
{
    LONGEST_SHEET
}

fn settling_bytes() -> usize
    ensures { result ≡ settling_bytes }
{
    SETTLING_BYTES
}
