// The demands of document 02, M-101: of a table's density, and of what is printed and added up of a file of sheets.
ghost use Rattle.demands.specs.Densities.{TableCounted, StepTaken};

use density::density::Density;
use hall::table::Table;
use sheet_file::counted::count;
use sheet_file::piece::{Piece, next_piece};
use sheet_file::totals::Totals;
use text::densities::{sheet_line, stopped_line, total_line};
use text::text::Text;

pub fn density_of(table: Table) -> Density
    ensures { TableCounted table result }
{
    density::density::density_of(table)
}

// What is printed of the next piece of a file, the totals with it, how many bytes it took, and whether it is the last.
#[derive(Clone, Copy)]
pub struct Step {
    pub text: Text,
    pub totals: Totals,
    pub taken: usize,
    pub ended: bool,
}

// Of the bytes from here on, with the totals of the sheets before.
pub fn next_step(bytes: &[u8], totals: Totals) -> Step
    ensures { StepTaken bytes.now totals result }
{
    let done = totals.done();
    match next_piece(bytes, done) {
        Piece::Ended => Step {
            text: total_line(totals),
            totals,
            taken: 0,
            ended: true,
        },
        Piece::Stopped(number) => Step {
            text: stopped_line(number),
            totals,
            taken: 0,
            ended: true,
        },
        Piece::Sheet(from, to) => {
            let counted = count(&bytes[from..to]);
            Step {
                text: sheet_line(done + 1, counted),
                totals: totals.with(counted),
                taken: to,
                ended: false,
            }
        }
    }
}
