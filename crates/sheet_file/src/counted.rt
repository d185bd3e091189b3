// What is counted of a sheet.
ghost use Rattle.std.specs.Prelude.{◌≡◌};
ghost use Rattle.sheet_file.specs.Counted.{CountedOf, no_density};

use answers::DONE;
use density::density::{Density, density_of};
use hall::table::Table;
use sheet::reader::read;

// The reader's answer, and the density of the sheet's table.
#[derive(Clone, Copy)]
pub struct Counted {
    pub answer: u32,
    pub density: Density,
}

// No blocked task, no awaited event, no edge.
pub(crate) fn no_density() -> Density
    ensures { result ≡ no_density }
{
    Density {
        blocked: 0,
        events: 0,
        task_edges: 0,
        event_edges: 0,
        task_event_edges: 0,
    }
}

pub fn count(sheet: &[u8]) -> Counted
    ensures { CountedOf sheet.now result }
{
    let mut table = Table::fresh();
    match read(sheet, &mut table) {
        Ok(()) => Counted {
            answer: DONE,
            density: density_of(table),
        },
        Err(refusal) => Counted {
            answer: refusal.number(),
            density: no_density(),
        },
    }
}
