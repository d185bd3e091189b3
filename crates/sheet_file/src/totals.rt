// The totals over the sheets of a file. The sums wrap, so that nothing is asked of a caller; over a file's sheets they are exact (`totals_exact`).
ghost use Rattle.std.specs.Prelude.{◌≡◌};
ghost use Rattle.sheet_file.specs.Totals.{no_totals, done_of, sum_of_densities, totals_with};

use crate::counted::{Counted, no_density};
use answers::DONE;
use density::density::Density;

// How many sheets were accepted, and how many refused; the sums of the accepted ones' densities.
#[derive(Clone, Copy)]
pub struct Totals {
    pub sheets: u64,
    pub refused: u64,
    pub density: Density,
}

fn sum_of_densities(a: Density, b: Density) -> Density
    ensures { result ≡ sum_of_densities a b }
{
    Density {
        blocked: a.blocked.wrapping_add(b.blocked),
        events: a.events.wrapping_add(b.events),
        task_edges: a.task_edges.wrapping_add(b.task_edges),
        event_edges: a.event_edges.wrapping_add(b.event_edges),
        task_event_edges: a.task_event_edges.wrapping_add(b.task_event_edges),
    }
}

impl Totals {
    pub fn none() -> Totals
        ensures { result ≡ no_totals }
    {
        Totals {
            sheets: 0,
            refused: 0,
            density: no_density(),
        }
    }

    // With one sheet more.
    pub fn with(self, counted: Counted) -> Totals
        ensures { result ≡ totals_with self counted }
    {
        if counted.answer != DONE {
            return Totals {
                refused: self.refused.wrapping_add(1),
                ..self
            };
        }
        Totals {
            sheets: self.sheets.wrapping_add(1),
            density: sum_of_densities(self.density, counted.density),
            ..self
        }
    }

    // How many sheets there were.
    pub fn done(self) -> u64
        ensures { result ≡ done_of self }
    {
        self.sheets.wrapping_add(self.refused)
    }
}
