// Who of some tasks is a member of each phaser, and who awaits an event of it: what a judge looks at in place of all 512 entries.
ghost use Rattle.std.specs.Prelude.{◌≡◌};
ghost use Rattle.seating.specs.Parts.{SeatsIn};

use states::state::Task;
use states::waiting::{column, event_of};

// Some tasks; and for each phaser, those of them that are its members, and those whose event stands in its column.
#[derive(Clone, Copy)]
pub struct Seats {
    pub all: u32,
    pub members: [u32; 16],
    pub waiters: [u32; 16],
}

// It takes two arrays and not the table, since by value a table is copied whole.
pub fn seats_of(tasks: [Task; 32], members: [bool; 512], all: u32) -> Seats
    ensures all { result.all ≡ all }
    ensures seated { SeatsIn tasks members result }
{
    let mut seated = [0u32; 16];
    let mut waiters = [0u32; 16];
    for t in sets::each(all) {
        let place = column(event_of(tasks[t]));
        waiters[place] = sets::marked(waiters[place], t, true);
        for p in 0..16usize {
            seated[p] = sets::marked(seated[p], t, members[t * 16 + p]);
        }
    }
    Seats {
        all,
        members: seated,
        waiters,
    }
}
