// Document 01, 'Stuck': who is blocked, and who impedes whom.
ghost use Rattle.std.specs.Prelude.{◌≡◌, ◌+◌, ◌*◌, ◌<◌, true, get_or};
ghost use Rattle.seating.specs.Parts.{BlockedIn, RowsIn};
ghost use Rattle.states.specs.Parts.{impedes_at};
ghost use Rattle.states.specs.State.{free_task, is_blocked, phase0};

use crate::seats::Seats;
use states::state::{Phase, Task};
use states::waiting::{column, event_of, impedes};

// The blocked tasks.
pub fn blocked_of(tasks: [Task; 32]) -> u32
    ensures { BlockedIn tasks result }
{
    sets::those(
        0xffff_ffff,
        |t|
            requires { t < 32 }
            ensures { result ≡ is_blocked (get_or tasks t free_task).state }
        { tasks[t].state.is_blocked() },
    )
}

// For each of those seated, who of them impedes its event: only members of its phaser are looked at.
pub fn edges_of(tasks: [Task; 32], phases: [Phase; 512], seats: Seats) -> [u32; 32]
    ensures { RowsIn tasks phases seats result }
{
    let members = seats.members;
    let mut rows = [0u32; 32];
    for t in sets::each(seats.all) {
        let event = event_of(tasks[t]);
        let place = column(event);
        rows[t] = sets::those(
            members[place],
            |u|
                requires { (u < 32) × (place < 16) }
                ensures { result ≡ impedes_at true (get_or phases (u * 16 + place) phase0) event }
            { impedes(true, phases[u * 16 + place], event) },
        );
    }
    rows
}
