ghost use Rattle.std.specs.Prelude.{◌≡◌, ◌+◌, ◌*◌, ◌<◌, true, get_or};
ghost use Rattle.states.specs.Parts.{awaits_of, impedes_at};
ghost use Rattle.states.specs.State.{free_task, phase0};
ghost use Rattle.judge.specs.Parts.{Seated, Shaken};
ghost use Rattle.judge.specs.Routes.{EventRoute};

use hall::table::Table;
use seating::seats::Seats;
use states::waiting::{awaits, column, event_of, impedes};

// The tasks whose event starts an endless walk.
pub fn event_route(table: Table) -> u32
    ensures { EventRoute table result }
{
    along_events(table, table.seats(table.blocked()))
}

// Those who await an event of a phaser of which one of `gone` is a member: nobody else's event may have been impeded by them.
fn shaken(seats: Seats, gone: u32) -> u32
    ensures { Shaken seats gone result }
{
    let members = seats.members;
    let waiters = seats.waiters;
    let mut set: u32 = 0;
    for p in 0..16usize {
        if sets::common(members[p], gone) != 0 {
            set = sets::either(set, waiters[p]);
        }
    }
    set
}

// The same, from the seats of the blocked. A set of events is held as the tasks that await them: the lowest of `todo` stands for its event, and all who
// await it stay or go together. An event that none of `left` impedes goes, and the events that those who went may have impeded are looked at again.
pub(crate) fn along_events(table: Table, seats: Seats) -> u32
    requires { Seated table seats }
    ensures { EventRoute table result }
{
    let members = seats.members;
    let waiters = seats.waiters;
    let mut left = seats.all;
    let mut todo = left;
    while let Some(t) = sets::each(todo).next() {
        let event = event_of(table.tasks[t]);
        let place = column(event);
        let alike = sets::those(
            sets::common(waiters[place], left),
            |w|
                requires { w < 32 }
                ensures { result ≡ awaits_of (get_or table.tasks w free_task).state event }
            { awaits(table.tasks[w], event) },
        );
        let impeder = sets::first(
            sets::common(members[place], left),
            |u|
                requires { (u < 32) × (place < 16) }
                ensures { result ≡ impedes_at true (get_or table.phases (u * 16 + place) phase0) event }
            { impedes(true, table.phases[u * 16 + place], event) },
        );
        if impeder.is_some() {
            todo = sets::less(todo, alike);
        } else {
            left = sets::less(left, alike);
            todo = sets::common(left, sets::either(todo, shaken(seats, alike)));
        }
    }
    left
}
