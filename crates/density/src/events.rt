ghost use Rattle.std.specs.Prelude.{◌≡◌, true, ◌↔◌, ◌<◌, get_or};
ghost use Rattle.states.specs.Parts.{awaits_of};
ghost use Rattle.states.specs.State.{free_task};
ghost use Rattle.density.specs.Parts.{AwaitedTwice, EventsOf};

use hall::table::Table;
use states::state::Task;
use states::waiting::{awaits, event_of};

// The blocked tasks; of these the lowest who awaits an event, which stands for it; and in its row all who await that event.
#[derive(Clone, Copy)]
pub struct Events {
    pub blocked: u32,
    pub first: u32,
    pub waiters: [u32; 32],
}

pub(crate) fn events_of(table: Table) -> Events
    ensures { EventsOf table result }
{
    let blocked = table.blocked();
    let mut first = blocked;
    let mut waiters = [0u32; 32];
    let mut todo = blocked;
    while let Some(t) = sets::each(todo).next() {
        let event = event_of(table.tasks[t]);
        let alike = sets::those(
            todo,
            |u|
                requires { u < 32 }
                ensures { result ≡ awaits_of (get_or table.tasks u free_task).state event }
            { awaits(table.tasks[u], event) },
        );
        waiters[t] = alike;
        first = sets::less(first, sets::take(alike, t));
        todo = sets::less(todo, alike);
    }
    Events {
        blocked,
        first,
        waiters,
    }
}

// Whether two of some tasks await the same event. It takes the states and not the table, since by value a table is copied whole.
pub fn awaited_twice(tasks: [Task; 32], among: u32) -> bool
    ensures { (t : Table) → t.tasks ≡ tasks → (result ≡ true) ↔ AwaitedTwice t among }
{
    let mut later = among;
    for t in sets::each(among) {
        let task = tasks[t];
        let event = event_of(task);
        later = sets::take(later, t);
        // Both are asked: who awaits nothing is given an event of no phaser, which another may await where the table is not sound.
        let other = sets::first(
            later,
            |u|
                requires { u < 32 }
                ensures { (result ≡ true)
                    ↔ ((awaits_of task.state event ≡ true) × (awaits_of (get_or tasks u free_task).state event ≡ true)) }
            { awaits(task, event) && awaits(tasks[u], event) },
        );
        if other.is_some() {
            return true;
        }
    }
    false
}
