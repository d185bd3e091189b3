ghost use Rattle.std.specs.Prelude.{◌≡◌, ◌↔◌, ◌<◌, true, ℕ, get_or};
ghost use Rattle.sets.specs.Set.{Has};
ghost use Rattle.density.specs.Parts.{AwaitedBy, Counts, JoinedBy};

use crate::events::Events;

// How many edges the rows of the set have.
pub(crate) fn edges_from(set: u32, rows: [u32; 32]) -> u64
    ensures { Counts set (λ k u. Has (get_or rows k 0) u) result }
{
    let mut edges: u64 = 0;
    for t in sets::each(set) {
        edges += u64::from(sets::size(rows[t]));
    }
    edges
}

// The events that some of the tasks await.
fn awaited_by(events: Events, tasks: u32) -> u32
    ensures { AwaitedBy events tasks result }
{
    let waiters = events.waiters;
    sets::those(
        events.first,
        |t|
            requires { t < 32 }
            ensures { (result ≡ true) ↔ ((u : ℕ) × Has (get_or waiters t 0) u × Has tasks u) }
        { sets::common(waiters[t], tasks) != 0 },
    )
}

// How many edges there are between events: from each to those that its impeders await, each of these once.
pub(crate) fn event_edges(events: Events, impeders: [u32; 32]) -> u64
    ensures { Counts events.first (JoinedBy events impeders) result }
{
    let mut edges: u64 = 0;
    for t in sets::each(events.first) {
        let impeding = impeders[t];
        let awaited = awaited_by(events, impeding);
        edges += u64::from(sets::size(awaited));
    }
    edges
}
