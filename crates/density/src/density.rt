ghost use Rattle.density.specs.Density.{DensityOf};

use crate::edges::{edges_from, event_edges};
use crate::events::events_of;
use hall::table::Table;

// The blocked tasks, the distinct awaited events, and the edges of the task graph, of the event graph and of the task-event graph.
#[derive(Clone, Copy)]
pub struct Density {
    pub blocked: u64,
    pub events: u64,
    pub task_edges: u64,
    pub event_edges: u64,
    pub task_event_edges: u64,
}

pub fn density_of(table: Table) -> Density
    ensures { DensityOf table result }
{
    let events = events_of(table);
    let among = events.blocked;
    let first = events.first;
    let impeders = table.edges(table.seats(among));
    let blocked = u64::from(sets::size(among));
    let awaited = u64::from(sets::size(first));
    let task_edges = edges_from(among, impeders);
    let between_events = event_edges(events, impeders);
    let task_event_edges = blocked + edges_from(first, impeders);
    Density {
        blocked,
        events: awaited,
        task_edges,
        event_edges: between_events,
        task_event_edges,
    }
}
