ghost use Rattle.std.specs.Prelude.{◌≡◌, ◌+◌, ◌*◌, ◌<◌, true, get_or};
ghost use Rattle.sets.specs.Set.{Has};
ghost use Rattle.states.specs.Parts.{impedes_at};
ghost use Rattle.states.specs.State.{phase0};
ghost use Rattle.deadlock.specs.Ring.{RingIn};
ghost use Rattle.hall.specs.Waiting.{ImpedesTask};
ghost use Rattle.judge.specs.Parts.{NamedSeats, NextsOf};

use deadlock::ring::Round;
use hall::table::Table;
use seating::seats::Seats;
use states::waiting::{column, event_of, impedes};

// For each of the named, the lowest named one that impedes its event; 32 where there is none.
fn nexts(table: Table, seats: Seats, named: u32) -> [u8; 32]
    requires { NamedSeats table seats named }
    ensures { NextsOf table named result }
{
    let members = seats.members;
    let mut next = [32u8; 32];
    for t in sets::each(named) {
        let event = event_of(table.tasks[t]);
        let place = column(event);
        let step = sets::first(
            sets::common(members[place], named),
            |u|
                requires { (u < 32) × (place < 16) }
                ensures { result ≡ impedes_at true (get_or table.phases (u * 16 + place) phase0) event }
            { impedes(true, table.phases[u * 16 + place], event) },
        );
        if let Some(u) = step {
            next[t] = u as u8;
        }
    }
    next
}

// The ring of the named tasks: from each the walk steps to the lowest named one that impedes its event.
pub(crate) fn ring_of(table: Table, seats: Seats, named: u32) -> Option<Round>
    requires { NamedSeats table seats named }
    ensures { RingIn (Has named) (ImpedesTask table) result }
{
    deadlock::ring::ring(nexts(table, seats, named), named)
}
