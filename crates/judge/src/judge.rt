ghost use Rattle.std.specs.Prelude.{◌≡◌};
ghost use Rattle.hall.specs.Parts.{BlockedSet};
ghost use Rattle.judge.specs.Parts.{Seated, ByEvents, ByRoute};
ghost use Rattle.judge.specs.Route.{route_number};
ghost use Rattle.judge.specs.Routes.{largest_route};
ghost use Rattle.judge.specs.Verdict.{verdict_of, Found, Judged};

use crate::event_route::along_events;
use crate::ring::ring_of;
use crate::route::Route;
use crate::task_route::along_tasks;
use crate::verdict::Verdict;
use answers::{DONE, Refusal};
use deadlock::ring::Round;
use density::events::awaited_twice;
use hall::table::Table;
use seating::seats::Seats;
use states::state::Task;

// "41 from now on for routes over 2" (document 02, M-101)
pub const LARGEST_ROUTE: u64 = 2;

// No other promise names it, so this holds it to its definition.
fn largest_route() -> u64
    ensures { result ≡ largest_route }
{
    LARGEST_ROUTE
}

// Whether a route goes by events: route 2 does where these are fewer than the blocked tasks, which is to say where two of them await the same one.
fn by_events(tasks: [Task; 32], blocked: u32, route: Route) -> bool
    ensures { (t : Table) → t.tasks ≡ tasks → BlockedSet t blocked → ByEvents t (route_number route) result }
{
    match route {
        Route::Tasks => false,
        Route::Events => true,
        Route::Fewer => awaited_twice(tasks, blocked),
    }
}

// Each of the two routes is called at one place only: called at two, it would be compiled as a function with a frame of its own.
fn named_by(table: Table, seats: Seats, route: Route) -> u32
    requires { Seated table seats }
    ensures { ByRoute table (route_number route) result }
{
    let tasks = table.tasks;
    if by_events(tasks, seats.all, route) {
        along_events(table, seats)
    } else {
        along_tasks(table, seats)
    }
}

fn verdict(named: u32, round: Option<Round>) -> Verdict
    ensures { result ≡ verdict_of named round }
{
    match round {
        Some(round) => {
            let ring = round.tasks;
            Verdict {
                answer: DONE,
                named,
                count: sets::size(named),
                length: round.length,
                ring,
            }
        }
        None => Verdict::nobody(Refusal::NoStep.number()),
    }
}

// The verdict of a sound table whose blocked tasks are known. Where nobody is blocked, or nobody is named, no more of the table is looked at.
pub(crate) fn found(table: Table, blocked: u32, route: Route) -> Verdict
    requires { BlockedSet table blocked }
    ensures { Found table (route_number route) result }
{
    if blocked == 0 {
        return Verdict::nobody(DONE);
    }
    let seats = table.seats(blocked);
    let named = named_by(table, seats, route);
    if named == 0 {
        return Verdict::nobody(DONE);
    }
    verdict(named, ring_of(table, seats, named))
}

// The verdict of a table by route 0, the task route, 1, the event route, or 2, which chooses one of them.
pub fn judge(table: Table, route: u64) -> Verdict
    ensures { Judged table route result }
{
    match Route::try_from(route) {
        Ok(_) if !table.is_sound() => Verdict::nobody(Refusal::NotSound.number()),
        Ok(route) => found(table, table.blocked(), route),
        Err(refusal) => Verdict::nobody(refusal.number()),
    }
}
