ghost use Rattle.judge.specs.Parts.{Seated};
ghost use Rattle.judge.specs.Routes.{TaskRoute};

use hall::table::Table;
use seating::seats::Seats;

// The tasks from which an endless walk exists, along the edges among the blocked.
pub fn task_route(table: Table) -> u32
    ensures { TaskRoute table result }
{
    along_tasks(table, table.seats(table.blocked()))
}

// The same, from the seats of the blocked.
pub(crate) fn along_tasks(table: Table, seats: Seats) -> u32
    requires { Seated table seats }
    ensures { TaskRoute table result }
{
    deadlock::elimination::named(table.edges(seats), seats.all)
}
