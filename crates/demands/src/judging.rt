// Demands 2 and 3, of a verdict on a table.
ghost use Rattle.std.specs.Prelude.{◌≡◌};
ghost use Rattle.demands.specs.Demands.{TableJudged, RoutesAgree};

use hall::table::Table;
use judge::event_route::event_route;
use judge::task_route::task_route;
use judge::verdict::Verdict;

// The verdict by a route.
pub fn judge(table: Table, route: u64) -> Verdict
    ensures { TableJudged table route result }
{
    table.shaped();
    judge::judge::judge(table, route)
}

// The verdicts by each route.
#[derive(Clone, Copy)]
pub struct ByRoute {
    pub tasks: Verdict,
    pub events: Verdict,
    pub fewer: Verdict,
}

// "I can't have the verdict hang on that choice."
pub fn verdicts(table: Table) -> ByRoute
    ensures same { (result.tasks ≡ result.events) × (result.tasks ≡ result.fewer) }
    ensures judged { TableJudged table 0 result.tasks }
{
    table.shaped();
    ByRoute {
        tasks: judge(table, 0),
        events: judge(table, 1),
        fewer: judge(table, 2),
    }
}

// Whom the two routes name: the task route, and the event route.
pub fn routes(table: Table) -> (u32, u32)
    ensures { RoutesAgree table result.0 result.1 }
{
    (task_route(table), event_route(table))
}
