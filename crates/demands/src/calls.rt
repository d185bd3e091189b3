// Demands 1 and 2, of a call.
ghost use Rattle.demands.specs.Demands.{CallAnswered};
ghost use Rattle.demands.specs.Moves.{ByRules};

use hall::calls::{Call, Called};
use hall::table::Table;

pub fn call(table: Table, call: Call) -> Called
    ensures answered { CallAnswered table call result }
    ensures moves { ByRules table call result }
{
    table.shaped();
    table.call(call)
}
