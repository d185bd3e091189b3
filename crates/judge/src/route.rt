// The judge's routes by their numbers (document 01, 'The hall sheet'; document 02, M-101).
ghost use Rattle.judge.specs.Route.{RouteOf};

use answers::Refusal;

// From task to task, from event to event, or by the fewer of these.
#[derive(Clone, Copy, Debug, PartialEq, Eq)]
pub enum Route {
    Tasks,
    Events,
    Fewer,
}

impl TryFrom<u64> for Route {
    type Error = Refusal;

    ghost try_from_gives = { RouteOf };

    fn try_from(number: u64) -> Result<Self, Refusal> {
        match number {
            0 => Ok(Route::Tasks),
            1 => Ok(Route::Events),
            2 => Ok(Route::Fewer),
            _ => Err(Refusal::NoRoute),
        }
    }
}
