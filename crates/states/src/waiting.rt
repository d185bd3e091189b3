// Document 01, 'Stuck': what a task awaits, and whether an entry impedes it.
ghost use Rattle.std.specs.Prelude.{◌≡◌, ◌%◌};
ghost use Rattle.states.specs.Parts.{awaits_of, event_of, impedes_at};
ghost use Rattle.states.specs.Waiting.{behind, waits_at};

use crate::state::{Event, Phase, PhaserNo, State, Task};

// "A member with a phase less than n impedes event (p, n). Equal does not impede."
pub fn behind(member: bool, phase: Phase, awaited: Phase) -> bool
    ensures { result ≡ behind member phase.0 awaited.0 }
{
    member && phase.0 < awaited.0
}

// Where the event's phaser stands in a task's sixteen entries; of no phaser, anywhere.
pub fn column(event: Event) -> usize
    ensures { result ≡ event.phaser.0 % 16 }
{
    (event.phaser.0 % 16) as usize
}

// Whether a task impedes the event, by its entry in the event's column.
#[tactic(auto, unfolding(crate::specs::Parts::impedes_at))]
pub fn impedes(member: bool, phase: Phase, event: Event) -> bool
    ensures { result ≡ impedes_at member phase event }
{
    (event.phaser.0 < 16) & behind(member, phase, event.phase)
}

// The event that the task awaits; where it awaits none, one of no phaser, which nobody impedes.
#[tactic(auto, unfolding(crate::specs::Parts::event_of))]
pub fn event_of(task: Task) -> Event
    ensures { result ≡ event_of task.state }
{
    match task.state {
        State::Blocked(event) => event,
        _ => Event {
            phaser: PhaserNo(16),
            phase: Phase(0),
        },
    }
}

// Whether the task is blocked on the event.
#[tactic(auto, unfolding(crate::specs::Parts::awaits_of, crate::specs::Parts::same_of))]
pub fn awaits(task: Task, event: Event) -> bool
    ensures { result ≡ awaits_of task.state event }
{
    task.state == State::Blocked(event)
}

// Whether the state is a wait at the phaser.
pub fn waits_at(state: State, phaser: PhaserNo) -> bool
    ensures { result ≡ waits_at state phaser.0 }
{
    matches!(state, State::Blocked(event) if event.phaser == phaser)
}
