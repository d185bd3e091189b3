// A task's entry (document 01, "Fields"): its number, its state, how many memberships; and a phaser with a phase.
ghost use Rattle.std.specs.Prelude.{◌≡◌};
ghost use Rattle.fields.specs.Got.{got};
ghost use Rattle.sheet.specs.Entry.{event_at, state_on, entry_at};

use crate::refusal::refusal_of;
use answers::Refusal;
use fields::number;
use fields::number::Number;
use fields::place::Read;
use states::state::{Event, LARGEST_PHASE, Phase, PhaserNo, State, TaskNo};

// A phaser and a phase: of a membership, or of the event that a blocked task awaits.
#[tactic(auto, using(crate::proofs::Bounds::bounds), unfolding(crate::specs::Entry::phase_on, crate::specs::Entry::event_at))]
pub(crate) fn event_at(sheet: &[u8], opened: &[bool; 16], floor: u64, at: usize) -> Read<Event>
    ensures { got result ≡ event_at sheet.now opened.now floor at }
{
    let number = number::rising(sheet, 15, floor, at);
    let Number::Value(phaser, next) = number else {
        return Err(refusal_of(number));
    };
    if !opened[phaser as usize] {
        return Err(Refusal::NotOpen);
    }
    let number = number::read(sheet, u64::from(LARGEST_PHASE), next);
    let Number::Value(phase, end) = number else {
        return Err(refusal_of(number));
    };
    let event = Event {
        phaser: PhaserNo(phaser),
        phase: Phase(phase as u32),
    };
    Ok((event, end))
}

// A task's state.
#[tactic(auto, unfolding(crate::specs::Entry::blocked_at, crate::specs::Entry::state_on))]
fn state_on(sheet: &[u8], opened: &[bool; 16], at: usize) -> Read<State>
    ensures { got result ≡ state_on sheet.now opened.now at }
{
    let number = number::plain(sheet, at);
    let Number::Value(kind, next) = number else {
        return Err(refusal_of(number));
    };
    match kind {
        0 => Ok((State::Running, next)),
        1 => {
            let (event, end) = event_at(sheet, opened, 0, next)?;
            Ok((State::Blocked(event), end))
        }
        _ => Err(Refusal::Unknown),
    }
}

// A task's number and state, and how many memberships follow.
#[derive(Clone, Copy)]
pub struct Entry {
    pub number: TaskNo,
    pub state: State,
    pub count: u64,
}

#[tactic(auto, unfolding(crate::specs::Entry::count_on, crate::specs::Entry::entry_on, crate::specs::Entry::entry_at))]
pub(crate) fn entry_at(sheet: &[u8], opened: &[bool; 16], floor: u64, at: usize) -> Read<Entry>
    ensures { got result ≡ entry_at sheet.now opened.now floor at }
{
    let number = number::rising(sheet, 31, floor, at);
    let Number::Value(task, next) = number else {
        return Err(refusal_of(number));
    };
    let (state, next) = state_on(sheet, opened, next)?;
    let number = number::read(sheet, 16, next);
    let Number::Value(count, end) = number else {
        return Err(refusal_of(number));
    };
    let entry = Entry {
        number: TaskNo(task),
        state,
        count,
    };
    Ok((entry, end))
}
