// A task's entry (document 01, "Fields"), laid into a buffer: its number, its state, how many memberships, and each of them.
ghost use Rattle.std.specs.Prelude.{◌≡◌, ◌++◌, ◌≤◌};
ghost use Rattle.fields.specs.Number.{number_bytes};
ghost use Rattle.sheet.specs.Written.{state_bytes};
ghost use Rattle.writer.specs.Parts.{Laid, if_there, entry_bytes, row_end};

use crate::number::put;
use states::state::{Phase, State};

fn put_state(buffer: &mut [u8], at: usize, state: State) -> usize
    requires { at ≤ 60000 }
    ensures { Laid buffer.old at (state_bytes state) buffer.new result }
{
    match state {
        State::Free => at,
        State::Running => put(buffer, at, 0),
        State::Blocked(event) => {
            let awaited = put(buffer, at, 1);
            let phased = put(buffer, awaited, event.phaser.0);
            put(buffer, phased, u64::from(event.phase.0))
        }
    }
}

// What stands before the memberships; of a free task nothing.
pub(crate) fn put_entry(
    buffer: &mut [u8],
    at: usize,
    number: u64,
    state: State,
    count: u64,
) -> usize
    requires { at ≤ 50000 }
    ensures { Laid buffer.old at (entry_bytes number state count) buffer.new result }
{
    if state.is_live() {
        let stated = put(buffer, at, number);
        let counted = put_state(buffer, stated, state);
        put(buffer, counted, count)
    } else {
        at
    }
}

pub(crate) fn put_membership(
    buffer: &mut [u8],
    at: usize,
    member: bool,
    phaser: u64,
    phase: Phase,
) -> usize
    requires { at ≤ 50000 }
    ensures { Laid buffer.old at (if_there member (number_bytes phaser ++ number_bytes phase.0)) buffer.new result }
{
    if member {
        let phased = put(buffer, at, phaser);
        put(buffer, phased, u64::from(phase.0))
    } else {
        at
    }
}

// Where a task's row ends: a free task has no entry, and nothing of its row is on the sheet.
pub(crate) fn row_end(state: State) -> usize
    ensures { result ≡ row_end state }
{
    if state.is_live() { 16 } else { 0 }
}
