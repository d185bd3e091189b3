// Document 01, 'The table': whether one entry, one state of a table is sound.
ghost use Rattle.std.specs.Prelude.{◌≡◌};
ghost use Rattle.states.specs.Parts.{entry_sound, open_in, state_sound};

use crate::state::{LARGEST_PHASE, Phase, State};

// One entry: of a member, who is live and whose phaser is open, or of no member.
pub fn entry_sound(member: bool, state: State, opened: bool, phase: Phase) -> bool
    ensures { result ≡ entry_sound member state opened phase.0 }
{
    if member {
        state.is_live() && opened && phase.0 <= LARGEST_PHASE
    } else {
        phase.0 == 0
    }
}

// One state: an awaited phaser is open, an awaited phase not too large.
pub fn state_sound(opened: [bool; 16], state: State) -> bool
    ensures { result ≡ state_sound (open_in opened) state }
{
    match state {
        State::Blocked(event) => {
            let p = event.phaser.0;
            p < 16 && opened[p as usize] && event.phase.0 <= LARGEST_PHASE
        }
        _ => true,
    }
}
