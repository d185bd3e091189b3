// Document 01, 'The table': whether a table is sound. No number in it is trusted.
ghost use Rattle.std.specs.Prelude.{◌≡◌};
ghost use Rattle.hall.specs.Parts.{sound_of};

use crate::table::Table;
use states::sound::{entry_sound, state_sound};

impl Table {
    // Each task's entries and its state. Nothing ends it early: a test without a way out in each of 512 turns takes less time.
    pub fn is_sound(self) -> bool
        ensures { result ≡ sound_of self }
    {
        let mut entries = true;
        let mut states = true;
        for k in 0..32 {
            let state = self.tasks[k].state;
            for p in 0..16 {
                let i = k * 16 + p;
                entries &= entry_sound(self.members[i], state, self.opened[p], self.phases[i]);
            }
            states &= state_sound(self.opened, state);
        }
        entries & states
    }
}
