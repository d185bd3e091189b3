// Tables put together step by step, sound or not.
ghost use Rattle.std.specs.Prelude.{◌<◌};

use hall::table::Table;
use states::state::{Event, Phase, PhaserNo, State, Task};

pub(crate) const RUNNING: Task = Task {
    state: State::Running,
};

pub(crate) fn blocked(phaser: u64, phase: u32) -> Task {
    let phaser = PhaserNo(phaser);
    let phase = Phase(phase);
    Task {
        state: State::Blocked(Event { phaser, phase }),
    }
}

// The table after one step more.
pub(crate) trait Steps {
    fn opens(self, phaser: usize) -> Table
        requires { phaser < 16 };

    fn runs(self, task: usize) -> Table
        requires { task < 32 };

    fn waits(self, task: usize, phaser: u64, phase: u32) -> Table
        requires { task < 32 };

    // As a member or not.
    fn keeps(self, task: usize, phaser: usize, phase: u32) -> Table
        requires { (task < 32) × (phaser < 16) };

    fn joins(self, task: usize, phaser: usize, phase: u32) -> Table
        requires { (task < 32) × (phaser < 16) };
}

impl Steps for Table {
    fn opens(mut self, phaser: usize) -> Table {
        self.opened[phaser] = true;
        self
    }

    fn runs(mut self, task: usize) -> Table {
        self.tasks[task] = RUNNING;
        self
    }

    fn waits(mut self, task: usize, phaser: u64, phase: u32) -> Table {
        self.tasks[task] = blocked(phaser, phase);
        self
    }

    fn keeps(mut self, task: usize, phaser: usize, phase: u32) -> Table {
        self.phases[task * 16 + phaser] = Phase(phase);
        self
    }

    fn joins(mut self, task: usize, phaser: usize, phase: u32) -> Table {
        self.members[task * 16 + phaser] = true;
        self.keeps(task, phaser, phase)
    }
}
