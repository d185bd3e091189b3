// Document 01, 'The table': the table, the fresh table, and what it says of a task or a phaser at numbers of any size.
ghost use Rattle.std.specs.Prelude.{◌≡◌};
ghost use Rattle.hall.specs.Table.{state_at, open_at, member_at, phase_at, fresh_table, Shaped};

use states::state::{Phase, PhaserNo, State, Task, TaskNo};

#[derive(Clone, Copy)]
pub struct Table {
    pub tasks: [Task; 32],
    pub opened: [bool; 16],
    pub phases: [Phase; 512],
    pub members: [bool; 512],
}

impl Table {
    #[tactic(auto, unfolding(crate::specs::Table::fresh_table))]
    pub fn fresh() -> Table
        ensures { result ≡ fresh_table }
    {
        let free = Task { state: State::Free };
        Table {
            tasks: [free; 32],
            opened: [false; 16],
            phases: [Phase(0); 512],
            members: [false; 512],
        }
    }

    // The lengths of the arrays, for theorems over the tables that code has.
    pub fn shaped(self) -> Table
        ensures same { result ≡ self }
        ensures lengths { Shaped self }
    {
        self
    }

    #[tactic(auto, unfolding(crate::specs::Table::state_at))]
    pub fn state_at(self, task: TaskNo) -> State
        ensures { result ≡ state_at self task.0 }
    {
        if task.0 < 32 {
            self.tasks[task.0 as usize].state
        } else {
            State::Free
        }
    }

    #[tactic(auto, unfolding(crate::specs::Table::open_at))]
    pub fn open_at(self, phaser: PhaserNo) -> bool
        ensures { result ≡ open_at self phaser.0 }
    {
        phaser.0 < 16 && self.opened[phaser.0 as usize]
    }

    #[tactic(auto, unfolding(crate::specs::Table::member_at))]
    pub fn member_at(self, task: TaskNo, phaser: PhaserNo) -> bool
        ensures { result ≡ member_at self task.0 phaser.0 }
    {
        task.0 < 32 && phaser.0 < 16 && self.members[(task.0 * 16 + phaser.0) as usize]
    }

    #[tactic(auto, unfolding(crate::specs::Table::phase_at))]
    pub fn phase_at(self, task: TaskNo, phaser: PhaserNo) -> Phase
        ensures { result.0 ≡ phase_at self task.0 phaser.0 }
    {
        if task.0 < 32 && phaser.0 < 16 {
            self.phases[(task.0 * 16 + phaser.0) as usize]
        } else {
            Phase(0)
        }
    }
}
