// Document 01, 'The ten calls': what the rows see of a table, and the tests that need the whole of it.
ghost use Rattle.std.specs.Prelude.{◌≡◌, ◌<◌, ◌≤◌, MatchOption};
ghost use Rattle.answers.specs.Answers.{answer_of};
ghost use Rattle.states.specs.Tests.{refusal_of};
ghost use Rattle.hall.specs.Tests.{lowest_free, lowest_unopened, unused, seen_at, close_phaser_tests, release_tests};

use crate::table::Table;
use answers::Refusal;
use states::state::{Phase, PhaserNo, State, TaskNo};
use states::tests::Seen;
use states::waiting::waits_at;

impl Table {
    // The lowest free task number.
    pub(crate) fn lowest_free(self) -> Option<TaskNo>
        ensures { MatchOption result (32 ≤ lowest_free self) (λ k. (k.0 < 32) × (k.0 ≡ lowest_free self)) }
    {
        let k = self.tasks.iter().position(|task| task.state.is_free())?;
        Some(TaskNo(k as u64))
    }

    // The lowest number of a phaser that is not open.
    pub(crate) fn lowest_unopened(self) -> Option<PhaserNo>
        ensures { MatchOption result (16 ≤ lowest_unopened self) (λ p. (p.0 < 16) × (p.0 ≡ lowest_unopened self)) }
    {
        let p = self.opened.iter().position(|opened| !*opened)?;
        Some(PhaserNo(p as u64))
    }

    // Whether no task is a member of a phaser or waits at it.
    fn unused(self, phaser: PhaserNo) -> bool
        requires { phaser.0 < 16 }
        ensures { result ≡ unused self phaser.0 }
    {
        let column = phaser.0 as usize;
        for k in 0..32 {
            if self.members[k * 16 + column] || waits_at(self.tasks[k].state, phaser) {
                return false;
            }
        }
        true
    }

    // What a row sees of a task and a phaser. It is read here and not by a method for each part, since each method on a table copies the table.
    #[tactic(auto, unfolding(crate::specs::Table::state_at, crate::specs::Table::open_at, crate::specs::Table::member_at, crate::specs::Table::phase_at))]
    pub(crate) fn seen(self, task: TaskNo, phaser: PhaserNo) -> Seen
        ensures { result ≡ seen_at self task.0 phaser.0 }
    {
        let sound = self.is_sound();
        let state = if task.0 < 32 {
            self.tasks[task.0 as usize].state
        } else {
            State::Free
        };
        let opened = phaser.0 < 16 && self.opened[phaser.0 as usize];
        let (member, phase) = if task.0 < 32 && phaser.0 < 16 {
            let i = (task.0 * 16 + phaser.0) as usize;
            (self.members[i], self.phases[i])
        } else {
            (false, Phase(0))
        };
        Seen {
            sound,
            state,
            opened,
            member,
            phase,
        }
    }

    #[tactic(auto, using(crate::proofs::Places::open_below), unfolding(states::specs::Tests::refusal_of, crate::specs::Tests::close_phaser_tests))]
    pub(crate) fn close_phaser_refusal(self, phaser: PhaserNo) -> Result<(), Refusal>
        ensures { answer_of result ≡ refusal_of (close_phaser_tests self phaser.0) }
    {
        if !self.is_sound() {
            return Err(Refusal::NotSound);
        }
        if !self.open_at(phaser) {
            return Err(Refusal::NoPhaser);
        }
        if !self.unused(phaser) {
            return Err(Refusal::InUse);
        }
        Ok(())
    }

    #[tactic(auto, unfolding(states::specs::Tests::refusal_of, crate::specs::Tests::release_tests))]
    pub(crate) fn release_refusal(self, task: TaskNo) -> Result<(), Refusal>
        ensures { answer_of result ≡ refusal_of (release_tests self task.0) }
    {
        if !self.is_sound() {
            return Err(Refusal::NotSound);
        }
        match self.state_at(task) {
            State::Free => Err(Refusal::NoTask),
            State::Running => Err(Refusal::NotBlocked),
            State::Blocked(event) if self.reached(event) => Ok(()),
            State::Blocked(_) => Err(Refusal::NotReached),
        }
    }
}
