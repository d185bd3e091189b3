// Document 01, 'The ten calls': each takes the table and hands the next table back, with an answer and a value.
ghost use Rattle.std.specs.Prelude.{◌≡◌, ◌<◌};
ghost use Rattle.answers.specs.Answers.{number_of};
ghost use Rattle.hall.specs.Table.{entry_of};
ghost use Rattle.hall.specs.Effects.{with_state, with_entry, with_open, without_entries};
ghost use Rattle.hall.specs.Calls.{called, refused, open_task_of, end_task_of, open_phaser_of, close_phaser_of, admit_of};
ghost use Rattle.hall.specs.Calls.{leave_of, arrive_of, waits, wait_of, wait_at_of, release_of, call_of};

use crate::kind::Kind;
use crate::table::Table;
use answers::{DONE, NOW_BLOCKED, Refusal, WAIT_PASSED};
use states::state::{Event, Phase, PhaserNo, State, Task, TaskNo};
use states::tests::{
    admit_refusal, arrive_refusal, caller_refusal, member_refusal, wait_at_refusal,
};

// A call by the number of its kind, with numbers of any size. `other` is the target of an admit, or the stated phase of a wait.
#[derive(Clone, Copy)]
pub struct Call {
    pub kind: u64,
    pub task: u64,
    pub phaser: u64,
    pub other: u64,
}

#[derive(Clone, Copy)]
pub struct Called {
    pub answer: u32,
    pub value: u64,
    pub table: Table,
}

impl Table {
    #[tactic(auto, unfolding(crate::specs::Effects::with_state))]
    fn with_state(self, task: TaskNo, state: State) -> Table
        requires { task.0 < 32 }
        ensures { result ≡ with_state self task.0 state }
    {
        let mut next = self;
        next.tasks[task.0 as usize] = Task { state };
        next
    }

    #[tactic(auto, unfolding(crate::specs::Effects::with_entry))]
    fn with_entry(self, task: TaskNo, phaser: PhaserNo, member: bool, phase: Phase) -> Table
        requires task { task.0 < 32 }
        requires phaser { phaser.0 < 16 }
        ensures { result ≡ with_entry self task.0 phaser.0 (entry_of member phase.0) }
    {
        let i = (task.0 * 16 + phaser.0) as usize;
        let mut next = self;
        next.phases[i] = phase;
        next.members[i] = member;
        next
    }

    #[tactic(auto, unfolding(crate::specs::Effects::with_open))]
    fn with_open(self, phaser: PhaserNo, opened: bool) -> Table
        requires { phaser.0 < 16 }
        ensures { result ≡ with_open self phaser.0 opened }
    {
        let mut next = self;
        next.opened[phaser.0 as usize] = opened;
        next
    }

    fn without_entries(self, task: TaskNo) -> Table
        requires { task.0 < 32 }
        ensures { result ≡ without_entries self task.0 16 }
    {
        let first = task.0 as usize * 16;
        let mut next = self;
        next.phases[first..first + 16].fill(Phase(0));
        next.members[first..first + 16].fill(false);
        next
    }

    fn called(self, answer: u32, value: u64) -> Called
        ensures { result ≡ called answer value self }
    {
        Called {
            answer,
            value,
            table: self,
        }
    }

    // "value 0, the table .. exactly as before"
    fn refused(self, refusal: Refusal) -> Called
        ensures { result ≡ refused self (number_of refusal) }
    {
        self.called(refusal.number(), 0)
    }

    #[tactic(auto, using(crate::proofs::Ruled::call_laws), unfolding(crate::specs::Calls::open_task_of, crate::specs::Calls::ruled))]
    pub fn open_task(self) -> Called
        ensures { result ≡ open_task_of self }
    {
        if !self.is_sound() {
            return self.refused(Refusal::NotSound);
        }
        let Some(task) = self.lowest_free() else {
            return self.refused(Refusal::NoneFree);
        };
        let next = self.with_state(task, State::Running);
        next.called(DONE, task.0)
    }

    #[tactic(auto, using(crate::proofs::Ruled::call_laws), unfolding(crate::specs::Calls::end_task_of, crate::specs::Tests::end_task_tests))]
    pub fn end_task(self, task: TaskNo) -> Called
        ensures { result ≡ end_task_of self task.0 }
    {
        if let Err(refusal) = caller_refusal(self.is_sound(), self.state_at(task)) {
            return self.refused(refusal);
        }
        let left = self.without_entries(task);
        let ended = left.with_state(task, State::Free);
        ended.called(DONE, 0)
    }

    #[tactic(auto, using(crate::proofs::Ruled::call_laws), unfolding(crate::specs::Calls::open_phaser_of, crate::specs::Calls::ruled))]
    pub fn open_phaser(self, task: TaskNo) -> Called
        ensures { result ≡ open_phaser_of self task.0 }
    {
        if let Err(refusal) = caller_refusal(self.is_sound(), self.state_at(task)) {
            return self.refused(refusal);
        }
        let Some(phaser) = self.lowest_unopened() else {
            return self.refused(Refusal::NoneFree);
        };
        let opened = self.with_open(phaser, true);
        let next = opened.with_entry(task, phaser, true, Phase(0));
        next.called(DONE, phaser.0)
    }

    #[tactic(auto, using(crate::proofs::Ruled::call_laws), unfolding(crate::specs::Calls::close_phaser_of))]
    pub fn close_phaser(self, phaser: PhaserNo) -> Called
        ensures { result ≡ close_phaser_of self phaser.0 }
    {
        if let Err(refusal) = self.close_phaser_refusal(phaser) {
            return self.refused(refusal);
        }
        let closed = self.with_open(phaser, false);
        closed.called(DONE, 0)
    }

    #[tactic(auto, using(crate::proofs::Ruled::call_laws), unfolding(crate::specs::Calls::admit_of))]
    pub fn admit(self, caller: TaskNo, phaser: PhaserNo, target: TaskNo) -> Called
        ensures { result ≡ admit_of self caller.0 phaser.0 target.0 }
    {
        let seen = self.seen(caller, phaser);
        if let Err(refusal) = admit_refusal(
            seen,
            self.state_at(target),
            self.member_at(target, phaser),
        ) {
            return self.refused(refusal);
        }
        let phase = seen.phase;
        let next = self.with_entry(target, phaser, true, phase);
        next.called(DONE, u64::from(phase.0))
    }

    #[tactic(auto, using(crate::proofs::Ruled::call_laws), unfolding(crate::specs::Calls::leave_of))]
    pub fn leave(self, task: TaskNo, phaser: PhaserNo) -> Called
        ensures { result ≡ leave_of self task.0 phaser.0 }
    {
        if let Err(refusal) = member_refusal(self.seen(task, phaser)) {
            return self.refused(refusal);
        }
        let gone = self.with_entry(task, phaser, false, Phase(0));
        gone.called(DONE, 0)
    }

    #[tactic(auto, using(crate::proofs::Ruled::call_laws), unfolding(crate::specs::Calls::arrive_of))]
    pub fn arrive(self, task: TaskNo, phaser: PhaserNo) -> Called
        ensures { result ≡ arrive_of self task.0 phaser.0 }
    {
        let seen = self.seen(task, phaser);
        if let Err(refusal) = arrive_refusal(seen) {
            return self.refused(refusal);
        }
        let kept = seen.phase.0;
        let higher = kept + 1;
        let next = self.with_entry(task, phaser, true, Phase(higher));
        next.called(DONE, u64::from(higher))
    }

    // What both waits do: pass, or block the caller on the event.
    #[tactic(auto, unfolding(crate::specs::Calls::waits))]
    fn waits(self, task: TaskNo, phaser: PhaserNo, phase: Phase) -> Called
        requires { task.0 < 32 }
        ensures { result ≡ waits self task.0 phaser.0 phase.0 }
    {
        let event = Event { phaser, phase };
        if self.reached(event) {
            return self.called(WAIT_PASSED, 0);
        }
        let next = self.with_state(task, State::Blocked(event));
        next.called(NOW_BLOCKED, 0)
    }

    #[tactic(auto, using(crate::proofs::Ruled::call_laws), unfolding(crate::specs::Calls::wait_of))]
    pub fn wait(self, task: TaskNo, phaser: PhaserNo) -> Called
        ensures { result ≡ wait_of self task.0 phaser.0 }
    {
        let seen = self.seen(task, phaser);
        if let Err(refusal) = member_refusal(seen) {
            return self.refused(refusal);
        }
        let phase = seen.phase;
        self.waits(task, phaser, phase)
    }

    #[tactic(auto, using(crate::proofs::Ruled::call_laws), unfolding(crate::specs::Calls::wait_at_of))]
    pub fn wait_at(self, task: TaskNo, phaser: PhaserNo, stated: u64) -> Called
        ensures { result ≡ wait_at_of self task.0 phaser.0 stated }
    {
        if let Err(refusal) = wait_at_refusal(self.seen(task, phaser), stated) {
            return self.refused(refusal);
        }
        self.waits(task, phaser, Phase(stated as u32))
    }

    #[tactic(auto, using(crate::proofs::Ruled::call_laws), unfolding(crate::specs::Calls::release_of))]
    pub fn release(self, task: TaskNo) -> Called
        ensures { result ≡ release_of self task.0 }
    {
        if let Err(refusal) = self.release_refusal(task) {
            return self.refused(refusal);
        }
        let awake = self.with_state(task, State::Running);
        awake.called(DONE, 0)
    }

    // "any other kind is 42, tested before all else"
    #[tactic(auto, using(crate::proofs::ByEffect::no_kind_refused), unfolding(crate::specs::Calls::call_of))]
    pub fn call(self, call: Call) -> Called
        ensures { result ≡ call_of self call }
    {
        let kind = match Kind::try_from(call.kind) {
            Ok(kind) => kind,
            Err(refusal) => return self.refused(refusal),
        };
        let task = TaskNo(call.task);
        let phaser = PhaserNo(call.phaser);
        match kind {
            Kind::OpenTask => self.open_task(),
            Kind::EndTask => self.end_task(task),
            Kind::OpenPhaser => self.open_phaser(task),
            Kind::ClosePhaser => self.close_phaser(phaser),
            Kind::Admit => self.admit(task, phaser, TaskNo(call.other)),
            Kind::Leave => self.leave(task, phaser),
            Kind::Arrive => self.arrive(task, phaser),
            Kind::Wait => self.wait(task, phaser),
            Kind::WaitAt => self.wait_at(task, phaser, call.other),
            Kind::Release => self.release(task),
        }
    }
}
