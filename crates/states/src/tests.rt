// Document 01, 'The ten calls': tests in the order of their rows, over what a row sees of the table. Each function answers the first refusal, if some
// test fails.
ghost use Rattle.std.specs.Prelude.{◌≡◌};
ghost use Rattle.answers.specs.Answers.{answer_of};
ghost use Rattle.states.specs.Tests.{refusal_of, caller_tests, member_tests, admit_tests, arrive_tests, wait_at_tests};

use crate::state::{LARGEST_PHASE, Phase, State};
use answers::Refusal;

// What a row sees: whether the table is sound, the state of a task, whether a phaser is open, and the entry of the two.
#[derive(Clone, Copy, Debug, PartialEq, Eq)]
pub struct Seen {
    pub sound: bool,
    pub state: State,
    pub opened: bool,
    pub member: bool,
    pub phase: Phase,
}

// The beginning of most rows: a sound table, a running task.
#[tactic(auto, unfolding(crate::specs::Tests::refusal_of, crate::specs::Tests::caller_tests))]
pub fn caller_refusal(sound: bool, state: State) -> Result<(), Refusal>
    ensures { answer_of result ≡ refusal_of (caller_tests sound state) }
{
    if !sound {
        return Err(Refusal::NotSound);
    }
    if !state.is_live() {
        return Err(Refusal::NoTask);
    }
    if !state.is_running() {
        return Err(Refusal::CallerBlocked);
    }
    Ok(())
}

#[tactic(auto, using(crate::proofs::Refusals::member_first))]
pub fn member_refusal(seen: Seen) -> Result<(), Refusal>
    ensures { answer_of result ≡ refusal_of (member_tests seen) }
{
    caller_refusal(seen.sound, seen.state)?;
    if !seen.opened {
        return Err(Refusal::NoPhaser);
    }
    if !seen.member {
        return Err(Refusal::NotMember);
    }
    Ok(())
}

#[tactic(auto, using(crate::proofs::Refusals::admit_first))]
pub fn admit_refusal(seen: Seen, target: State, joined: bool) -> Result<(), Refusal>
    ensures { answer_of result ≡ refusal_of (admit_tests seen target joined) }
{
    member_refusal(seen)?;
    if !target.is_live() {
        return Err(Refusal::NoTask);
    }
    if target.is_blocked() {
        return Err(Refusal::TargetBlocked);
    }
    if joined {
        return Err(Refusal::AlreadyMember);
    }
    Ok(())
}

#[tactic(auto, using(crate::proofs::Refusals::arrive_first))]
pub fn arrive_refusal(seen: Seen) -> Result<(), Refusal>
    ensures { answer_of result ≡ refusal_of (arrive_tests seen) }
{
    member_refusal(seen)?;
    if seen.phase.0 >= LARGEST_PHASE {
        return Err(Refusal::PhaseTooLarge);
    }
    Ok(())
}

#[tactic(auto, using(crate::proofs::Refusals::wait_at_first))]
pub fn wait_at_refusal(seen: Seen, stated: u64) -> Result<(), Refusal>
    ensures { answer_of result ≡ refusal_of (wait_at_tests seen stated) }
{
    let Seen {
        sound,
        state,
        opened,
        ..
    } = seen;
    caller_refusal(sound, state)?;
    if !opened {
        return Err(Refusal::NoPhaser);
    }
    if stated > u64::from(LARGEST_PHASE) {
        return Err(Refusal::PhaseTooLarge);
    }
    Ok(())
}
