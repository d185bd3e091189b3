// Document 01, 'The table': numbers that are told apart, an event, a task's state.
ghost use Rattle.std.specs.Prelude.{◌≡◌};
ghost use Rattle.states.specs.State.{is_free, is_live, is_running, is_blocked};

// "phases 0 to 65,535"
pub const LARGEST_PHASE: u32 = 65_535;

#[derive(Clone, Copy, Debug, PartialEq, Eq)]
pub struct TaskNo(pub u64);

#[derive(Clone, Copy, Debug, PartialEq, Eq)]
pub struct PhaserNo(pub u64);

#[derive(Clone, Copy, Debug, PartialEq, Eq)]
pub struct Phase(pub u32);

#[derive(Clone, Copy, Debug, PartialEq, Eq)]
pub struct Event {
    pub phaser: PhaserNo,
    pub phase: Phase,
}

#[derive(Clone, Copy, Debug, PartialEq, Eq)]
pub enum State {
    Free,
    Running,
    Blocked(Event),
}

#[derive(Clone, Copy, Debug, PartialEq, Eq)]
pub struct Task {
    pub state: State,
}

impl State {
    pub fn is_free(self) -> bool
        ensures { result ≡ is_free self }
    {
        matches!(self, State::Free)
    }

    pub fn is_live(self) -> bool
        ensures { result ≡ is_live self }
    {
        !self.is_free()
    }

    pub fn is_running(self) -> bool
        ensures { result ≡ is_running self }
    {
        matches!(self, State::Running)
    }

    pub fn is_blocked(self) -> bool
        ensures { result ≡ is_blocked self }
    {
        matches!(self, State::Blocked(_))
    }
}
