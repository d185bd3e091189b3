#![tactic(auto)]

// Document 01, 'Answer numbers', in its order. From 10 up they are refusals.
ghost use Rattle.std.specs.Prelude.{◌≡◌};
ghost use Rattle.answers.specs.Answers.{number_of};

// done / wait passed / now blocked
pub const DONE: u32 = 0;

pub const WAIT_PASSED: u32 = 1;

pub const NOW_BLOCKED: u32 = 2;

// Why a call, a sheet or a buffer is refused.
#[derive(Clone, Copy, Debug, PartialEq, Eq)]
pub enum Refusal {
    // no such live task / no such open phaser
    NoTask = 10,
    NoPhaser = 11,
    // caller is blocked / target is blocked
    CallerBlocked = 12,
    TargetBlocked = 20,
    // caller not a member / target already one
    NotMember = 13,
    AlreadyMember = 14,
    // phase would exceed, or exceeds, 65,535
    PhaseTooLarge = 15,
    // no free number of that sort
    NoneFree = 16,
    // task to release is not blocked
    NotBlocked = 17,
    // some member has not reached the awaited phase
    NotReached = 18,
    // phaser has a member, or a task is blocked on it
    InUse = 19,
    // the ring walk finds no named task to step to
    NoStep = 22,
    // sheet ends inside a number, or before one
    EndsInside = 30,
    // number with a needless last group
    NeedlessGroup = 31,
    // number too large
    TooLarge = 32,
    // list not rising (a repeat doesn't rise)
    NotRising = 33,
    // version not 1, or task state not 0 or 1
    Unknown = 34,
    // bytes after the sheet
    BytesAfter = 35,
    // sheet speaks of a phaser that isn't open
    NotOpen = 36,
    // answer strip under 38 bytes / route over 2 (document 02, M-101)
    ShortStrip = 40,
    NoRoute = 41,
    // no such kind of call / table not sound
    NoKind = 42,
    NotSound = 44,
    // document 02, M-100: buffer shorter than the sheet
    ShortBuffer = 43,
}

impl Refusal {
    // The refusal's number, as the answer of a call, a verdict or an entry for C++ has it.
    pub fn number(self) -> u32
        ensures { result ≡ number_of self }
    {
        self as u32
    }
}
