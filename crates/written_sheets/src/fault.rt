// Why a table is not sound.
ghost use Rattle.std.specs.Prelude.{◌<◌};

use crate::tables::Steps;
use hall::table::Table;

#[derive(Clone, Copy)]
pub(crate) enum Fault {
    // a member of a phaser that is not open, or that is no live task
    MemberOfShut,
    MemberNotLive,
    // a non-member that keeps a phase, free or live
    FreeKeepsPhase,
    LiveKeepsPhase,
    // a phase that is too large, kept or awaited
    KeptTooLarge,
    AwaitedTooLarge,
    // an awaited phaser that is not open, that there is not, and that is an open one in its low 32 bits
    AwaitsShut,
    AwaitsNone,
    AwaitsWide,
}

pub(crate) const FAULTS: [Fault; 9] = [
    Fault::MemberOfShut,
    Fault::MemberNotLive,
    Fault::FreeKeepsPhase,
    Fault::LiveKeepsPhase,
    Fault::KeptTooLarge,
    Fault::AwaitedTooLarge,
    Fault::AwaitsShut,
    Fault::AwaitsNone,
    Fault::AwaitsWide,
];

impl Fault {
    // The table with the fault, at a task that is free and a phaser that is not open.
    pub(crate) fn laid(self, table: Table, task: usize, phaser: usize) -> Table
        requires { (task < 32) × (phaser < 16) }
    {
        let number = phaser as u64;
        match self {
            Fault::MemberOfShut => table.runs(task).joins(task, phaser, 0),
            Fault::MemberNotLive => table.opens(phaser).joins(task, phaser, 0),
            Fault::FreeKeepsPhase => table.keeps(task, phaser, 1),
            Fault::LiveKeepsPhase => table.opens(phaser).runs(task).keeps(task, phaser, 1),
            Fault::KeptTooLarge => table.opens(phaser).runs(task).joins(task, phaser, 65_536),
            Fault::AwaitedTooLarge => table.opens(phaser).waits(task, number, 65_536),
            Fault::AwaitsShut => table.waits(task, number, 1),
            Fault::AwaitsNone => table.opens(phaser).waits(task, 16, 1),
            Fault::AwaitsWide => table.opens(phaser).waits(task, number + 4_294_967_296, 1),
        }
    }
}
