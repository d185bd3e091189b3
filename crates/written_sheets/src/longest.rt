// The table with the longest sheet: every task is blocked at a phase of three groups, and a member of every phaser at another.
use crate::tables::blocked;
use hall::table::Table;
use states::state::Phase;
use std::array;

pub(crate) fn table() -> Table {
    Table {
        tasks: array::from_fn(|k| blocked(k as u64 % 16, 65_535)),
        opened: [true; 16],
        phases: [Phase(40_000); 512],
        members: [true; 512],
    }
}
