// Drawn tables: few tasks live, but for one table in 16. Every eighth gets a fault, and the others are sound.
use crate::draws::Draws;
use crate::fault::FAULTS;
use crate::lines::table_lines;
use crate::tables::{RUNNING, Steps, blocked};
use hall::table::Table;
use states::state::Task;
use std::{array, io};

// Each phaser open by a share of 256, but for one.
fn opened(draws: &mut Draws, share: u64, shut: usize) -> [bool; 16] {
    array::from_fn(|phaser| draws.chance(share) && phaser != shut)
}

// Blocked at a phaser if that is open, and running by one draw in three.
fn task(draws: &mut Draws, opened: &[bool; 16]) -> Task {
    let awaited = draws.below(16);
    let phase = draws.phase();
    let runs = draws.below(3) == 0;
    if runs || !opened[awaited as usize] {
        RUNNING
    } else {
        blocked(awaited, phase)
    }
}

// Live tasks by one share, all but one; members by another.
fn with_tasks(draws: &mut Draws, from: Table, live: u64, joined: u64, absent: usize) -> Table {
    let mut table = from;
    for k in 0..32usize {
        if draws.chance(live) && k != absent {
            table.tasks[k] = task(draws, &table.opened);
            for p in 0..16usize {
                if draws.chance(joined) && table.opened[p] {
                    table = table.joins(k, p, draws.phase());
                }
            }
        }
    }
    table
}

// Leaves out a task and a phaser.
fn sound(draws: &mut Draws, absent: usize, shut: usize) -> Table {
    let share = draws.below(256);
    let joined = draws.below(256);
    let live = if draws.below(16) == 0 {
        draws.below(256)
    } else {
        draws.below(40)
    };
    let table = Table {
        opened: opened(draws, share, shut),
        ..Table::fresh()
    };
    with_tasks(draws, table, live, joined, absent)
}

fn drawn(draws: &mut Draws, number: u64) -> Table {
    let absent = draws.below(32) as usize;
    let shut = draws.below(16) as usize;
    let table = sound(draws, absent, shut);
    if number % 8 == 0 {
        FAULTS[(number / 8 % 9) as usize].laid(table, absent, shut)
    } else {
        table
    }
}

pub(crate) fn lines(rt: &HostRuntime) -> io::Result<()> {
    let mut draws = Draws::new();
    for number in 14..214 {
        table_lines(rt, number, drawn(&mut draws, number))?;
    }
    Ok(())
}
