#![tactic(auto)]

// Calls with odd numbers in each place: a line for each, `kind task phaser other answer value`.
use hall::calls::{Call, Called};
use hall::table::Table;
use states::state::{PhaserNo, TaskNo};
use std::io;

// Numbers at and past the edges of tasks, phasers, phases, and of narrower widths than theirs.
const ODD: [u64; 15] = [
    0,
    1,
    15,
    16,
    31,
    32,
    255,
    256,
    65_535,
    65_536,
    4_294_967_295,
    4_294_967_296,
    4_294_967_299,
    9_223_372_036_854_775_808,
    18_446_744_073_709_551_615,
];

// `(kind, task, phaser, other)`: numbers that each kind accepts, and kind 10, which there is not.
const ACCEPTED: [(u64, u64, u64, u64); 11] = [
    (0, 0, 0, 0),
    (1, 0, 0, 0),
    (2, 0, 0, 0),
    (3, 0, 15, 0),
    (4, 0, 0, 31),
    (5, 0, 0, 0),
    (6, 0, 0, 0),
    (7, 0, 2, 0),
    (8, 0, 0, 1),
    (9, 1, 0, 0),
    (10, 0, 0, 0),
];

// All 32 tasks run, and task 0 is a member of all 16 phasers.
fn opened() -> Table {
    let mut table = Table::fresh();
    for _ in 0..32u8 {
        table = table.open_task().table;
    }
    for _ in 0..16u8 {
        table = table.open_phaser(TaskNo(0)).table;
    }
    table
}

// Where each call is made from. Task 0 runs, a member of 0, 2 to 6 and 8 to 14; task 1 is blocked and its wait is met; task 15 is
// blocked and impeded; task 16 is free; the others run. Phaser 7 is not open, 1 is awaited, 15 is neither awaited nor joined.
fn fixed() -> Table {
    let table = opened();
    let table = table.end_task(TaskNo(16)).table;
    let table = table.leave(TaskNo(0), PhaserNo(7)).table;
    let table = table.close_phaser(PhaserNo(7)).table;
    let table = table.admit(TaskNo(0), PhaserNo(0), TaskNo(2)).table;
    let table = table.arrive(TaskNo(0), PhaserNo(0)).table;
    let table = table.wait_at(TaskNo(1), PhaserNo(1), 1).table;
    let table = table.leave(TaskNo(0), PhaserNo(1)).table;
    let table = table.wait_at(TaskNo(15), PhaserNo(0), 1).table;
    table.leave(TaskNo(0), PhaserNo(15)).table
}

fn line(rt: &HostRuntime, table: Table, call: Call) -> io::Result<()> {
    let Call {
        kind,
        task,
        phaser,
        other,
    } = call;
    let Called { answer, value, .. } = table.call(call);
    println!(rt; "{kind} {task} {phaser} {other} {answer} {value}")
}

// A line for the call with each odd number.
fn lines<F: Fn(u64) -> Call>(rt: &HostRuntime, table: Table, with: F) -> io::Result<()>
    requires { F.IsAlwaysCallable with }
{
    for odd in ODD {
        line(rt, table, with(odd))?;
    }
    Ok(())
}

// Each kind with odd numbers in each other place, then odd kinds.
fn main(rt: HostRuntime) -> io::Result<()> {
    let table = fixed();
    for (kind, task, phaser, other) in ACCEPTED {
        let call = Call {
            kind,
            task,
            phaser,
            other,
        };
        lines(&rt, table, |odd| Call { task: odd, ..call })?;
        lines(
            &rt,
            table,
            |odd| Call {
                phaser: odd,
                ..call
            },
        )?;
        lines(&rt, table, |odd| Call { other: odd, ..call })?;
    }
    lines(
        &rt,
        table,
        |odd| Call {
            kind: odd,
            task: 0,
            phaser: 0,
            other: 31,
        },
    )
}
