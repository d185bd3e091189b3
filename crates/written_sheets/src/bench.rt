// The tables of document 01's 'Bench cases'.
use crate::lines::table_lines;
use crate::tables::{RUNNING, Steps};
use hall::table::Table;
use std::io;

// Task 0 waits at phaser 0 for a phase.
fn one(phase: u32) -> Table {
    Table::fresh().opens(0).waits(0, 0, phase)
}

// And task 1 at phaser 1 for phase 1.
fn two(phase: u32) -> Table {
    one(phase).opens(1).waits(1, 1, 1)
}

fn p2() -> Table {
    one(1).joins(0, 0, 0)
}

fn p3() -> Table {
    one(1).runs(1).joins(0, 0, 1).joins(1, 0, 0)
}

// P4, and with phase 1 P5.
fn p4(phase: u32) -> Table {
    let first = two(1).joins(0, 0, 1).joins(0, 1, phase);
    first.joins(1, 0, 0).joins(1, 1, 1)
}

fn p6() -> Table {
    p4(0).waits(2, 0, 1).joins(2, 0, 1)
}

// Tasks 0 and 1 of P7 and P8.
fn first_of_p7() -> Table {
    let first = two(2).joins(0, 0, 2).joins(0, 1, 0);
    first.joins(1, 0, 2).joins(1, 1, 1)
}

fn p7() -> Table {
    first_of_p7().runs(2).joins(2, 0, 0).joins(2, 1, 0)
}

fn p8() -> Table {
    let third = first_of_p7().opens(2).waits(2, 2, 1).joins(2, 2, 0);
    third.joins(2, 0, 0).joins(2, 1, 0)
}

fn p9() -> Table {
    let first = two(1).runs(2).joins(0, 0, 1).joins(1, 0, 0);
    first.joins(2, 0, 0).joins(1, 1, 0)
}

// P10: task 0 runs, at a phase on phaser 0.
fn p10(phase: u32) -> Table {
    Table::fresh().opens(0).runs(0).joins(0, 0, phase)
}

// P11: no number is free.
fn p11() -> Table {
    Table {
        tasks: [RUNNING; 32],
        ..Table::fresh()
    }
}

pub(crate) fn lines(rt: &HostRuntime) -> io::Result<()> {
    let tables = [
        Table::fresh(),
        p2(),
        p3(),
        p4(0),
        p4(1),
        p6(),
        p7(),
        p8(),
        p9(),
        p10(65_534),
        p10(65_535),
        p11(),
    ];
    for (number, table) in (1..).zip(tables) {
        table_lines(rt, number, table)?;
    }
    Ok(())
}
