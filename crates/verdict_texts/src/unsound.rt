// Tables made by hand, one field apart from a sound one: a line for each, `table`, what the judge answers and what the calls answer.
use hall::calls::Call;
use hall::table::Table;
use judge::judge::{LARGEST_ROUTE, judge};
use states::state::{Event, Phase, PhaserNo, State, Task};
use std::io;

// The judge by each route; then each kind of call, and kind 10, which there is not.
fn line(rt: &HostRuntime, table: Table) -> io::Result<()> {
    print!(rt; "table")?;
    for route in 0..=LARGEST_ROUTE {
        print!(rt; " {}", judge(table, route).answer)?;
    }
    for kind in 0..=10 {
        let call = Call {
            kind,
            task: 0,
            phaser: 0,
            other: 0,
        };
        print!(rt; " {}", table.call(call).answer)?;
    }
    println!(rt; "")
}

// A sound table: task 0 runs, a member of phaser 0 at the largest phase; nothing else is there.
fn sound() -> Table {
    let mut table = Table::fresh();
    table.tasks[0] = Task {
        state: State::Running,
    };
    table.opened[0] = true;
    table.members[0] = true;
    table.phases[0] = Phase(65_535);
    table
}

// The sound table, changed.
fn but<F: FnOnce(&mut Table)>(change: F) -> Table
    requires { F.IsAlwaysCallable change }
{
    let mut table = sound();
    change(&mut table);
    table
}

fn blocked(phaser: u64, phase: u32) -> Task {
    let phaser = PhaserNo(phaser);
    let phase = Phase(phase);
    Task {
        state: State::Blocked(Event { phaser, phase }),
    }
}

pub(crate) fn lines(rt: &HostRuntime) -> io::Result<()> {
    let tables = [
        sound(),
        // "every member is a live task (running or blocked)"
        but(|table| table.tasks[0] = Task { state: State::Free }),
        // "of an open phaser"
        but(|table| table.opened[0] = false),
        // "every awaited phaser is open"
        but(|table| table.tasks[1] = blocked(1, 1)),
        but(|table| table.tasks[1] = blocked(16, 1)),
        // "no phase, kept or awaited, is over 65,535"
        but(|table| table.phases[0] = Phase(65_536)),
        but(|table| table.tasks[1] = blocked(0, 65_536)),
        // "a non-member's kept phase is 0"; entry 1 is task 0's on phaser 1
        but(|table| table.phases[1] = Phase(1)),
    ];
    for table in tables {
        line(rt, table)?;
    }
    Ok(())
}
