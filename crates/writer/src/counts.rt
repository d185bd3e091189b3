// How many entries a list has: document 01 puts that before each list.
ghost use Rattle.std.specs.Prelude.{◌≡◌, length};
ghost use Rattle.sheet.specs.Written.{count};
ghost use Rattle.writer.specs.Parts.{flagged, live_in};

use states::state::Task;

// How many of sixteen: open phasers, or memberships of one task.
pub(crate) fn count_of(flags: &[bool]) -> u64
    requires { length flags.now ≡ 16 }
    ensures { result ≡ count (flagged flags.now) 16 }
{
    let mut count = 0;
    for there in flags {
        if *there {
            count += 1;
        }
    }
    count
}

// How many live tasks.
pub(crate) fn live_count(tasks: &[Task]) -> u64
    requires { length tasks.now ≡ 32 }
    ensures { result ≡ count (live_in tasks.now) 32 }
{
    let mut count = 0;
    for task in tasks {
        if task.state.is_live() {
            count += 1;
        }
    }
    count
}
