// What stands before the first task (document 01, "Fields"), laid into a buffer: version, open phasers, how many tasks.
ghost use Rattle.std.specs.Prelude.{◌≤◌};
ghost use Rattle.fields.specs.Number.{number_bytes};
ghost use Rattle.writer.specs.Parts.{Laid, flagged, if_there, head_bytes};

use crate::counts::count_of;
use crate::number::put;

fn put_open(buffer: &mut [u8], at: usize, opened: bool, phaser: u64) -> usize
    requires { at ≤ 60000 }
    ensures { Laid buffer.old at (if_there opened (number_bytes phaser)) buffer.new result }
{
    if opened { put(buffer, at, phaser) } else { at }
}

pub(crate) fn put_head(buffer: &mut [u8], opened: [bool; 16], tasks: u64) -> usize
    ensures { Laid buffer.old 0 (head_bytes (flagged opened) tasks) buffer.new result }
{
    let phasers = put(buffer, 0, 1);
    let mut at = put(buffer, phasers, count_of(&opened));
    for p in 0..16 {
        at = put_open(buffer, at, opened[p], p as u64);
    }
    put(buffer, at, tasks)
}
