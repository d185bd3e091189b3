// A sheet with the longest verdict: all 32 tasks are named, and all 32 are on the ring.
ghost use Rattle.std.specs.Prelude.{◌<◌};

// The entry of task k. On phaser p task 2p has phase 1 and task 2p + 1 phase 0, so task 2p is the lowest that impedes (p, 2), and task 2p + 1 the only one
// that impedes (p, 1): each task is blocked on the event that the task after it impedes first.
fn entry(k: u8) -> [u8; 7]
    requires { k < 32 }
{
    let next = (k + 1) % 32;
    [k, 1, next / 2, 2 - next % 2, 1, k / 2, 1 - k % 2]
}

pub(crate) fn sheet() -> [u8; 243] {
    let mut sheet = [0u8; 243];
    // version 1; 16 open phasers; 32 tasks
    sheet[0] = 1;
    sheet[1] = 16;
    sheet[18] = 32;
    for phaser in 0..16u8 {
        sheet[2 + usize::from(phaser)] = phaser;
    }
    for task in 0..32u8 {
        let at = 19 + usize::from(task) * 7;
        sheet[at..at + 7].copy_from_slice(&entry(task));
    }
    sheet
}
