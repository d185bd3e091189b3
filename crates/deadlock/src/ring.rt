ghost use Rattle.std.specs.Prelude.{◌≡◌, ◌≤◌, min};
ghost use Rattle.sets.specs.Set.{Has};
ghost use Rattle.deadlock.specs.Ring.{Next, RingIn};
ghost use Rattle.deadlock.specs.Parts.{step_of, go_of, low_of, once_of, Filled};

// A ring: how many tasks it has, and these in 32 places filled up with 255.
#[derive(Clone, Copy)]
pub struct Round {
    pub length: u32,
    pub tasks: [u8; 32],
}

// A walk over the named tasks: from task t it steps to next[t]. A number there that is no named task's is "no named task to step to".
#[derive(Clone, Copy)]
struct NamedWalk {
    next: [u8; 32],
    named: u32,
}

// The ring of the walk from the lowest named task; none where the walk stops. The ring takes as many steps as there are named tasks, which is the
// customer's own bound: by then the walk is in the part that repeats, or has stopped.
pub fn ring(next: [u8; 32], named: u32) -> Option<Round>
    ensures { RingIn (Has named) (Next next) result }
{
    if named == 0 {
        return Some(Round {
            length: 0,
            tasks: [255u8; 32],
        });
    }
    let walk = NamedWalk { next, named };
    let steps = sets::size(named);
    let late = walk.far(sets::lowest(named), steps);
    if late < 32 {
        Some(walk.once(walk.lowest_on(late, steps)))
    } else {
        None
    }
}

impl NamedWalk {
    // The task to step to, or 32.
    fn after(self, task: usize) -> usize
        ensures { result ≡ step_of self.next self.named task }
    {
        if task < 32 {
            let to = usize::from(self.next[task]);
            if sets::has(self.named, to) { to } else { 32 }
        } else {
            32
        }
    }

    // So many steps on, or 32 where the walk has stopped.
    fn far(self, from: usize, steps: u32) -> usize
        ensures { result ≡ go_of self.next self.named from steps }
    {
        let mut task = from;
        for step in 0..steps {
            task = self.after(task);
        }
        task
    }

    // The lowest on so many steps more; with as many as there are named tasks, that of the whole part that repeats.
    fn lowest_on(self, from: usize, steps: u32) -> usize
        ensures { result ≡ low_of self.next self.named from from steps }
    {
        let mut task = from;
        let mut low = from;
        for more in 0..steps {
            task = self.after(task);
            low = task.min(low);
        }
        low
    }

    // Once round from `low`, each task into its place.
    fn once(self, low: usize) -> Round
        requires { low ≤ 32 }
        ensures { Filled (once_of self.next self.named low low 32) result }
    {
        let mut tasks = [255u8; 32];
        let mut task = low;
        for i in 0..32usize {
            tasks[i] = task as u8;
            task = self.after(task);
            if task == low {
                return Round {
                    length: i as u32 + 1,
                    tasks,
                };
            }
        }
        Round { length: 32, tasks }
    }
}
