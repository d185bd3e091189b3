#![tactic(auto)]

ghost use Rattle.std.specs.Prelude.{◌≡◌, true, false, ◌↔◌, ◌⊎◌, ℕ, ◌<◌};
ghost use Rattle.std.specs.Iterator.{at_most};
ghost use Rattle.sets.specs.Set.{Has, size, LowestOf};
ghost use Rattle.sets.specs.Rising.{Next};
ghost use Rattle.sets.specs.Tested.{First, Those};

// Whether the task is in the set.
pub fn has(set: u32, task: usize) -> bool
    ensures { (result ≡ true) ↔ Has set task }
{
    if task < 32 {
        (set >> task) % 2 == 1
    } else {
        false
    }
}

// The set of one task; of none, where the number is no task's.
pub fn only(task: usize) -> u32
    ensures { (k : ℕ) → Has result k ↔ ((k < 32) × (k ≡ task)) }
{
    if task < 32 { 1u32 << task } else { 0 }
}

// Those in both sets.
pub fn common(a: u32, b: u32) -> u32
    ensures { (k : ℕ) → Has result k ↔ (Has a k × Has b k) }
{
    a & b
}

// Those in either set.
pub fn either(a: u32, b: u32) -> u32
    ensures { (k : ℕ) → Has result k ↔ (Has a k ⊎ Has b k) }
{
    a | b
}

// Those of the first set that are not in the second.
pub fn less(a: u32, b: u32) -> u32
    ensures { (k : ℕ) → Has result k ↔ (Has a k × (Has b k → ⊥)) }
{
    a - (a & b)
}

// The set with the task taken out of it.
pub fn take(set: u32, task: usize) -> u32
    ensures { (k : ℕ) → Has result k ↔ (Has set k × (k ≡ task → ⊥)) }
{
    less(set, only(task))
}

// The set without the task, unless it stays.
pub fn kept(set: u32, task: usize, stays: bool) -> u32
    ensures { (k : ℕ) → Has result k ↔ (Has set k × (k ≡ task → stays ≡ true)) }
{
    if stays { set } else { take(set, task) }
}

// The set with the task in it, or without it, as told.
pub fn marked(set: u32, task: usize, inside: bool) -> u32
    ensures { (k : ℕ) → Has result k ↔ (((k < 32) × (k ≡ task) × (inside ≡ true)) ⊎ (Has set k × (k ≡ task → ⊥))) }
{
    if inside {
        either(take(set, task), only(task))
    } else {
        take(set, task)
    }
}

// How many tasks the set has.
pub fn size(set: u32) -> u32
    ensures { result ≡ size set 32 }
{
    u32::count_ones(set)
}

// The lowest task of the set, or 32.
pub fn lowest(set: u32) -> usize
    ensures { LowestOf set result }
{
    u32::trailing_zeros(set) as usize
}

// The set without its lowest task.
pub fn rest(set: u32) -> u32
    ensures { (t : ℕ) → LowestOf set t → (k : ℕ) → Has result k ↔ (Has set k × (k ≡ t → ⊥)) }
{
    take(set, lowest(set))
}

// The tasks of a set, lowest first.
#[derive(Clone, Copy)]
pub struct Rising {
    left: u32,
}

pub fn each(set: u32) -> Rising
    ensures { result.left ≡ set }
{
    Rising { left: set }
}

impl Iterator for Rising {
    type Item = usize;

    ghost next_gives = { λ s r t. Next s.left r t.left };

    ghost remaining = { λ s. at_most s.left };

    fn next(&mut self) -> Option<usize> {
        let left = self.left;
        if left == 0 {
            return None;
        }
        self.left = rest(left);
        Some(lowest(left))
    }
}

// Those of the set for whom the test holds.
pub fn those<F: Fn(usize) -> bool>(set: u32, test: F) -> u32
    requires { (k : ℕ) → k < 32 → Has set k → F.pre test k }
    ensures { Those (Has set) (F.post test) (Has result) }
{
    let mut found = set;
    for task in each(set) {
        found = kept(found, task, test(task));
    }
    found
}

// The lowest of the set for whom the test holds.
pub fn first<F: Fn(usize) -> bool>(set: u32, test: F) -> Option<usize>
    requires { (k : ℕ) → k < 32 → Has set k → F.pre test k }
    ensures { First (Has set) (F.post test) result }
{
    for task in each(set) {
        if test(task) {
            return Some(task);
        }
    }
    None
}
