ghost use Rattle.std.specs.Prelude.{◌≡◌, ◌↔◌, ◌<◌, true, ℕ, get_or};
ghost use Rattle.sets.specs.Set.{Has};
ghost use Rattle.deadlock.specs.Walk.{Row, NamedBy};

// The tasks from which an endless walk exists along the rows of some tasks: one with no edge into what is left is taken out, and the
// search begins again.
pub fn named(rows: [u32; 32], among: u32) -> u32
    ensures { NamedBy (Row among rows) result }
{
    let mut left = among;
    while let Some(task) = sets::first(
        left,
        |task|
            requires { task < 32 }
            ensures { (result ≡ true) ↔ ((u : ℕ) → Has (get_or rows task 0) u → Has left u → ⊥) }
        { sets::common(rows[task], left) == 0 },
    ) {
        left = sets::take(left, task);
    }
    left
}
