// The reader of a hall sheet. There is one table, the lent one: a second one would cost a copy of 3 kB, which is more than a small sheet takes to read.
ghost use Rattle.std.specs.Prelude.{◌≡◌, ◌<◌, IfOk};
ghost use Rattle.answers.specs.Answers.{answer_of};
ghost use Rattle.fields.specs.Got.{each};
ghost use Rattle.hall.specs.Parts.{BlockedSet};
ghost use Rattle.sheet.specs.Parts.{laid, unless_refused};
ghost use Rattle.sheet.specs.Reader.{member_step, hands, sheet_at};

use crate::entry::{entry_at, event_at};
use crate::head::head_at;
use answers::Refusal;
use fields::place::ended;
use hall::table::Table;
use states::state::Task;

// So many memberships of a task, laid into the table, and the next place.
#[tactic(auto, using(crate::proofs::Bounds::bounds))]
fn lay_members(
    sheet: &[u8],
    opened: &[bool; 16],
    task: usize,
    count: u64,
    first: usize,
    table: &mut Table,
) -> Result<usize, Refusal>
    requires { task < 32 }
    ensures read { laid table.new result ≡ each (member_step sheet.now opened.now task) count table.old first }
    ensures tasks { table.new.tasks ≡ table.old.tasks }
{
    let mut floor = 0;
    let mut at = first;
    for _ in 0..count {
        let (joined, next) = event_at(sheet, opened, floor, at)?;
        let phaser = joined.phaser.0;
        let i = task * 16 + phaser as usize;
        table.phases[i] = joined.phase;
        table.members[i] = true;
        floor = phaser + 1;
        at = next;
    }
    Ok(at)
}

// The sheet, laid into the table, and who is blocked; at a refusal the table is left as far as it was laid.
#[tactic(auto, using(crate::proofs::Bounds::bounds))]
fn lay(sheet: &[u8], table: &mut Table) -> Result<u32, Refusal>
    ensures read { hands (answer_of result) (unless_refused result table.new) ≡ sheet_at sheet.now }
    ensures blocked { IfOk result (λ blocked. BlockedSet table.new blocked) }
{
    let (head, first) = head_at(sheet)?;
    *table = Table::fresh();
    table.opened = head.opened;
    let mut blocked = 0;
    let mut floor = 0;
    let mut at = first;
    for _ in 0..head.count {
        let (entry, next) = entry_at(sheet, &head.opened, floor, at)?;
        let k = entry.number.0 as usize;
        blocked = sets::marked(blocked, k, entry.state.is_blocked());
        table.tasks[k] = Task { state: entry.state };
        at = lay_members(sheet, &head.opened, k, entry.count, next, table)?;
        floor = entry.number.0 + 1;
    }
    ended(sheet, at)?;
    Ok(blocked)
}

// The table of a sheet, and its blocked tasks; or the refusal, a fresh table, and nobody.
#[tactic(auto, using(crate::proofs::Marks::nobody_fresh))]
pub fn read_with_blocked(sheet: &[u8], table: &mut Table, blocked: &mut u32) -> Result<(), Refusal>
    ensures read { hands (answer_of result) table.new ≡ sheet_at sheet.now }
    ensures blocked { BlockedSet table.new blocked.new }
{
    match lay(sheet, table) {
        Ok(waiting) => {
            *blocked = waiting;
            Ok(())
        }
        Err(refusal) => {
            *blocked = 0;
            *table = Table::fresh();
            Err(refusal)
        }
    }
}

// The table of a sheet; or the refusal, and a fresh table.
pub fn read(sheet: &[u8], table: &mut Table) -> Result<(), Refusal>
    ensures { hands (answer_of result) table.new ≡ sheet_at sheet.now }
{
    let mut blocked = 0;
    read_with_blocked(sheet, table, &mut blocked)
}
