// What stands before the first task (document 01, "Fields"): version, open phasers, how many tasks.
ghost use Rattle.std.specs.Prelude.{◌≡◌};
ghost use Rattle.fields.specs.Got.{got};
ghost use Rattle.sheet.specs.Head.{opens_at, head_at};

use crate::refusal::refusal_of;
use answers::Refusal;
use fields::number;
use fields::number::Number;
use fields::place::Read;

// How many open phasers, and each.
#[tactic(auto, using(crate::proofs::Bounds::bounds), unfolding(crate::specs::Head::opens_at))]
fn opens_at(sheet: &[u8], at: usize) -> Read<[bool; 16]>
    ensures { got result ≡ opens_at sheet.now at }
{
    let number = number::read(sheet, 16, at);
    let Number::Value(count, first) = number else {
        return Err(refusal_of(number));
    };
    let mut opened = [false; 16];
    let mut floor = 0;
    let mut next = first;
    for _ in 0..count {
        let number = number::rising(sheet, 15, floor, next);
        let Number::Value(phaser, after) = number else {
            return Err(refusal_of(number));
        };
        opened[phaser as usize] = true;
        floor = phaser + 1;
        next = after;
    }
    Ok((opened, next))
}

// What stands before the first task.
#[derive(Clone, Copy)]
pub struct Head {
    pub version: u64,
    pub opened: [bool; 16],
    pub count: u64,
}

#[tactic(auto, unfolding(crate::specs::Head::count_at, crate::specs::Head::lists_at, crate::specs::Head::head_at))]
pub(crate) fn head_at(sheet: &[u8]) -> Read<Head>
    ensures { got result ≡ head_at sheet.now }
{
    let number = number::plain(sheet, 0);
    let Number::Value(version, first) = number else {
        return Err(refusal_of(number));
    };
    if version != 1 {
        return Err(Refusal::Unknown);
    }
    let (opened, next) = opens_at(sheet, first)?;
    let number = number::read(sheet, 32, next);
    let Number::Value(count, end) = number else {
        return Err(refusal_of(number));
    };
    let head = Head {
        version,
        opened,
        count,
    };
    Ok((head, end))
}
