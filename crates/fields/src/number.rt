// A number of the hall sheet: groups of seven bits, low group first.
ghost use Rattle.std.specs.Prelude.{◌≡◌, ◌≤◌, ◌<◌, length};
ghost use Rattle.fields.specs.Figures.{further};
ghost use Rattle.fields.specs.Number.{outcome, carried, groups_at, plain_at, number_at, rising_at};

use crate::figures::FURTHER;
use answers::Refusal;

// A value and the next place, or the refusal.
#[derive(Clone, Copy, Debug, PartialEq, Eq)]
pub enum Number {
    Value(u64, usize),
    Refused(Refusal),
}

// The groups after the first.
fn more(sheet: &[u8], low: u64, at: usize) -> Number
    requires { (low < 128) × (at ≤ length sheet.now) }
    ensures { outcome result ≡ carried low (groups_at further sheet.now at) }
{
    let mut value = low;
    let mut weight: u64 = 128;
    for i in 0..FURTHER {
        let Some(byte) = sheet.get(at + i) else {
            return Number::Refused(Refusal::EndsInside);
        };
        let group = u64::from(*byte);
        if group == 0 {
            return Number::Refused(Refusal::NeedlessGroup);
        }
        if group < 128 {
            return Number::Value(value + group * weight, at + i + 1);
        }
        value += (group - 128) * weight;
        weight *= 128;
    }
    Number::Refused(Refusal::TooLarge)
}

// A number of a field that has no largest value of its own.
#[tactic(auto, unfolding(crate::specs::Number::plain_at))]
pub fn plain(sheet: &[u8], at: usize) -> Number
    ensures { outcome result ≡ plain_at sheet.now at }
{
    let Some(byte) = sheet.get(at) else {
        return Number::Refused(Refusal::EndsInside);
    };
    let group = u64::from(*byte);
    if group < 128 {
        return Number::Value(group, at + 1);
    }
    more(sheet, group - 128, at + 1)
}

// A number of a field with a largest value.
#[tactic(auto, unfolding(crate::specs::Number::number_at))]
pub fn read(sheet: &[u8], largest: u64, at: usize) -> Number
    ensures { outcome result ≡ number_at sheet.now largest at }
{
    let number = plain(sheet, at);
    let Number::Value(value, _) = number else {
        return number;
    };
    if value <= largest {
        return number;
    }
    Number::Refused(Refusal::TooLarge)
}

// A number that rises: `floor` or more, which is one more than the number before it.
#[tactic(auto, unfolding(crate::specs::Number::rising_at))]
pub fn rising(sheet: &[u8], largest: u64, floor: u64, at: usize) -> Number
    ensures { outcome result ≡ rising_at sheet.now largest floor at }
{
    let number = read(sheet, largest, at);
    let Number::Value(value, _) = number else {
        return number;
    };
    if value < floor {
        return Number::Refused(Refusal::NotRising);
    }
    number
}
