// What a part of the reader hands on where a number was refused.
ghost use Rattle.std.specs.Prelude.{◌≡◌};
ghost use Rattle.fields.specs.Number.{outcome};
ghost use Rattle.answers.specs.Answers.{number_of};
ghost use Rattle.fields.specs.Got.{refused};
ghost use Rattle.sheet.specs.Parts.{IsRefused};

use answers::Refusal;
use fields::number::Number;

// Why there is no value: asked only of a number that `let else` found refused.
pub(crate) fn refusal_of(number: Number) -> Refusal
    requires { IsRefused number }
    ensures { outcome number ≡ refused (number_of result) }
{
    match number {
        Number::Value(_, _) => unreachable!(),
        Number::Refused(refusal) => refusal,
    }
}
