// Document 01, 'The ten calls': the kinds of call, by their numbers.
ghost use Rattle.std.specs.Prelude.{◌≡◌};
ghost use Rattle.hall.specs.Calls.{kind_count};
ghost use Rattle.hall.specs.Kind.{KindOf};

use answers::Refusal;

// "Kinds of call run from 0 to 9": so many there are.
pub const KINDS: u64 = 10;

// No other promise names it, so this holds it to its definition.
fn kinds() -> u64
    ensures { result ≡ kind_count }
{
    KINDS
}

#[derive(Clone, Copy, Debug, PartialEq, Eq)]
pub enum Kind {
    OpenTask,
    EndTask,
    OpenPhaser,
    ClosePhaser,
    Admit,
    Leave,
    Arrive,
    Wait,
    WaitAt,
    Release,
}

impl TryFrom<u64> for Kind {
    type Error = Refusal;

    ghost try_from_gives = { KindOf };

    fn try_from(number: u64) -> Result<Self, Refusal> {
        match number {
            0 => Ok(Kind::OpenTask),
            1 => Ok(Kind::EndTask),
            2 => Ok(Kind::OpenPhaser),
            3 => Ok(Kind::ClosePhaser),
            4 => Ok(Kind::Admit),
            5 => Ok(Kind::Leave),
            6 => Ok(Kind::Arrive),
            7 => Ok(Kind::Wait),
            8 => Ok(Kind::WaitAt),
            9 => Ok(Kind::Release),
            _ => Err(Refusal::NoKind),
        }
    }
}
