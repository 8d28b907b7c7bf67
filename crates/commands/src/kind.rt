// The command types.
ghost use Rattle.commands.specs.Kinds.{Decodes};

use answers::refusal::Refusal;

// A command type that is listed, with its number.
#[derive(Clone, Copy, PartialEq, Eq, Debug)]
pub(crate) enum Kind {
    Heartbeat = 0,
    Queue = 1,
    Suggest = 2,
    Remove = 3,
    State = 10,
    Seek = 11,
    Rate = 12,
    Next = 13,
    Previous = 14,
    Text = 20,
    PolicyEpochUpdate = 30,
    CatalogUpdate = 31,
}

impl TryFrom<u64> for Kind {
    type Error = Refusal;

    ghost try_from_gives = { Decodes };

    fn try_from(number: u64) -> Result<Kind, Refusal> {
        match number {
            0 => Ok(Kind::Heartbeat),
            1 => Ok(Kind::Queue),
            2 => Ok(Kind::Suggest),
            3 => Ok(Kind::Remove),
            10 => Ok(Kind::State),
            11 => Ok(Kind::Seek),
            12 => Ok(Kind::Rate),
            13 => Ok(Kind::Next),
            14 => Ok(Kind::Previous),
            20 => Ok(Kind::Text),
            30 => Ok(Kind::PolicyEpochUpdate),
            31 => Ok(Kind::CatalogUpdate),
            _ => Err(Refusal::UnknownCommand),
        }
    }
}
