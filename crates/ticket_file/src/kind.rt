ghost use Rattle.std.specs.Prelude.{◌≡◌};
ghost use Rattle.ticket_file.specs.Readings.{Names};

use crate::refusal::FileRefusal;

/// What a record is.
#[derive(Clone, Copy)]
pub(crate) enum Kind {
    Ticket,
    Ceiling,
    Ban,
}

/// A record begins with the letter of its kind.
impl TryFrom<u8> for Kind {
    type Error = FileRefusal;

    ghost try_from_gives = { Names };

    fn try_from(letter: u8) -> Result<Kind, FileRefusal> {
        match letter {
            b'T' => Ok(Kind::Ticket),
            b'C' => Ok(Kind::Ceiling),
            b'B' => Ok(Kind::Ban),
            _ => Err(FileRefusal::UnknownKind),
        }
    }
}
