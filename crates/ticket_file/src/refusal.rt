ghost use Rattle.std.specs.Prelude.{◌≡◌};
ghost use Rattle.ticket_file.specs.Faults.{form, fault, no_judge};

/// What is wrong with a file's form.
#[derive(Clone, Copy, Debug, PartialEq)]
pub enum FileRefusal {
    /// More than 32,768 bytes.
    TooLong = 1,
    /// Fewer than five bytes, or other letters than RPQ.
    NotATicketFile = 2,
    /// Another version than 1.
    OtherVersion = 3,
    /// A record that passes the end.
    PastEnd = 4,
    /// A record that is neither a ticket, nor a ceiling, nor a ban.
    UnknownKind = 5,
    /// A body longer or shorter than its kind has.
    BodyLength = 6,
    /// A record out of its order, or no ceiling.
    OutOfOrder = 7,
}

impl FileRefusal {
    // Not one method of a trait for all layers: each answers by its own layer's definition.

    /// The number by which the refusal is known outside.
    pub fn number(self) -> u8
        ensures { result ≡ (fault no_judge (form self)).number }
    {
        self as u8
    }

    /// The refusal at this place.
    pub(crate) fn at(self, place: usize) -> FileFault
        ensures { result ≡ record { refusal = self; place = place } }
    {
        FileFault {
            refusal: self,
            place,
        }
    }
}

/// A refusal and its place: the first byte of what is wrong.
#[derive(Clone, Copy, Debug, PartialEq)]
pub struct FileFault {
    pub refusal: FileRefusal,
    pub place: usize,
}
