ghost use Rattle.std.specs.Prelude.{◌≡◌, Some};
ghost use Rattle.ticket_file.specs.Faults.{fault as meaning};
ghost use Rattle.day.specs.Judging.{posting, reason};
ghost use Rattle.day.specs.Texts.{layer as word, fault_text};
ghost use Rattle.day.specs.declared.fault.Refusal.TheVariants.{File, Ticket};

use std::fmt;
use ticket_file::{FileFault, FileRefusal};
use tickets::TicketRefusal;

/// Why a file is refused, by the layer that refuses it.
#[derive(Clone, Copy, Debug, PartialEq)]
pub enum Refusal {
    /// The file's form is wrong.
    File(FileRefusal),
    /// A ticket or the ceiling is refused.
    Ticket(TicketRefusal),
}

// Not one type with `FileFault`, over any refusal: only the crate of a type can give it `Display` and `From`.

/// A refusal and its place in the file.
#[derive(Clone, Copy, Debug, PartialEq)]
pub struct Fault {
    pub refusal: Refusal,
    pub place: usize,
}

impl From<FileRefusal> for Refusal {
    ghost from_gives = { λ f r. r ≡ File f };

    fn from(form: FileRefusal) -> Refusal {
        Refusal::File(form)
    }
}

impl From<TicketRefusal> for Refusal {
    ghost from_gives = { λ e r. r ≡ Ticket e };

    fn from(contents: TicketRefusal) -> Refusal {
        Refusal::Ticket(contents)
    }
}

impl From<FileFault> for Fault {
    ghost from_gives = { λ f g. g ≡ record { refusal = File f.refusal; place = f.place } };

    fn from(fault: FileFault) -> Fault {
        Fault {
            refusal: fault.refusal.into(),
            place: fault.place,
        }
    }
}

impl fmt::Display for Fault {
    ghost output = { λ f. Some (fault_text (reason f.refusal) f.place) };

    fn fmt<W: fmt::Write>(&self, f: &mut fmt::Formatter<W>) -> fmt::Result {
        let layer = self.refusal.layer();
        let number = self.refusal.number();
        write!(f, "fault {layer} {number} {}", self.place)
    }
}

impl Refusal {
    /// The number by which the refusal is known outside.
    pub fn number(self) -> u8
        ensures { result ≡ (meaning posting (reason self)).number }
    {
        match self {
            Refusal::File(refusal) => refusal.number(),
            Refusal::Ticket(refusal) => refusal.number(),
        }
    }

    /// The name of the layer that refuses.
    pub fn layer(self) -> &'static str
        ensures { result.now ≡ word (reason self) }
    {
        match self {
            Refusal::File(_) => "file",
            Refusal::Ticket(_) => "ticket",
        }
    }
}
