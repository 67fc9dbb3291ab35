ghost use Rattle.std.specs.Prelude.{◌≡◌, Some};
ghost use Rattle.planned.specs.Texts.{number as number_of, layer as word, fault_text};
ghost use Rattle.planned.specs.declared.fault.Refusal.TheVariants.{File};

use std::fmt;
use ticket_file::{FileFault, FileRefusal};
use tickets::{PlannerRefusal, TicketRefusal};

// Not day's types with a case more: day's contract speaks of its two layers.

/// Why a file is refused, by the layer that refuses it.
#[derive(Clone, Copy, Debug, PartialEq)]
pub enum Refusal {
    /// The file's form is wrong.
    File(FileRefusal),
    /// A ticket or the ceiling is refused.
    Ticket(TicketRefusal),
    /// A ban is refused, or there is no self-supporting table.
    Planner(PlannerRefusal),
}

/// A refusal and its place in the file.
#[derive(Clone, Copy, Debug, PartialEq)]
pub struct Fault {
    pub refusal: Refusal,
    pub place: usize,
}

impl From<FileFault> for Fault {
    ghost from_gives = { λ f g. g ≡ record { refusal = File f.refusal; place = f.place } };

    fn from(fault: FileFault) -> Fault {
        Fault {
            refusal: Refusal::File(fault.refusal),
            place: fault.place,
        }
    }
}

impl fmt::Display for Fault {
    ghost output = { λ f. Some (fault_text f) };

    fn fmt<W: fmt::Write>(&self, f: &mut fmt::Formatter<W>) -> fmt::Result {
        let layer = self.refusal.layer();
        let number = self.refusal.number();
        write!(f, "fault {layer} {number} {}", self.place)
    }
}

impl Refusal {
    /// The number by which the refusal is known outside.
    pub fn number(self) -> u8
        ensures { result ≡ number_of self }
    {
        match self {
            Refusal::File(refusal) => refusal.number(),
            Refusal::Ticket(refusal) => refusal.number(),
            Refusal::Planner(refusal) => refusal.number(),
        }
    }

    /// The name of the layer that refuses.
    pub fn layer(self) -> &'static str
        ensures { result.now ≡ word self }
    {
        match self {
            Refusal::File(_) => "file",
            Refusal::Ticket(_) => "ticket",
            Refusal::Planner(_) => "planner",
        }
    }
}
