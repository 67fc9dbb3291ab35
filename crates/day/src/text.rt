ghost use Rattle.std.specs.Prelude.{◌≡◌, ◌++◌, map, IfOk, string_bytes, OnOk};
ghost use Rattle.std.specs.List.{flat_map};
ghost use Rattle.tickets.specs.Collections.{terms_of};
ghost use Rattle.day.specs.Contents.{banned, gathered};
ghost use Rattle.day.specs.Texts.{rows, ban_line, Lists};

use crate::contents::{Ban, Contents};
use pricing::Released;
use std::alloc::{AllocError, Global};
use std::fmt::Write;
use tickets::Ticket;

// Not one function over anything that prints, with the bans: what a ticket prints has its number with it, and a
// function over an iterator's lines says less plainly what is added.

/// Adds the rows of the tickets, numbered from 0.
fn push_rows(text: &mut String, tickets: &[Ticket]) -> Result<(), AllocError>
    ensures { OnOk result (string_bytes text.new ≡ string_bytes text.old ++ rows 0 (map terms_of tickets.now)) }
{
    for (number, ticket) in tickets.iter().enumerate() {
        writeln!(text, "{number} {}-{}", ticket.first, ticket.last)?;
    }
    Ok(())
}

/// Adds the lines of the bans.
fn push_bans(text: &mut String, bans: &[Ban]) -> Result<(), AllocError>
    ensures { OnOk result (string_bytes text.new ≡ string_bytes text.old ++ flat_map ban_line (map banned bans.now)) }
{
    for ban in bans {
        writeln!(text, "{ban}")?;
    }
    Ok(())
}

/// The listing of what was read: the floor of the rows as posted, the ceiling, the rows and the bans.
pub(crate) fn listing(heap: Global, contents: &Contents) -> Result<String, AllocError>
    ensures { IfOk result (λ s. Lists (gathered contents.now) (string_bytes s)) }
{
    let floor = Released::as_posted(&contents.collection).floor();
    let ceiling = contents.collection.ceiling();
    let mut text = format!(in heap; "floor {floor}\nceiling {ceiling}\n")?;
    push_rows(&mut text, contents.collection.tickets())?;
    push_bans(&mut text, &contents.bans)?;
    Ok(text)
}
