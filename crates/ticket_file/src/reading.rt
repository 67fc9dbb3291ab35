ghost use Rattle.std.specs.Prelude.{◌≡◌, ℕ, ◌+◌, ◌<◌, ◌≤◌, List, [], ◌∷◌, ◌++◌, length, drop, IfOk, MatchResult, slice_index};
ghost use Rattle.ticket_file.specs.Format.{Rec, header as head, Injective};
ghost use Rattle.ticket_file.specs.Faults.{no_judge, form, Faulty};
ghost use Rattle.ticket_file.specs.Readings.{letter, At, Next, Found, Decoded, Misfits, Read};

use crate::cursor::Cursor;
use crate::kind::Kind;
use crate::record::{Label, Placed, Record};
use crate::refusal::{FileFault, FileRefusal};
use crate::stage::Stage;
use std::alloc::{AllocError, Global};
use tickets::Terms;

/// The longest file, in bytes.
pub const LONGEST_FILE: usize = 32768;

/// The longest label of a ticket, in bytes.
pub const LONGEST_LABEL: usize = 16;

/// What a file has: its records, all of them or those before its fault.
#[derive(Drop)]
pub struct Reading<'a> {
    pub records: Vec<Placed<'a>>,
    pub fault: Option<FileFault>,
}

/// What comes after the header.
fn header(file: &[u8]) -> Result<&[u8], FileFault>
    ensures { MatchResult result (λ rest. (file.now ≡ head ++ rest.now) × (length file.now ≤ 32768)) (λ f. (f.place < 5) × Faulty no_judge file.now (form f.refusal) f.place) }
{
    if file.len() > LONGEST_FILE {
        return Err(FileRefusal::TooLong.at(0));
    }
    match file {
        [b'R', b'P', b'Q', 1, 0, rest @ ..] => Ok(rest),
        [b'R', b'P', b'Q', _, _, ..] => Err(FileRefusal::OtherVersion.at(3)),
        _ => Err(FileRefusal::NotATicketFile.at(0)),
    }
}

/// The letter and the body of the record at the front.
fn cut(rest: &[u8]) -> Result<(u8, &[u8]), FileRefusal>
    ensures { MatchResult result (λ x. rest.now ≡ x.0 ∷ length x.1.now ∷ (x.1.now ++ drop (2 + length x.1.now) rest.now)) (λ e. (e ≡ FileRefusal.PastEnd) × (length rest.now < 2 + slice_index rest.now 1)) }
{
    match rest {
        [letter, length, after @ ..] if usize::from(*length) <= after.len() => {
            Ok((*letter, &after[..usize::from(*length)]))
        }
        _ => Err(FileRefusal::PastEnd),
    }
}

/// The record of this kind and body, which stands at the place.
fn decode(kind: Kind, body: &[u8], place: usize) -> Result<Record<'_>, FileRefusal>
    requires { place ≤ 32768 }
    ensures { MatchResult result (λ x. Decoded (letter kind) body.now place x) (λ e. Misfits (letter kind) (length body.now) e) }
{
    match (kind, body) {
        (Kind::Ticket, [first, last, length, low, high, label @ ..])
            if label.len() <= LONGEST_LABEL => {
            let weight = u16::from_le_bytes([*low, *high]);
            let terms = Terms {
                first: *first,
                last: *last,
                length: *length,
                weight,
            };
            Ok(Record::Ticket {
                terms,
                label: Label {
                    place: place + 7,
                    bytes: label,
                },
            })
        }
        (Kind::Ceiling, [a, b, c, d]) => Ok(Record::Ceiling {
            ceiling: u32::from_le_bytes([*a, *b, *c, *d]),
        }),
        (Kind::Ban, [ticket, start]) => Ok(Record::Ban {
            ticket: *ticket,
            start: *start,
        }),
        _ => Err(FileRefusal::BodyLength),
    }
}

impl<'a> Cursor<'a> {
    /// At the first record of a file, after the header.
    pub(crate) fn open(file: &'a [u8]) -> Result<Cursor<'a>, FileFault>
        ensures { MatchResult result (λ c. (c.file.now ≡ file.now) × At c []) (λ f. (f.place < 5) × Faulty no_judge file.now (form f.refusal) f.place) }
    {
        let rest = header(file)?;
        Ok(Cursor {
            file,
            place: file.len() - rest.len(),
            stage: Stage::Tickets,
        })
    }

    /// Reads the record at the place, and moves past it.
    fn record(&mut self) -> Result<Placed<'a>, FileRefusal>
        requires { self.old.place < length self.old.file.now }
        ensures { (rs : List Rec) → At self.old rs → Found self.old rs result self.new }
    {
        let place = self.place;
        let (letter, body) = cut(&self.file[place..])?;
        let kind = Kind::try_from(letter)?;
        let record = decode(kind, body, place)?;
        self.stage = self.stage.after(kind)?;
        self.place = place + 2 + body.len();
        Ok(Placed { place, record })
    }

    /// The next record, or none at the end of a whole file.
    pub(crate) fn next(&mut self) -> Result<Option<Placed<'a>>, FileFault>
        ensures { (rs : List Rec) → At self.old rs → Next self.old rs result self.new }
    {
        let place = self.place;
        if place < self.file.len() {
            return self.record().map(Some).map_err(|refusal| refusal.at(place));
        }
        match self.stage {
            Stage::Tickets => Err(FileRefusal::OutOfOrder.at(place)),
            Stage::Bans => Ok(None),
        }
    }
}

/// Reads the records of a file, up to its fault.
#[tactic(auto, using(crate::proofs::Unique::injective))]
pub fn read<'a>(heap: Global, file: &'a [u8]) -> Result<Reading<'a>, AllocError>
    ensures read { IfOk result (λ x. Read file.now x) }
    ensures injective { Injective }
{
    let mut records = Vec::new(heap);
    let mut cursor = match Cursor::open(file) {
        Ok(cursor) => cursor,
        Err(fault) => return Ok(Reading {
            records,
            fault: Some(fault),
        }),
    };
    let fault = loop {
        match cursor.next() {
            Ok(Some(placed)) => records.push(placed)?,
            Ok(None) => break None,
            Err(fault) => break Some(fault),
        }
    };
    Ok(Reading { records, fault })
}
