use tickets::Terms;

/// A ticket's label, a part of the file, and where it stands there.
#[derive(Clone, Copy)]
pub struct Label<'a> {
    pub place: usize,
    pub bytes: &'a [u8],
}

/// A record, as parts of the file.
#[derive(Clone, Copy)]
pub enum Record<'a> {
    Ticket { terms: Terms, label: Label<'a> },
    Ceiling { ceiling: u32 },
    Ban { ticket: u8, start: u8 },
}

/// A record and the place of its first byte.
#[derive(Clone, Copy)]
pub struct Placed<'a> {
    pub place: usize,
    pub record: Record<'a>,
}
