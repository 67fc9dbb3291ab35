ghost use Rattle.std.specs.Prelude.{◌≤◌, length};

use crate::stage::Stage;

// Not an `Iterator`, which would have to say what comes after a fault: reading ends there.

/// A file, the place up to which it is read, and which records may come there.
#[derive(Clone, Copy)]
pub(crate) struct Cursor<'a> {
    pub(crate) file: &'a [u8],
    pub(crate) place: usize,
    pub(crate) stage: Stage,
    ghost small: { length file.now ≤ 32768 },
    ghost within: { place ≤ length file.now },
}
