ghost use Rattle.std.specs.Prelude.{◌≡◌, ◌-◌, ◌≤◌, length, refl};
ghost use Rattle.std.proofs.Common.{◌∙◌};
ghost use Rattle.listing.specs.Placing.{Placed};
ghost use Rattle.listing.specs.Sinks.{placed_none, placed_more, placed_room};

use crate::sink::Sink;

/// A lent buffer that is written from its front: the text that stands there ends at `end`.
#[derive(Drop)]
pub(crate) struct Page<'a> {
    // The buffer is lent whole, and what stands after the text is to stay: so the end of the text stands beside it.
    pub(crate) buffer: &'a mut [u8],
    pub(crate) end: usize,
    ghost within: { end ≤ length buffer.now },
}

impl Sink for Page<'_> {
    ghost room = { λ s. length s.buffer.now - s.end };

    ghost takes = { λ s text t. Placed s.buffer.now s.end text t.buffer.now t.end × (t.buffer.ghost_name ≡ s.buffer.ghost_name) };

    ghost nothing = { λ s. (placed_none s.buffer.now s.end s.within, refl) };

    ghost both = { λ s t u a b p q. (placed_more s.buffer.now t.buffer.now u.buffer.now a b s.end t.end u.end p.0 q.0, q.1 ∙ p.1) };

    ghost rest = { λ s t a p. placed_room s.buffer.now t.buffer.now a s.end t.end p.0 };

    fn put(&mut self, text: &[u8]) {
        let end = self.end + text.len();
        self.buffer[self.end..end].copy_from_slice(text);
        self.end = end;
    }
}
