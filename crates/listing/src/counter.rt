ghost use Rattle.std.specs.Prelude.{◌≡◌, ◌+◌, ◌-◌, length};
ghost use Rattle.listing.specs.Sinks.{counted_none, counted_more, counted_room};

use crate::sink::Sink;

/// How many bytes a text has.
#[derive(Drop)]
pub(crate) struct Counter {
    pub(crate) count: usize,
}

impl Sink for Counter {
    ghost room = { λ s. 18446744073709551615 - s.count };

    ghost takes = { λ s text t. t.count ≡ s.count + length text };

    ghost nothing = { λ s. counted_none s.count };

    ghost both = { λ s t u a b. counted_more s.count t.count u.count a b };

    ghost rest = { λ s t a. counted_room s.count t.count a };

    fn put(&mut self, text: &[u8]) {
        self.count += text.len();
    }
}
