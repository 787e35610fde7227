// Records end to end in bytes, each after its length.
ghost use Rattle.std.specs.Prelude.{◌≡◌, ℕ, ◌+◌, ◌<◌, ◌≤◌, length, take, drop};
ghost use Rattle.std.specs.Iterator.{YieldsFirstRef, item_count};
ghost use Rattle.logstore.specs.Log.{length_size, framed, size_at, first, rest, parse, Layout};

/// The bytes of the length before each record.
pub(crate) const LENGTH_SIZE: usize = 2;

/// The first record, and what follows it.
#[tactic(auto, unfolding(crate::specs::Log::first, crate::specs::Log::rest), using(crate::proofs::Logs::size_in_front, crate::proofs::Logs::length_first, crate::proofs::Logs::framed_first))]
pub(crate) fn split_first_record(bytes: &[u8]) -> (&[u8], &[u8])
    requires inside { length_size + size_at bytes.now ≤ length bytes.now }
    ensures first { result.0.now ≡ first bytes.now }
    ensures rest { result.1.now ≡ rest bytes.now }
    ensures size { length (first bytes.now) ≡ size_at bytes.now }
    ensures framed { framed (first bytes.now) ≡ take (length_size + size_at bytes.now) bytes.now }
{
    let (size, others) = bytes.split_first_chunk::<LENGTH_SIZE>().unwrap();
    others.split_at(usize::from(u16::from_be_bytes(*size)))
}

/// The records that are left of so many.
#[derive(Drop)]
pub(crate) struct Records<'a> {
    pub(crate) bytes: &'a [u8],
    pub(crate) left: usize,
    ghost lies: { Layout left bytes.now },
}

impl<'a> Iterator for Records<'a> {
    type Item = &'a [u8];

    ghost next_gives = { YieldsFirstRef (λ s. parse s.left s.bytes.now) };

    ghost remaining = { item_count (λ s. parse s.left s.bytes.now) };

    #[tactic(auto, using(crate::proofs::Logs::parse_more, crate::proofs::Logs::layout_more))]
    fn next(&mut self) -> Option<&'a [u8]> {
        if self.left == 0 {
            return None;
        }
        let (record, others) = split_first_record(self.bytes);
        self.bytes = others;
        self.left -= 1;
        Some(record)
    }
}
