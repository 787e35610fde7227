// The log store and what holds of it.
ghost use Rattle.std.specs.Prelude.{◌≡◌, ◌+◌, ◌<◌, ◌^◌};
ghost use Rattle.logstore.specs.Log.{length_size, SoundLog};

use super::records::LENGTH_SIZE;

/// How far the records of a log reach, and how many they are: counted beside the area, which is the caller's.
#[derive(Clone, Copy, Debug, Default, PartialEq, Eq)]
pub(crate) struct Extent {
    pub(crate) used: usize,
    pub(crate) count: usize,
}

impl Extent {
    /// With one record more, of so many bytes after its length.
    pub(crate) fn with(self, size: usize) -> Extent
        requires used { self.used + (length_size + size) < 2 ^ 64 }
        requires count { self.count + 1 < 2 ^ 64 }
        ensures answers { result ≡ record { used = self.used + (length_size + size); count = self.count + 1 } }
    {
        Extent {
            used: self.used + (LENGTH_SIZE + size),
            count: self.count + 1,
        }
    }
}

/// Records end to end in a lent area, in the order put, each after its length.
#[derive(Drop)]
pub struct LogStore<'a> {
    pub(crate) area: &'a mut [u8],
    pub(crate) held: Extent,
    ghost sound: { SoundLog area.now held.used held.count },
}
