// Tags compared in a time that does not tell where they differ.
ghost use Rattle.std.specs.Prelude.{◌≡◌};
ghost use Rattle.reader.specs.Same.{all_same};

use digest::DIGEST_SIZE;

// Every byte is looked at: no early exit.
pub(crate) fn is_same(a: &[u8; DIGEST_SIZE], b: &[u8; DIGEST_SIZE]) -> bool
    ensures answers { result ≡ all_same a.now b.now }
{
    a.iter().zip(b).fold(true, |same, (x, y)| same & (x == y))
}
