// Layouts of a fixed size, read from and written to the front of a part.
ghost use Rattle.std.specs.Prelude.{◌≡◌, ℕ, ◌<◌, ◌^◌, List, ◌++◌, length, drop, if◌then◌else◌, Some, None, nat_le};
ghost use Rattle.std.proofs.Common.{rules};
ghost use Rattle.statement.specs.Layout.{IsEncoding, IsDecoding, encoded, decoded, Sized, encoded_signed, decoded_signed, SizedSigned};

use super::area::put;
use super::types::{SIGNED_STATEMENT_SIZE, STATEMENT_SIZE, SignedStatement, Statement};

/// A value of `N` bytes. `Into` encodes it.
pub trait Layout<const N: usize>: Copy + Into<[u8; N]> {
    ghost encoded: { Self → List ℕ };

    ghost decoded: { List ℕ → Self };

    // the lengths of the arrays that the value holds
    ghost sized: { Self → Type 0 };

    /// The value that `N` bytes hold.
    // A bound `for<'a> From<&'a [u8; N]>` would say it, and no function under such a bound can be proved.
    fn decode(bytes: &[u8; N]) -> Self
        ensures holds { IsDecoding encoded decoded bytes.now result }
        ensures front { (rest : List ℕ) → decoded (bytes.now ++ rest) ≡ result };

    /// Writes the `N` bytes to the front of the part; a shorter one stays as it is.
    fn write(&self, part: &mut [u8])
        ensures area { part.new ≡ (if nat_le N (length part.old) then encoded self.now ++ drop N part.old else part.old) }
    {
        let bytes: [u8; N] = (*self).into();
        put(part, 0, &bytes);
    }

    /// The value in the first `N` bytes of the part, none where it is shorter.
    fn read(part: &[u8]) -> Option<Self>
        ensures answers { result ≡ (if nat_le N (length part.now) then Some (decoded part.now) else None) }
    {
        let bytes = part.first_chunk::<N>()?;
        Some(Self::decode(bytes))
    }

    // so few that they fit in memory
    ghost small: { N < 2 ^ 63 };

    // what `into` gives are the value's bytes
    ghost into_encodes: { (x : Self) (bytes : List ℕ) → Self.converts x bytes → IsEncoding encoded decoded sized x bytes };
}

impl Layout<STATEMENT_SIZE> for Statement {
    ghost encoded = { encoded };

    ghost decoded = { decoded };

    ghost sized = { Sized };

    fn decode(bytes: &[u8; STATEMENT_SIZE]) -> Statement {
        Statement::from(bytes)
    }

    ghost small = { Prim.search rules };

    ghost into_encodes = { λ x bytes h. h };
}

impl Layout<SIGNED_STATEMENT_SIZE> for SignedStatement {
    ghost encoded = { encoded_signed };

    ghost decoded = { decoded_signed };

    ghost sized = { SizedSigned };

    fn decode(bytes: &[u8; SIGNED_STATEMENT_SIZE]) -> SignedStatement {
        SignedStatement::from(bytes)
    }

    ghost small = { Prim.search rules };

    ghost into_encodes = { λ x bytes h. h };
}
