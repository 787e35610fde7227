// Digests.
ghost use Rattle.std.specs.Prelude.{◌≡◌, length};
ghost use Rattle.speed.specs.Digests.{code, written};
ghost use Rattle.digest.specs.Answers.{digesting};

use digest::{DIGEST_SIZE, digest};

/// What a call answers where the area for its answer is too short.
const SHORT: u32 = 255;

/// The digest goes to the front of `out`, which has room for its 32 bytes; 0, or the refusal's number, or 255 where
/// `out` is short: a number, since an enum does not cross to C.
#[unsafe(no_mangle)]
pub extern "C" fn speed_digest(message: &[u8], out: &mut [u8]) -> u32
    ensures answers { result ≡ code (digesting message.now) (length out.old) }
    ensures area { out.new ≡ written (digesting message.now) out.old }
{
    // Not `first_chunk_mut`: that a refusal then leaves the area as it was got no proof.
    if out.len() < DIGEST_SIZE {
        return SHORT;
    }
    match digest(message) {
        Ok(bytes) => {
            out[0..DIGEST_SIZE].copy_from_slice(&bytes);
            0
        }
        Err(fault) => fault.number(),
    }
}
