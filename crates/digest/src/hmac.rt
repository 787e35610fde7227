// HMAC-SHA-256, with the key block in the caller's working area.
ghost use Rattle.std.specs.Prelude.{◌≡◌, ◌≤◌, length, replicate, if◌then◌else◌, nat_lt};
ghost use Rattle.digest.specs.Answers.{tagging};
ghost use Rattle.digest.specs.Hmac.{masked, key_block, keyed, short_key, short_hmac};
ghost use Rattle.digest.specs.Sizes.{block_size};
ghost use Rattle.digest.specs.Wiped.{wiped, used};

use crate::compress::compress;
use crate::fault::DigestFault;
use crate::sha256::{BLOCK_SIZE, DIGEST_SIZE, INITIAL, LONGEST_MESSAGE, finish, hash};

/// The bytes of a working area that are used and wiped: its first 64.
pub const WORKING_SIZE: usize = BLOCK_SIZE;

const LONGEST_KEY: usize = 65_536;

const IPAD: u8 = 0x36;

const OPAD: u8 = 0x5c;

// Holds the part of a working area that is used, which `split_at_mut` gave, and zeroes it when it goes. A rule of the
// project asks for this form.
struct Wiper<'a> {
    part: &'a mut [u8],
}

impl Drop for Wiper<'_> {
    fn drop(self)
        ensures { self.exit.0.now ≡ replicate (length self.entry.part.now) 0 }
    {
        self.part.fill(0);
        let Wiper { part: _ } = self;
    }
}

// A key of at most a block.
#[derive(Clone, Copy)]
struct ShortKey<'a> {
    bytes: &'a [u8],
    ghost short: { length bytes.now ≤ block_size },
}

impl ShortKey<'_> {
    // Fills the block with the key and zeros after it, every byte changed by a mask.
    fn mask_into(&self, pad: u8, block: &mut [u8; BLOCK_SIZE])
        ensures area { block.new ≡ masked pad (key_block self.now.bytes.now) }
    {
        block.fill(0);
        block[..self.bytes.len()].copy_from_slice(self.bytes);
        for byte in block.iter_mut() {
            *byte ^= pad;
        }
    }

    // The digest of the masked key block and a text after it: the inner or the outer one.
    fn keyed_digest(&self, pad: u8, text: &[u8], block: &mut [u8; BLOCK_SIZE]) -> [u8; DIGEST_SIZE]
        ensures answers { result ≡ keyed pad self.now.bytes.now text.now }
    {
        self.mask_into(pad, block);
        finish(compress(INITIAL, block), BLOCK_SIZE, text)
    }

    fn mac(&self, message: &[u8], block: &mut [u8; BLOCK_SIZE]) -> [u8; DIGEST_SIZE]
        ensures answers { result ≡ short_hmac self.now.bytes.now message.now }
    {
        let inner = self.keyed_digest(IPAD, message, block);
        self.keyed_digest(OPAD, &inner, block)
    }
}

// A key longer than a block is replaced by its digest.
fn mac(key: &[u8], message: &[u8], block: &mut [u8; BLOCK_SIZE]) -> [u8; DIGEST_SIZE]
    ensures answers { result ≡ short_hmac (short_key key.now) message.now }
{
    if key.len() > BLOCK_SIZE {
        let digest = hash(key);
        return ShortKey { bytes: &digest }.mac(message, block);
    }
    ShortKey { bytes: key }.mac(message, block)
}

// The bytes of an area that are used and wiped: none of one that is too short.
fn used_size(room: usize) -> usize
    ensures answers { result ≡ used room }
{
    if room < WORKING_SIZE { 0 } else { WORKING_SIZE }
}

/// The HMAC-SHA-256 tag of a message. The first 64 bytes of the working area are zero afterwards, refused or not.
#[tactic(auto, using(crate::proofs::Wiped::wiped_parts), unfolding(crate::specs::Hmac::hmac))]
pub fn tag(key: &[u8], message: &[u8], working: &mut [u8]) -> Result<[u8; DIGEST_SIZE], DigestFault>
    ensures answers { result ≡ tagging key.now message.now (length working.old) }
    ensures working { working.new ≡ wiped working.old }
{
    let size = used_size(working.len());
    let (part, _) = working.split_at_mut(size);
    let guard = Wiper { part };
    if message.len() > LONGEST_MESSAGE {
        return Err(DigestFault::MessageTooLong);
    }
    if key.len() > LONGEST_KEY {
        return Err(DigestFault::KeyTooLong);
    }
    let Some(block) = guard.part.as_mut_array() else {
        return Err(DigestFault::ShortWorkingArea);
    };
    Ok(mac(key, message, block))
}

/// Leaves a working area as `tag` would, for calls that make no tag.
pub fn wipe(working: &mut [u8])
    ensures working { working.new ≡ wiped working.old }
{
    let size = used_size(working.len());
    working[..size].fill(0);
}
