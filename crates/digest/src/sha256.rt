// SHA-256 of whole messages.
ghost use Rattle.std.specs.Prelude.{◌≡◌, ◌+◌, ◌*◌, ◌%◌, ◌≤◌, ◌++◌, length, if◌then◌else◌, fold, nat_lt};
ghost use Rattle.std.specs.List.{flat_map};
ghost use Rattle.digest.specs.Answers.{digesting};
ghost use Rattle.digest.specs.Bytes.{bytes4, bytes8};
ghost use Rattle.digest.specs.Sizes.{block_size, length_place};
ghost use Rattle.digest.specs.Sha256.{words, padding, parsed, compressed, sha256};

use crate::compress::compress;
use crate::fault::DigestFault;

/// The bytes of a digest or a tag.
pub const DIGEST_SIZE: usize = 32;

// The bytes of a block.
pub(crate) const BLOCK_SIZE: usize = 64;

// A digest and a tag take a message of at most this many bytes.
pub(crate) const LONGEST_MESSAGE: usize = 65_536;

// Where the length of the message stands in the last block, in its last eight bytes.
const LENGTH_PLACE: usize = 56;

pub(crate) const INITIAL: [u32; 8] = [
    0x6a09_e667,
    0xbb67_ae85,
    0x3c6e_f372,
    0xa54f_f53a,
    0x510e_527f,
    0x9b05_688c,
    0x1f83_d9ab,
    0x5be0_cd19,
];

fn absorb_blocks(value: [u32; 8], blocks: &[[u8; BLOCK_SIZE]]) -> [u32; 8]
    ensures answers { result ≡ fold (λ v block. compressed v (words block)) value blocks.now }
{
    blocks.iter().fold(value, compress)
}

// Every whole block of the bytes in turn; fewer than 64 bytes after the last one are left out.
fn absorb(value: [u32; 8], bytes: &[u8]) -> [u32; 8]
    ensures answers { result ≡ fold compressed value (parsed bytes.now) }
{
    let (blocks, _) = bytes.as_chunks();
    absorb_blocks(value, blocks)
}

// A length in bytes as the padding has it: in bits.
fn bit_length(total: usize) -> [u8; 8]
    ensures answers { result ≡ bytes8 (8 * total) }
{
    (total as u64).wrapping_mul(8).to_be_bytes()
}

// The last one or two blocks of a message of `total` bytes: what is left of it after its whole blocks, and the padding.
fn pad(area: &mut [u8], rest: &[u8], total: usize)
    requires left { length rest.now ≡ total % block_size }
    requires size { length area.old ≡ (if nat_lt (length rest.now) length_place then block_size else 2 * block_size) }
    ensures area { area.new ≡ rest.now ++ padding total }
{
    let end = area.len() - 8;
    area.fill(0);
    area[..rest.len()].copy_from_slice(rest);
    area[rest.len()] = 0x80;
    area[end..].copy_from_slice(&bit_length(total));
}

// The words of a value as bytes, each with its most significant byte first.
fn value_bytes(value: [u32; 8]) -> [u8; DIGEST_SIZE]
    ensures answers { result ≡ flat_map bytes4 value }
{
    let words = value.map(u32::to_be_bytes);
    *words.as_flattened().as_array().unwrap()
}

// The value after the last one or two blocks of a message of `total` bytes.
fn absorb_last(value: [u32; 8], rest: &[u8], total: usize) -> [u32; 8]
    requires { length rest.now ≡ total % block_size }
    ensures answers { result ≡ fold compressed value (parsed (rest.now ++ padding total)) }
{
    let mut last = [0; 2 * BLOCK_SIZE];
    let size = if rest.len() < LENGTH_PLACE {
        BLOCK_SIZE
    } else {
        2 * BLOCK_SIZE
    };
    pad(&mut last[..size], rest, total);
    absorb(value, &last[..size])
}

// The digest of a message after `before` bytes, none or a block, that are already in the value.
pub(crate) fn finish(value: [u32; 8], before: usize, message: &[u8]) -> [u8; DIGEST_SIZE]
    requires blocks { before % block_size ≡ 0 }
    requires few { before ≤ block_size }
    ensures answers { result ≡ flat_map bytes4 (fold compressed value (parsed (message.now ++ padding (before + length message.now)))) }
{
    let (_, rest) = message.as_chunks::<BLOCK_SIZE>();
    let value = absorb(value, message);
    value_bytes(absorb_last(value, rest, before + message.len()))
}

// SHA-256 of a message of any length; the calls try their limit before.
pub(crate) fn hash(message: &[u8]) -> [u8; DIGEST_SIZE]
    ensures answers { result ≡ sha256 message.now }
{
    finish(INITIAL, 0, message)
}

/// The SHA-256 digest of a message of at most 65,536 bytes.
pub fn digest(message: &[u8]) -> Result<[u8; DIGEST_SIZE], DigestFault>
    ensures answers { result ≡ digesting message.now }
{
    if message.len() > LONGEST_MESSAGE {
        return Err(DigestFault::MessageTooLong);
    }
    Ok(hash(message))
}
