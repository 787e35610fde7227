// One vector: what is asked, and the answer that it should have.
ghost use Rattle.std.specs.Prelude.{◌≡◌, true, length, take};

use digest::{DIGEST_SIZE, WORKING_SIZE, digest, tag};
use script::bad::{Bad, Stop};
use script::bytes::read_bytes;
use script::words::Words;
use std::alloc::Global;

/// The calls that vectors are about.
#[derive(Clone, Copy)]
pub enum VectorKind {
    Digest,
    Tag,
}

impl TryFrom<&[u8]> for VectorKind {
    type Error = Bad;

    fn try_from(word: &[u8]) -> Result<Self, Bad> {
        match word {
            b"digest" => Ok(VectorKind::Digest),
            b"tag" => Ok(VectorKind::Tag),
            _ => Err(Bad::Command),
        }
    }
}

/// Some published tags are cut to this many bytes.
const CUT_SIZE: usize = 16;

/// Whether the expected bytes are the whole answer, or its first `CUT_SIZE` bytes.
fn agrees(answer: &[u8; DIGEST_SIZE], expected: &[u8]) -> bool
    ensures front { result ≡ true → expected.now ≡ take (length expected.now) answer.now }
{
    let size = expected.len();
    (size == CUT_SIZE || size == DIGEST_SIZE) && answer.starts_with(expected)
}

/// The bytes that the next word says.
fn next_bytes(words: &mut Words, heap: Global) -> Result<Vec<u8>, Stop> {
    let word = words.next().ok_or(Bad::WordCount)?;
    read_bytes(word, heap)
}

/// Whether the call of a kind answers as the words say: its arguments, and then its answer.
/// All words are read before the call, so that none is made for a line that cannot be read.
pub fn is_right(kind: VectorKind, words: &mut Words, heap: Global) -> Result<bool, Stop> {
    let (answer, expected) = match kind {
        VectorKind::Digest => {
            let message = next_bytes(words, heap)?;
            let expected = next_bytes(words, heap)?;
            (digest(message.as_slice()), expected)
        }
        VectorKind::Tag => {
            let key = next_bytes(words, heap)?;
            let message = next_bytes(words, heap)?;
            let expected = next_bytes(words, heap)?;
            let mut working = [0xff; WORKING_SIZE];
            let answer = tag(key.as_slice(), message.as_slice(), &mut working);
            (answer, expected)
        }
    };
    Ok(answer.is_ok_and(|answer| agrees(&answer, expected.as_slice())))
}
