// The compression of one block into a hash value of eight words.
ghost use Rattle.std.specs.Prelude.{◌≡◌, fold};
ghost use Rattle.std.specs.List.{zip};
ghost use Rattle.digest.specs.Constants.{K};
ghost use Rattle.digest.specs.Sha256.{round, rounds, words, schedule, summed, compressed};

use crate::sha256::BLOCK_SIZE;
use crate::words::{big_sigma0, big_sigma1, ch, maj, small_sigma0, small_sigma1};
use std::array;

const ROUNDS: usize = 64;

// The rounds in one chunk.
const CHUNK: usize = 8;

const ROUND_CONSTANTS: [u32; ROUNDS] = [
    0x428a_2f98,
    0x7137_4491,
    0xb5c0_fbcf,
    0xe9b5_dba5,
    0x3956_c25b,
    0x59f1_11f1,
    0x923f_82a4,
    0xab1c_5ed5,
    0xd807_aa98,
    0x1283_5b01,
    0x2431_85be,
    0x550c_7dc3,
    0x72be_5d74,
    0x80de_b1fe,
    0x9bdc_06a7,
    0xc19b_f174,
    0xe49b_69c1,
    0xefbe_4786,
    0x0fc1_9dc6,
    0x240c_a1cc,
    0x2de9_2c6f,
    0x4a74_84aa,
    0x5cb0_a9dc,
    0x76f9_88da,
    0x983e_5152,
    0xa831_c66d,
    0xb003_27c8,
    0xbf59_7fc7,
    0xc6e0_0bf3,
    0xd5a7_9147,
    0x06ca_6351,
    0x1429_2967,
    0x27b7_0a85,
    0x2e1b_2138,
    0x4d2c_6dfc,
    0x5338_0d13,
    0x650a_7354,
    0x766a_0abb,
    0x81c2_c92e,
    0x9272_2c85,
    0xa2bf_e8a1,
    0xa81a_664b,
    0xc24b_8b70,
    0xc76c_51a3,
    0xd192_e819,
    0xd699_0624,
    0xf40e_3585,
    0x106a_a070,
    0x19a4_c116,
    0x1e37_6c08,
    0x2748_774c,
    0x34b0_bcb5,
    0x391c_0cb3,
    0x4ed8_aa4a,
    0x5b9c_ca4f,
    0x682e_6ff3,
    0x748f_82ee,
    0x78a5_636f,
    0x84c8_7814,
    0x8cc7_0208,
    0x90be_fffa,
    0xa450_6ceb,
    0xbef9_a3f7,
    0xc671_78f2,
];

// One round on the working variables a to h, with the round's constant and the schedule's word.
fn one_round(v: [u32; 8], step: (&u32, &u32)) -> [u32; 8]
    ensures answers { result ≡ round step.entry.0.now step.entry.1.now v }
{
    let [a, b, c, d, e, f, g, h] = v;
    let (constant, word) = step;
    let t1 = h
        .wrapping_add(big_sigma1(e))
        .wrapping_add(ch(e, f, g))
        .wrapping_add(*constant)
        .wrapping_add(*word);
    let t2 = big_sigma0(a).wrapping_add(maj(a, b, c));
    [t1.wrapping_add(t2), a, b, c, d.wrapping_add(t1), e, f, g]
}

// The message schedule: a block's words, then each word from the 2nd, 7th, 15th and 16th before it. By index, as in the
// standard: each word is made of four at set places before it.
fn message_schedule(block: [u32; 16]) -> [u32; ROUNDS]
    ensures answers { result ≡ schedule block }
{
    let mut w = [0; ROUNDS];
    w[..16].copy_from_slice(&block);
    for t in 16..ROUNDS {
        w[t] = small_sigma1(w[t - 2])
            .wrapping_add(w[t - 7])
            .wrapping_add(small_sigma0(w[t - 15]))
            .wrapping_add(w[t - 16]);
    }
    w
}

// A chunk of the rounds. The compiler writes out a loop of so few, and so keeps the working variables in registers:
// one loop of all 64 is slower.
fn chunk_of_rounds(v: [u32; 8], step: (&[u32; CHUNK], &[u32; CHUNK])) -> [u32; 8]
    ensures answers { result ≡ fold (λ v step. round step.0 step.1 v) v (zip step.entry.0.now step.entry.1.now) }
{
    let (constants, words) = step;
    constants.iter().zip(words).fold(v, one_round)
}

// The 64 rounds, each with its constant and its word of the schedule.
fn all_rounds(value: [u32; 8], schedule: &[u32; ROUNDS]) -> [u32; 8]
    ensures answers { result ≡ rounds 64 schedule.now value }
{
    let (constants, _) = ROUND_CONSTANTS.as_chunks();
    let (words, _) = schedule.as_chunks();
    constants.iter().zip(words).fold(value, chunk_of_rounds)
}

// Each working variable added to the one before the rounds.
fn sum(x: [u32; 8], y: [u32; 8]) -> [u32; 8]
    ensures answers { result ≡ summed x y }
{
    array::from_fn(|i| x[i].wrapping_add(y[i]))
}

// The words of a block, each with its most significant byte first. Filled by index: with the array's `map` a digest takes
// a seventh longer, and by `from_fn` the answer got no proof.
fn block_words(block: &[u8; BLOCK_SIZE]) -> [u32; 16]
    ensures answers { result ≡ words block.now }
{
    let mut words = [0; 16];
    let (fours, _) = block.as_chunks();
    for (i, four) in fours.iter().enumerate() {
        words[i] = u32::from_be_bytes(*four);
    }
    words
}

// The hash value after one more block.
#[tactic(auto, unfolding(crate::specs::Sha256::compressed))]
pub(crate) fn compress(value: [u32; 8], block: &[u8; BLOCK_SIZE]) -> [u32; 8]
    ensures answers { result ≡ compressed value (words block.now) }
{
    let schedule = message_schedule(block_words(block));
    sum(all_rounds(value, &schedule), value)
}
