// The format of a word bank: numbers of 32 bits, four bytes each, the most significant first.
ghost use Rattle.std.specs.Prelude.{◌≡◌, nat_le, refl};
ghost use Rattle.std.specs.Int.{w32, from_be_bytes};
ghost use Rattle.std.specs.List.{list_all};
ghost use Rattle.bank.specs.Bank.{highest_limit};
ghost use Rattle.bank.specs.Soundness.{word_sixteen};
ghost use Rattle.bank.specs.Word.{word_size, word_area, word_format};

use crate::counters::{COUNTERS, HIGHEST_LIMIT};
use crate::format::Format;

/// The bytes of a word, and of sixteen of them.
const WORD_SIZE: usize = 4;

const WORDS_SIZE: usize = COUNTERS * WORD_SIZE;

/// Sixteen words of 32 bits.
#[derive(Clone, Copy, Debug)]
pub struct Words;

/// Whether none of some words is above the highest limit.
fn are_within(words: &[[u8; WORD_SIZE]]) -> bool
    ensures answers { result ≡ list_all (λ word. nat_le (from_be_bytes w32 word) highest_limit) words.now }
{
    words
        .iter()
        .all(|word| u32::from_be_bytes(*word) <= HIGHEST_LIMIT)
}

/// Whether there are sixteen words, none of them above the highest limit.
#[tactic(auto, using(crate::proofs::Holding::all_words), unfolding(crate::specs::Word::word_area))]
fn is_usable(area: &[u8]) -> bool
    ensures answers { result ≡ word_area area.now }
{
    let (words, _) = area.as_chunks::<WORD_SIZE>();
    area.len() == WORDS_SIZE && are_within(words)
}

impl Format for Words {
    const LONGEST: usize = WORD_SIZE;

    ghost format = { word_format };

    ghost fits = { λ size. size ≡ word_size };

    ghost raises = { λ before after to. from_be_bytes w32 after ≡ to };

    ghost sixteen = { word_sixteen };

    ghost parts_fit = { λ area usable. refl };

    fn part_size(area: &[u8]) -> Option<usize> {
        is_usable(area).then_some(WORD_SIZE)
    }

    fn limit(_size: usize) -> u32 {
        HIGHEST_LIMIT
    }

    fn number(part: &[u8]) -> u32 {
        u32::from_be_bytes(*part.first_chunk::<WORD_SIZE>().unwrap())
    }

    fn raise(part: &mut [u8], _from: u32, to: u32) {
        part.copy_from_slice(&to.to_be_bytes());
    }
}
