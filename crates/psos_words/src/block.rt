// Words in the blocks of the backing store: payloads, little-endian, and a mask of tags behind them.
ghost use Rattle.std.specs.Prelude.{◌≡◌, ◌<◌, ◌*◌, ◌^◌, drop, Some, IsTrue, is_some, length, if◌then◌else◌};
ghost use Rattle.psos_words.specs.Words.{IsWord};
ghost use Rattle.psos_words.specs.Block.{is_cap, word_payload, word_bytes, word_from, block_of, page_of, first_number, block_tags};

use crate::Word;
use psos_caps::{from_payload, to_payload};

// The number that stands for a word.
fn payload_of(word: Word) -> u128
    ensures payload { result ≡ word_payload word }
    ensures range { IsWord word }
{
    match word {
        Word::Data(number) => u128::from(number),
        Word::Cap(cap) => to_payload(cap),
    }
}

// The 16 bytes of a word. They are written as two halves, since a number of 16 bytes is written byte by byte.
fn bytes_of(word: Word) -> [u8; 16]
    ensures bytes { result ≡ word_bytes word }
    ensures range { IsWord word }
{
    let payload = payload_of(word);
    let mut bytes = [0; 16];
    bytes[0..8].copy_from_slice(&((payload % (1 << 64)) as u64).to_le_bytes());
    bytes[8..16].copy_from_slice(&((payload / (1 << 64)) as u64).to_le_bytes());
    bytes
}

// The tag of word i.
fn tag_at(word: Word, i: usize) -> u64
    requires { i < 64 }
    ensures { result ≡ if is_cap word then 2 ^ i else 0 }
{
    match word {
        Word::Data(_) => 0,
        Word::Cap(_) => 1 << i,
    }
}

/// Writes the block of these words.
pub fn write_words(words: &[Word; 64], out: &mut [u8; 1032])
    ensures block { out.new ≡ block_of words.now }
    ensures again { page_of out.new ≡ Some words.now }
{
    let mut tags: u64 = 0;
    'words: for i in 0..64usize {
        let word = words[i];
        out[16 * i..16 * i + 16].copy_from_slice(&bytes_of(word));
        tags += tag_at(word, i);
    }
    out[1024..1032].copy_from_slice(&tags.to_le_bytes());
}

// The word of a number, by its tag.
fn word_from(tagged: bool, number: u128) -> Option<Word>
    ensures { result ≡ word_from tagged number }
{
    if tagged {
        let Some(cap) = from_payload(number) else {
            return None;
        };
        return Some(Word::Cap(cap));
    }
    if number >= 1 << 64 {
        return None;
    }
    Some(Word::Data(number as u64))
}

// The number of word i.
fn number_at(block: &[u8; 1032], i: usize) -> u128
    requires { i < 64 }
    ensures { result ≡ first_number (drop (16 * i) block.now) }
{
    let mut bytes = [0; 16];
    bytes.copy_from_slice(&block[16 * i..16 * i + 16]);
    u128::from_le_bytes(bytes)
}

// The mask of tags.
fn tags_of(block: &[u8; 1032]) -> u64
    ensures { result ≡ block_tags block.now }
{
    let mut bytes = [0; 8];
    bytes.copy_from_slice(&block[1024..1032]);
    u64::from_le_bytes(bytes)
}

/// Reads the words of a block, and tells whether it is that of a page. Where it is not, `words` holds any words.
pub fn read_words(block: &[u8; 1032], words: &mut [Word; 64]) -> bool
    ensures page { result ≡ is_some (page_of block.now) }
    ensures words { IsTrue result → page_of block.now ≡ Some words.new }
    ensures all { length words.new ≡ 64 }
{
    let mut tags = tags_of(block);
    'words: for i in 0..64usize {
        let Some(word) = word_from(tags % 2 == 1, number_at(block, i)) else {
            return false;
        };
        words[i] = word;
        tags /= 2;
    }
    true
}
