// Image files: a core kept in a file, three bytes to a word.
ghost use Rattle.std.specs.Prelude.{◌≡◌, length, nat_le};
ghost use Rattle.storage.specs.Image.{record_word, record_of, all_flags_fit, fits as fits_is, decoding, after_decoding, encoding, after_encoding, SameFile, SameWords};

use crate::memory::is_core_size;
use refusal::Refusal;

// Whether a core of so many words may be kept in a file of so many bytes.
pub(crate) fn fits(words: usize, bytes: usize) -> bool
    ensures { result ≡ fits_is words bytes }
{
    is_core_size(words) && bytes % 3 == 0 && bytes / 3 == words
}

fn flags_fit(flags: u8) -> bool
    ensures { result ≡ nat_le flags 3 }
{
    flags <= 3
}

// Whether the first byte of every record is a protect bit and a parity bit, and no more.
fn all_flags_fit(image: &[u8]) -> bool
    ensures { result ≡ all_flags_fit image.now }
{
    // By a slice pattern, as the project's rules want image records taken apart, and not by `all`.
    let mut rest = image;
    while let [flags, _high, _low, more @ ..] = rest {
        if !flags_fit(*flags) {
            return false;
        }
        rest = more;
    }
    true
}

// The word of a record.
fn word_from(flags: u8, high: u8, low: u8) -> u32
    ensures { result ≡ record_word flags high low }
{
    // The lowest byte first: with `from_be_bytes` the loop of `decode` takes twice the time.
    u32::from_le_bytes([low, high, flags, 0])
}

// The record of a word. The bits above its eighteen are left out.
fn record_from(word: u32) -> [u8; 3]
    ensures { result ≡ record_of word }
{
    let [_, flags, high, low] = word.to_be_bytes();
    [flags % 4, high, low]
}

// Fills the core from the image. Every test comes before the first word is written.
pub fn decode(image: &[u8], core: &mut [u32]) -> Result<(), Refusal>
    ensures answer { result ≡ decoding image.now (length core.old) }
    ensures core { core.new ≡ after_decoding result image.now core.old }
    ensures same_file { SameFile result image.now core.new }
{
    if !fits(core.len(), image.len()) {
        return Err(Refusal::Length);
    }
    if !all_flags_fit(image) {
        return Err(Refusal::ImageByte);
    }
    // By a pattern too. As many records are left as words.
    let mut rest = image;
    for word in core.iter_mut() {
        let [flags, high, low, more @ ..] = rest else {
            unreachable!();
        };
        *word = word_from(*flags, *high, *low);
        rest = more;
    }
    Ok(())
}

// Writes the core's image into the buffer.
pub fn encode(core: &[u32], image: &mut [u8]) -> Result<(), Refusal>
    ensures answer { result ≡ encoding (length core.now) (length image.old) }
    ensures image { image.new ≡ after_encoding result core.now image.old }
    ensures same_words { SameWords result core.now image.new }
{
    if !fits(core.len(), image.len()) {
        return Err(Refusal::Length);
    }
    // By index: tried by `chunks_exact_mut` and by a walk down the slice, after which no contract says what the slice has become.
    for (address, word) in core.iter().enumerate() {
        let at = 3 * address;
        let [flags, high, low] = record_from(*word);
        image[at] = flags;
        image[at + 1] = high;
        image[at + 2] = low;
    }
    Ok(())
}
