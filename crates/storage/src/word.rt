// The storage word, in the low 18 bits of a host's number. What a host keeps above them does not count, and a store leaves zero there.
ghost use Rattle.std.specs.Prelude.{◌≡◌, ◌<◌};
ghost use Rattle.storage.specs.Word.{data_of, is_protected, parity_right, seventeen_bits, with_parity, word_of as the_word, stored as the_stored, Sound, OnlyWord};

// The weights of the two bits above the data, and of the first bit that is no part of a word.
const PROTECT: u32 = 65_536;

const PARITY: u32 = 131_072;

const BEYOND: u32 = 262_144;

// The sixteen bits of data.
pub fn data_of(word: u32) -> u16
    ensures { result ≡ data_of word }
{
    (word % PROTECT) as u16
}

// Whether the protect bit is on.
pub fn is_protected(word: u32) -> bool
    ensures { result ≡ is_protected word }
{
    word / PROTECT % 2 == 1
}

// Whether the eighteen bits have an odd count of ones.
pub fn parity_is_right(word: u32) -> bool
    ensures { result ≡ parity_right word }
{
    (word % BEYOND).count_ones() % 2 == 1
}

// Data and protect bit, without parity.
fn seventeen(data: u16, protect: bool) -> u32
    ensures value { result ≡ seventeen_bits «data» protect }
    ensures bound { result < 131072 }
{
    u32::from(protect) * PROTECT + u32::from(data)
}

// Puts the parity bit on where the others hold an even count of ones.
fn with_parity(bits: u32) -> u32
    requires { bits < 131072 }
    ensures { result ≡ with_parity bits }
{
    bits + (1 - bits.count_ones() % 2) * PARITY
}

// The word of these data, protected or not, with parity right.
pub fn word_of(data: u16, protect: bool) -> u32
    ensures value { result ≡ the_word «data» protect }
    ensures sound { Sound «data» protect result }
    ensures only { OnlyWord }
{
    with_parity(seventeen(data, protect))
}

// The word that a store of these data leaves where `old` stood.
pub fn stored(old: u32, data: u16) -> u32
    ensures value { result ≡ the_stored old «data» }
    ensures sound { Sound «data» (is_protected old) result }
{
    word_of(data, is_protected(old))
}
