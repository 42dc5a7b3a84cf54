// Core as a whole. The host lends it to each call as a slice.
ghost use Rattle.std.specs.Prelude.{◌≡◌, length};
ghost use Rattle.storage.specs.Memory.{core_size, words_of_size, sizing, protected_count, first_wrong_address, Searched};

use crate::word::{is_protected, parity_is_right};
use refusal::Refusal;

// The four sizes of core, each with its number of words.
#[derive(Clone, Copy, PartialEq, Eq, Hash, Debug)]
pub enum CoreSize {
    Words4096 = 4_096,
    Words8192 = 8_192,
    Words16384 = 16_384,
    Words32768 = 32_768,
}

impl CoreSize {
    pub fn words(self) -> usize
        ensures { result ≡ words_of_size self }
    {
        self as usize
    }
}

impl TryFrom<usize> for CoreSize {
    type Error = Refusal;

    ghost try_from_gives = { λ words r. r ≡ sizing words };

    fn try_from(words: usize) -> Result<Self, Refusal> {
        match words {
            4_096 => Ok(CoreSize::Words4096),
            8_192 => Ok(CoreSize::Words8192),
            16_384 => Ok(CoreSize::Words16384),
            32_768 => Ok(CoreSize::Words32768),
            _ => Err(Refusal::Length),
        }
    }
}

// Whether a core may have this many words.
pub fn is_core_size(words: usize) -> bool
    ensures { result ≡ core_size words }
{
    CoreSize::try_from(words).is_ok()
}

// How many words have the protect bit on. Any slice will do, of a core's length or not. A `for` over the elements, as the
// project's rules name it for this count.
pub fn count_protected(core: &[u32]) -> usize
    ensures { result ≡ protected_count core.now }
{
    let mut count = 0;
    for word in core {
        if is_protected(*word) {
            count += 1;
        }
    }
    count
}

// Searches for wrong parity, from the lowest address up. Any slice will do, of a core's length or not.
pub fn first_wrong_parity(core: &[u32]) -> Option<usize>
    ensures value { result ≡ first_wrong_address core.now }
    ensures searched { Searched core.now result }
{
    core.iter().position(|word| !parity_is_right(*word))
}
