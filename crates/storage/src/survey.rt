// A look at an image: how much of it is protected, and where its parity is first wrong.
ghost use Rattle.std.specs.Prelude.{◌≡◌, length, Some};
ghost use Rattle.storage.specs.Survey.{surveying, core_after, buffer_after, survey_text};

use crate::image::{decode, encode, fits};
use crate::memory::{count_protected, first_wrong_parity};
use refusal::Refusal;
use std::fmt;

#[derive(Clone, Copy, PartialEq, Eq, Hash, Debug)]
pub struct Survey {
    pub words: usize,
    // how many words have the protect bit on
    pub protected: usize,
    // the address of the first word of wrong parity
    pub first_wrong: Option<usize>,
}

// Three lines, with no end of the last.
impl fmt::Display for Survey {
    ghost output = { λ s. Some (survey_text s) };

    fn fmt<W: fmt::Write>(&self, f: &mut fmt::Formatter<W>) -> fmt::Result {
        writeln!(f, "words {}", self.words)?;
        writeln!(f, "protected {}", self.protected)?;
        match self.first_wrong {
            Some(address) => write!(f, "first wrong parity {address:04X}"),
            None => write!(f, "first wrong parity none"),
        }
    }
}

// Decodes the image into the core, looks at the core, and encodes it again into the buffer, where the same file comes back.
pub fn survey_image(image: &[u8], core: &mut [u32], buffer: &mut [u8]) -> Result<Survey, Refusal>
    ensures answer { result ≡ surveying image.now (length core.old) (length buffer.old) }
    ensures core { core.new ≡ core_after result image.now core.old }
    ensures buffer { buffer.new ≡ buffer_after result image.now buffer.old }
{
    if !fits(core.len(), buffer.len()) {
        return Err(Refusal::Length);
    }
    decode(image, core)?;
    encode(core, buffer)?;
    Ok(Survey {
        words: core.len(),
        protected: count_protected(core),
        first_wrong: first_wrong_parity(core),
    })
}
