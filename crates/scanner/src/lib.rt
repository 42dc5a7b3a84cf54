// The scanner brings the words of a lent list, first to last.
#![tactic(auto)]

ghost use Rattle.std.specs.Prelude.{◌≡◌, [], ◌∷◌, length, refl};
ghost use Rattle.terminal.specs.declared.state.Terminal.{Terminal};
ghost use Rattle.terminal.specs.Terminals.{in_front};
ghost use Rattle.scanner.specs.Scanners.{scanner_own, scanner_control};
ghost use Rattle.scanner.specs.Shown.{scanner_apart};

use device::answer::Asking;
use device::function::{CONTROL, INITIALIZE_READ, READ};
use device::interface::Device;
use terminal::station::Station;
use terminal::work::Work;

const KIND: u32 = 1;

pub type Scanner<'a> = Station<Readings<'a>, KIND>;

// What a scanner has of its own: the words that it has yet to bring.
#[derive(Drop)]
pub struct Readings<'a> {
    words: &'a [u16],
}

impl<'a> Readings<'a> {
    // All the words yet to bring.
    pub fn new(words: &'a [u16]) -> Readings<'a>
        ensures words { result.words.now ≡ words.now }
        ensures control { (t : Terminal) → in_front t (⟦<Readings<'a> as Work<KIND>>⟧.numbers result) ≡ scanner_control t words.now }
    {
        Readings { words }
    }

    // How many words are left.
    pub fn left(&self) -> usize
        ensures { result ≡ length self.now.words.now }
    {
        self.words.len()
    }
}

// A scanner's control, number by number: area, gap, operating, wait, line, words left. The recorder's has one number more, so each has its own.
pub fn control<'a>(scanner: &Scanner<'a>) -> [usize; 6]
    ensures { result ≡ ⟦<Scanner<'a> as Device>⟧.control scanner.now }
{
    let [area, gap, operating, wait, line] = scanner.numbers();
    [area, gap, operating, wait, line, scanner.work().left()]
}

impl Work<KIND> for Readings<'_> {
    ghost own = { scanner_own };

    ghost numbers = { λ r. length r.words.now ∷ [] };

    ghost words = { λ r. r.words.now };

    ghost kinded = { refl };

    ghost apart = { scanner_apart };

    ghost numbered = { λ t r. refl };

    fn start(&self) -> u32 {
        INITIALIZE_READ
    }

    fn takes(&self, function: u32) -> bool {
        matches!(function, READ | CONTROL | INITIALIZE_READ)
    }

    fn wish(&self) -> Asking {
        if self.words.is_empty() {
            Asking::Nothing
        } else {
            Asking::Bring
        }
    }

    fn next_word(&mut self) -> u16 {
        let Some((first, rest)) = self.words.split_first() else {
            return 0;
        };
        self.words = rest;
        *first
    }

    fn hand(&mut self, _word: u16) {}
}
