// What a make that is a terminal has of its own.
ghost use Rattle.std.specs.Prelude.{◌≡◌, ℕ, List, length, None};
ghost use Rattle.device.specs.Calls.{word_at, removed};
ghost use Rattle.terminal.specs.declared.state.Terminal.{Terminal};
ghost use Rattle.terminal.specs.Terminals.{Own, Apart, in_front};

use device::answer::Asking;

// The functions that it takes, what stands behind its terminal, and what it does with words. Each clause holds behind whatever
// five numbers the terminal has. KIND is the number of the make: a parameter, since the check does not state a constant of the
// trait, nor a function without self, at a type that has a lifetime.
pub trait Work<const KIND: u32> {
    ghost own: { Own };

    // the numbers of control that come behind the terminal's five
    ghost numbers: { Self → List ℕ };

    // the words that it has yet to bring
    ghost words: { Self → List ℕ };

    // the number of the make is the one that it means
    ghost kinded: { own.kind ≡ KIND };

    // what a terminal asks of what is a make's own
    ghost apart: { Apart own };

    // the words number what control tells
    ghost numbered: { (t : Terminal) (s : Self) → length (words s) ≡ own.left (in_front t (numbers s)) };

    // the function that starts it
    fn start(&self) -> u32
        ensures { result ≡ own.start };

    fn takes(&self, function: u32) -> bool
        ensures { result ≡ own.codes function };

    // what it wants of its channel when it is ready
    fn wish(&self) -> Asking
        ensures { (t : Terminal) → result ≡ own.wish (in_front t (numbers self.now)) };

    // takes from it the next word, or 0 and no change where it has none
    fn next_word(&mut self) -> u16
        ensures answer { (t : Terminal) → result ≡ word_at (own.place (in_front t (numbers self.old))) (words self.old) }
        ensures control { (t : Terminal) → in_front t (numbers self.new) ≡ own.gone (in_front t (numbers self.old)) }
        ensures none { (t : Terminal) → own.place (in_front t (numbers self.old)) ≡ None → numbers self.new ≡ numbers self.old }
        ensures words { (t : Terminal) → words self.new ≡ removed (own.place (in_front t (numbers self.old))) (words self.old) };

    // hands it a word
    fn hand(&mut self, word: u16)
        ensures control { (t : Terminal) → in_front t (numbers self.new) ≡ own.handed (in_front t (numbers self.old)) word }
        ensures words { words self.new ≡ words self.old };
}
