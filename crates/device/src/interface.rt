// The traits by which the controller knows its devices. A make says by `control`, `words` and `means` what it is; each
// method's contract says, by these, what the method answers and what is left after it.
ghost use Rattle.std.specs.Prelude.{◌≡◌, ℕ, List, length};
ghost use Rattle.device.specs.Meaning.{Meaning};
ghost use Rattle.device.specs.Calls.{command_answer, command_control, sense_answer, sense_control, put_control, get_place, get_control, bring_place, bring_control, take_control, word_at, removed};
ghost use Rattle.device.specs.Laws.{Lawful};

use crate::answer::{Asking, DeviceFault};
use crate::control::ControlWord;
use crate::table::TableEnd;

// A make, by its number, which fault records carry. A device names its make by `Of`, and has no such constant itself: the check
// takes none with a ghost member in an `impl` for a type with a lifetime, and a make may borrow.
pub trait Make {
    ghost KIND: { ℕ };

    const KIND: u32;
}

// The make of a number.
pub struct Kind<const NUMBER: u32>;

impl<const NUMBER: u32> Make for Kind<NUMBER> {
    ghost KIND = { NUMBER };

    const KIND: u32 = NUMBER;
}

// Areas, functions, modifiers and words are plain numbers, and any of them may be given.
pub trait Device {
    type Of: Make;

    // numbers from which all that the device does follows, the number of words left among them
    ghost control: { Self → List ℕ };

    // the words that it has yet to bring
    ghost words: { Self → List ℕ };

    ghost means: { Meaning };

    // what every make shows of its meaning
    ghost lawful: { Lawful means };

    // the words number what control tells
    ghost numbered: { (s : Self) → length (words s) ≡ means.left (control s) };

    // the number of its make
    fn kind(&self) -> u32
        ensures { result ≡ means.kind }
    {
        Self::Of::KIND
    }

    fn answers_to(&self, area: u32) -> bool
        ensures { result ≡ means.answers (control self.now) area };

    // whether the function is among those of the area
    fn takes_function(&self, area: u32, function: u32) -> bool
        ensures { result ≡ means.takes (control self.now) area function };

    fn operating(&self) -> bool
        ensures { result ≡ means.operating (control self.now) };

    // the interrupt line
    fn line(&self) -> bool
        ensures { result ≡ means.line (control self.now) };

    fn command(&mut self, order: ControlWord) -> Result<(), DeviceFault>
        ensures answer { result ≡ command_answer means (control self.old) order.area order.function }
        ensures control { control self.new ≡ command_control means (control self.old) order.area order.function order.modifier }
        ensures words { words self.new ≡ words self.old };

    fn sense(&mut self, area: u32, modifier: u32) -> u16
        ensures answer { result ≡ sense_answer means (control self.old) area modifier }
        ensures control { control self.new ≡ sense_control means (control self.old) area modifier }
        ensures words { words self.new ≡ words self.old };

    // hands it a word
    fn put(&mut self, area: u32, word: u16)
        ensures control { control self.new ≡ put_control means (control self.old) area word }
        ensures words { words self.new ≡ words self.old };

    // takes from it one word that it has yet to bring
    fn get(&mut self, area: u32) -> u16
        ensures answer { result ≡ word_at (get_place means (control self.old) area) (words self.old) }
        ensures control { control self.new ≡ get_control means (control self.old) area }
        ensures words { words self.new ≡ removed (get_place means (control self.old) area) (words self.old) };

    // tells it that one cycle has passed
    fn passed(&mut self)
        ensures control { control self.new ≡ means.passed (control self.old) }
        ensures words { words self.new ≡ words self.old };

    // returns it to rest
    fn reset(&mut self)
        ensures control { control self.new ≡ means.reset (control self.old) }
        ensures words { words self.new ≡ words self.old };

    // The make's number is the one that it means. It stands behind the calls, since only there it can speak of `Of`.
    ghost kinded: { means.kind ≡ Self.Of.KIND };
}

// A device that a channel serves.
pub trait ChannelDevice: Device {
    // what it wants of its channel
    fn asks(&self) -> Asking
        ensures { result ≡ Self.Device.means.channel.asks (Self.Device.control self.now) };

    // takes from it the word that it asks to bring
    fn bring(&mut self) -> u16
        ensures answer { result ≡ word_at (bring_place Self.Device.means.channel (Self.Device.control self.old)) (Self.Device.words self.old) }
        ensures control { Self.Device.control self.new ≡ bring_control Self.Device.means.channel (Self.Device.control self.old) }
        ensures words { Self.Device.words self.new ≡ removed (bring_place Self.Device.means.channel (Self.Device.control self.old)) (Self.Device.words self.old) };

    // hands it the word that it asks to take
    fn take(&mut self, word: u16)
        ensures control { Self.Device.control self.new ≡ take_control Self.Device.means.channel (Self.Device.control self.old) word }
        ensures words { Self.Device.words self.new ≡ Self.Device.words self.old };

    // ends a table
    fn finish(&mut self, end: TableEnd)
        ensures control { Self.Device.control self.new ≡ Self.Device.means.channel.finished (Self.Device.control self.old) end.go_on end.tell }
        ensures words { Self.Device.words self.new ≡ Self.Device.words self.old };
}
