// The recorder takes words, and keeps how many there were and the latest.
#![tactic(auto)]

ghost use Rattle.std.specs.Prelude.{◌≡◌, [], ◌∷◌, Err, refl};
ghost use Rattle.refusal.specs.declared.Refusal.{Refusal as Refused};
ghost use Rattle.device.specs.Laws.{AnswersNone};
ghost use Rattle.terminal.specs.declared.state.Terminal.{Terminal};
ghost use Rattle.terminal.specs.Setups.{checked};
ghost use Rattle.terminal.specs.Terminals.{in_front, made_terminal};
ghost use Rattle.recorder.specs.Recorders.{recorder, recorder_own, recorder_control, count_of, latest_of};
ghost use Rattle.recorder.specs.Shown.{recorder_apart};

use device::answer::Asking;
use device::function::{CONTROL, INITIALIZE_WRITE, WRITE};
use device::interface::Device;
use terminal::setup::Setup;
use terminal::station::Station;
use terminal::work::Work;

const KIND: u32 = 2;

pub type Recorder = Station<Tally, KIND>;

// What a recorder has of its own: how many words were handed to it, and the latest of them.
#[derive(Clone, Copy, PartialEq, Eq, Debug, Default)]
pub struct Tally {
    count: u32,
    latest: u16,
}

impl Tally {
    // Of no words.
    pub fn new() -> Tally
        ensures tally { result ≡ record { count = 0; latest = 0 } }
        ensures control { (t : Terminal) → in_front t (⟦<Tally as Work<KIND>>⟧.numbers result) ≡ recorder_control t 0 0 }
    {
        Tally::default()
    }

    // How many words were handed over, by put and by take; wraps at 32 bits.
    pub fn count(&self) -> u32
        ensures count { result ≡ self.now.count }
        ensures control { (t : Terminal) → result ≡ count_of (in_front t (⟦<Tally as Work<KIND>>⟧.numbers self.now)) }
    {
        self.count
    }

    // The latest word that was handed over; 0 before the first.
    pub fn latest(&self) -> u16
        ensures latest { result ≡ self.now.latest }
        ensures control { (t : Terminal) → result ≡ latest_of (in_front t (⟦<Tally as Work<KIND>>⟧.numbers self.now)) }
    {
        self.latest
    }
}

// A recorder at rest that was handed no word yet. Over what the check refuses it answers to no area.
pub fn make(setup: &Setup) -> Recorder
    ensures control { ⟦<Recorder as Device>⟧.control result ≡ recorder_control (made_terminal setup.now) 0 0 }
    ensures none { (e : Refused) → checked setup.now ≡ Err e → AnswersNone recorder (⟦<Recorder as Device>⟧.control result) }
{
    Recorder::make(setup, Tally::new())
}

// A recorder's control, number by number: area, gap, operating, wait, line, count, latest.
pub fn control(recorder: &Recorder) -> [usize; 7]
    ensures { result ≡ ⟦<Recorder as Device>⟧.control recorder.now }
{
    let [area, gap, operating, wait, line] = recorder.numbers();
    let tally = recorder.work();
    [
        area,
        gap,
        operating,
        wait,
        line,
        tally.count() as usize,
        usize::from(tally.latest()),
    ]
}

impl Work<KIND> for Tally {
    ghost own = { recorder_own };

    ghost numbers = { λ tally. tally.count ∷ (tally.latest ∷ []) };

    ghost words = { λ tally. [] };

    ghost kinded = { refl };

    ghost apart = { recorder_apart };

    ghost numbered = { λ t tally. refl };

    fn start(&self) -> u32 {
        INITIALIZE_WRITE
    }

    fn takes(&self, function: u32) -> bool {
        matches!(function, WRITE | CONTROL | INITIALIZE_WRITE)
    }

    fn wish(&self) -> Asking {
        Asking::Take
    }

    fn next_word(&mut self) -> u16 {
        0
    }

    fn hand(&mut self, word: u16) {
        *self = Tally {
            count: self.count.wrapping_add(1),
            latest: word,
        };
    }
}
