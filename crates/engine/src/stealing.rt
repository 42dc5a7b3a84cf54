// Stolen cycles, and the offers before every other cycle.
ghost use Rattle.std.specs.Prelude.{◌≡◌, ℕ, suc, ◌+◌, ◌^◌, ◌<◌, List, Some};
ghost use Rattle.engine.specs.Events.{passed};
ghost use Rattle.engine.specs.Makes.{calling_all};
ghost use Rattle.engine.specs.Cycle.{transferring, finished, steal as the_steal, all_wishes, chosen as the_chosen, turns, offers as the_offers};
ghost use Rattle.engine.specs.Code.{Room, Keeps, view, makes, Does, left_turns};

use crate::engine::Engine;
use crate::place::ChannelNumber;
use device::interface::{ChannelDevice, Device};
use levels::choice::{Requester, first_behind};
use works::channel::ChannelWish;

// The channels, at the places that their wishes have in the list which the choice of a requester is given. A requester's rank is a number, so the choice
// and the turns go by numbers, as in the definition, and this list leads back to the channel.
const CHANNELS: [ChannelNumber; 3] = [
    ChannelNumber::Channel1,
    ChannelNumber::Channel2,
    ChannelNumber::Channel3,
];

impl<A: ChannelDevice, B: ChannelDevice, C: ChannelDevice, D: Device> Engine<A, B, C, D> {
    // Tells every device that a cycle has passed.
    pub(crate) fn tell(&mut self)
        ensures after { (core : List ℕ) → view A.Device B.Device C.Device D.Device self.new core ≡ (calling_all (makes A.Device B.Device C.Device D.Device) passed (view A.Device B.Device C.Device D.Device self.old core)).machine }
        ensures processor { self.new.processor ≡ self.old.processor }
    {
        self.first.passed();
        self.second.passed();
        self.third.passed();
        self.fourth.passed();
    }

    // A channel's reference, with its own device. The three devices have types of their own, so each arm calls another instance; a macro for the arms of two
    // functions would be as long as they are.
    fn serve(&mut self, core: &mut [u32], number: ChannelNumber)
        requires room { Room (2 ^ 31) self.old.processor core.old }
        ensures after { Does A.Device B.Device C.Device D.Device (λ m. transferring m number) self.old core.old self.new core.new }
        ensures keeps { Keeps 1 self.old.processor self.new.processor }
    {
        match number {
            ChannelNumber::Channel1 => {
                self.processor
                    .transfer(ChannelNumber::Channel1, &mut self.first, core);
            }
            ChannelNumber::Channel2 => {
                self.processor
                    .transfer(ChannelNumber::Channel2, &mut self.second, core);
            }
            ChannelNumber::Channel3 => {
                self.processor
                    .transfer(ChannelNumber::Channel3, &mut self.third, core);
            }
        }
    }

    // The end of a channel's table, with its own device. As in `serve`.
    fn end_table(&mut self, number: ChannelNumber)
        ensures after { (core : List ℕ) → Does A.Device B.Device C.Device D.Device (λ m. finished m number) self.old core self.new core }
        ensures keeps { Keeps 0 self.old.processor self.new.processor }
    {
        match number {
            ChannelNumber::Channel1 => {
                self.processor
                    .finish(ChannelNumber::Channel1, &mut self.first);
            }
            ChannelNumber::Channel2 => {
                self.processor
                    .finish(ChannelNumber::Channel2, &mut self.second);
            }
            ChannelNumber::Channel3 => {
                self.processor
                    .finish(ChannelNumber::Channel3, &mut self.third);
            }
        }
    }

    // A stolen cycle of a channel.
    fn steal(&mut self, core: &mut [u32], number: ChannelNumber)
        requires room { Room (2 ^ 30 + 8) self.old.processor core.old }
        ensures after { Does A.Device B.Device C.Device D.Device (λ m. the_steal m number) self.old core.old self.new core.new }
        ensures keeps { Keeps 2 self.old.processor self.new.processor }
    {
        self.serve(core, number);
        self.processor.tally.counts.stolen += 1;
        self.tell();
        self.end_table(number);
    }

    // What the channels wish, as requesters.
    fn wishes(&self) -> [ChannelWish; 3]
        ensures { (core : List ℕ) → result ≡ all_wishes (makes A.Device B.Device C.Device D.Device) (view A.Device B.Device C.Device D.Device self.now core) }
    {
        let works = &self.processor.works;
        [
            ChannelWish {
                channel: 1,
                wish: works.channel1.wishes(self.first.asks()),
            },
            ChannelWish {
                channel: 2,
                wish: works.channel2.wishes(self.second.asks()),
            },
            ChannelWish {
                channel: 3,
                wish: works.channel3.wishes(self.third.asks()),
            },
        ]
    }

    // Who steals next, of those behind a given number: its place among the channels.
    fn chosen(&self, behind: Option<usize>) -> Option<usize>
        ensures is { (core : List ℕ) → result ≡ the_chosen (makes A.Device B.Device C.Device D.Device) behind (view A.Device B.Device C.Device D.Device self.now core) }
        ensures few { (i : ℕ) → result ≡ Some i → i < 3 }
    {
        first_behind(&self.wishes(), behind)
    }

    // One turn of the offers: whoever is chosen steals a cycle. Answers its number.
    fn turn(&mut self, core: &mut [u32], behind: Option<usize>) -> Option<usize>
        requires room { Room (2 ^ 30 + 8) self.old.processor core.old }
        ensures after { (n : ℕ) → (turns (suc n) (makes A.Device B.Device C.Device D.Device) behind (view A.Device B.Device C.Device D.Device self.old core.old)).machine ≡ left_turns n (makes A.Device B.Device C.Device D.Device) result (view A.Device B.Device C.Device D.Device self.new core.new) }
        ensures keeps { Keeps 2 self.old.processor self.new.processor }
    {
        let at = self.chosen(behind)?;
        self.steal(core, CHANNELS[at]);
        Some(at + 1)
    }

    // The offers before a program or idle cycle. Three turns: a loop over them would be as long, and need an invariant beside it.
    pub(crate) fn offers(&mut self, core: &mut [u32])
        requires room { Room (2 ^ 30) self.old.processor core.old }
        ensures after { Does A.Device B.Device C.Device D.Device the_offers self.old core.old self.new core.new }
        ensures keeps { Keeps 6 self.old.processor self.new.processor }
    {
        // as it is before most cycles: nobody has to be asked
        if self.processor.works.channels_idle() {
            return;
        }
        let Some(first) = self.turn(core, None) else {
            return;
        };
        let Some(second) = self.turn(core, Some(first)) else {
            return;
        };
        self.turn(core, Some(second));
    }
}
