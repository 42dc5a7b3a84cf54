// A channel's part of a stolen cycle: its reference to core, its device's bring or take, and where it then stands.
ghost use Rattle.std.specs.Prelude.{◌≡◌, ℕ, ◌+◌, ◌%◌, ◌^◌, ◌&&◌, List};
ghost use Rattle.engine.specs.declared.place.By.TheVariants.{Device as the_device};
ghost use Rattle.engine.specs.Machine.{words_of_size, position_of, channel_at, with_channel};
ghost use Rattle.engine.specs.Cycle.{at_head as the_head, after_table as behind_table, asking_of, moves, transferring, finished};
ghost use Rattle.engine.specs.Code.{Room, Keeps, Serves, dev, is_idle};

use crate::place::{By, ChannelNumber, Position};
use crate::references::place;
use crate::state::{Processor, Works};
use device::answer::Asking;
use device::interface::ChannelDevice;
use device::table::TableEnd;
use storage::memory::CoreSize;
use works::channel::Channel;

// Whose channel it is.
impl From<ChannelNumber> for Position {
    ghost from_gives = { λ n r. r ≡ position_of n };

    fn from(number: ChannelNumber) -> Position {
        match number {
            ChannelNumber::Channel1 => Position::First,
            ChannelNumber::Channel2 => Position::Second,
            ChannelNumber::Channel3 => Position::Third,
        }
    }
}

// Three fields and no array: the definition names each channel, and no index has to stay below three.
impl Works {
    pub(crate) fn channel(&self, number: ChannelNumber) -> Channel
        ensures { result ≡ channel_at number self.now }
    {
        match number {
            ChannelNumber::Channel1 => self.channel1,
            ChannelNumber::Channel2 => self.channel2,
            ChannelNumber::Channel3 => self.channel3,
        }
    }

    pub(crate) fn set_channel(&mut self, number: ChannelNumber, channel: Channel)
        ensures { self.new ≡ with_channel number channel self.old }
    {
        match number {
            ChannelNumber::Channel1 => self.channel1 = channel,
            ChannelNumber::Channel2 => self.channel2 = channel,
            ChannelNumber::Channel3 => self.channel3 = channel,
        }
    }

    // Whether no channel is in a table.
    pub(crate) fn channels_idle(&self) -> bool
        ensures { result ≡ (is_idle self.now.channel1 && (is_idle self.now.channel2 && is_idle self.now.channel3)) }
    {
        matches!(self.channel1, Channel::Idle)
            && matches!(self.channel2, Channel::Idle)
            && matches!(self.channel3, Channel::Idle)
    }
}

// Whose cycle a channel's is: its device's.
fn serving<D: ChannelDevice>(number: ChannelNumber, device: &D) -> By
    ensures { result ≡ the_device (position_of number) D.Device.means.kind }
{
    By::Device {
        position: Position::from(number),
        kind: device.kind(),
    }
}

// So many words on from an address, modulo the core's size. Each size divides what a sum of addresses wraps at.
pub(crate) fn onward(size: CoreSize, address: u16, words: u16) -> u16
    ensures { result ≡ (address + words) % words_of_size size }
{
    place(size, address.wrapping_add(words))
}

// Where a channel stands once it has read this head.
fn at_head(size: CoreSize, address: u16, word: u16) -> Channel
    ensures { result ≡ the_head (words_of_size size) address word }
{
    Channel::Data {
        address: onward(size, address, 1),
        count: word % 4096,
        end: TableEnd::from(word),
    }
}

// Where a channel stands behind a table's data.
fn after_table(go_on: bool, address: u16) -> Channel
    ensures { result ≡ behind_table go_on address }
{
    if go_on {
        Channel::NextHead { address }
    } else {
        Channel::Idle
    }
}

impl Processor {
    // Moves one word between a channel's device and core, as the device asks.
    fn move_word<D: ChannelDevice>(
        &mut self,
        number: ChannelNumber,
        device: &mut D,
        core: &mut [u32],
        address: u16,
    )
        requires room { Room (2 ^ 31) self.old core.old }
        ensures after { Serves number D.Device.means (λ m s. moves (asking_of m number s) m number address s) self.old core.old (dev D.Device device.old) self.new core.new (dev D.Device device.new) }
        ensures keeps { Keeps 1 self.old self.new }
    {
        let by = serving(number, device);
        match device.asks() {
            Asking::Nothing => {}
            Asking::Bring => {
                let word = device.bring();
                self.store_word(core, by, address, word);
            }
            Asking::Take => {
                let word = self.read_word(core, by, address);
                device.take(word);
            }
        }
    }

    // A channel's reference in a stolen cycle, by where it stands in its table.
    pub(crate) fn transfer<D: ChannelDevice>(
        &mut self,
        number: ChannelNumber,
        device: &mut D,
        core: &mut [u32],
    )
        requires room { Room (2 ^ 31) self.old core.old }
        ensures after { Serves number D.Device.means (λ m. transferring m number) self.old core.old (dev D.Device device.old) self.new core.new (dev D.Device device.new) }
        ensures keeps { Keeps 1 self.old self.new }
    {
        let by = serving(number, device);
        match self.works.channel(number) {
            Channel::Idle => {}
            Channel::Head { address } => {
                let word = self.read_word(core, by, address);
                let next = at_head(self.books.size, address, word);
                self.works.set_channel(number, next);
            }
            Channel::Data {
                address,
                count,
                end,
            } => {
                self.move_word(number, device, core, address);
                let next = Channel::Data {
                    address: onward(self.books.size, address, 1),
                    count: count.saturating_sub(1),
                    end,
                };
                self.works.set_channel(number, next);
            }
            Channel::NextHead { address } => {
                let word = self.read_word(core, by, address);
                let next = Channel::Head {
                    address: place(self.books.size, word),
                };
                self.works.set_channel(number, next);
            }
        }
    }

    // Ends a table whose count has come to 0: the device's finish, and where the channel goes on, if it does.
    pub(crate) fn finish<D: ChannelDevice>(&mut self, number: ChannelNumber, device: &mut D)
        ensures after { (u : List ℕ) → Serves number D.Device.means (λ m. finished m number) self.old u (dev D.Device device.old) self.new u (dev D.Device device.new) }
        ensures keeps { Keeps 0 self.old self.new }
    {
        if let Channel::Data {
            address,
            count: 0,
            end,
        } = self.works.channel(number)
        {
            device.finish(end);
            self.works
                .set_channel(number, after_table(end.go_on, address));
        }
    }
}
