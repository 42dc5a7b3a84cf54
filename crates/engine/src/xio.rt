// XIO, by its address word and control word.
ghost use Rattle.std.specs.Prelude.{◌≡◌, ℕ, ◌*◌, ◌^◌, ◌<◌, ◌&&◌, List, length, Some, Ok, is_some, unwrap_or};
ghost use Rattle.device.specs.declared.answer.DeviceFault.TheVariants.{NotTaken};
ghost use Rattle.engine.specs.Levels.{cleared_by};
ghost use Rattle.levels.specs.Interrupts.{highest};
ghost use Rattle.engine.specs.Plan.{done, drop as the_drop, act, inquire, order as the_order};
ghost use Rattle.engine.specs.Xio.{to_a, nobody as the_nobody, sense_interrupt as the_sense, channel_set, channel_for as the_channel, initializes as the_initializes, write_masks, read_switches, sense_switches as the_switches, area_zero as the_zero, move as the_move, commanded as the_commanded, refused as the_refused, without_channel, with_device as the_device, by_area as the_area, xio as the_xio};
ghost use Rattle.engine.specs.Code.{Room, Within, spent, makes, Goes};

use crate::engine::Engine;
use crate::place::{By, ChannelNumber, Position};
use crate::references::place;
use crate::state::Works;
use device::answer::DeviceFault;
use device::control::ControlWord;
use device::function::{
    CONTROL, INITIALIZE_READ, INITIALIZE_WRITE, READ, SENSE_DEVICE, SENSE_INTERRUPT, WRITE,
};
use device::interface::{ChannelDevice, Device};
use levels::state::{Flags, Interrupt, LEVELS};
use works::channel::Channel;
use works::fault::{Cause, ChannelFault};
use works::panel::Switches;

// The pair of words that XIO reads: where it stands, which fault records name, and the two words.
#[derive(Clone, Copy, PartialEq, Eq, Debug)]
struct IoPair {
    at: u16,
    address: u16,
    control: ControlWord,
}

// The sense switches in the high byte.
fn sense_word(switches: Switches) -> u16
    ensures { result ≡ switches.sense * 256 }
{
    u16::from(switches.sense) * 256
}

fn initializes(function: u32) -> bool
    ensures { result ≡ the_initializes function }
{
    matches!(function, INITIALIZE_WRITE | INITIALIZE_READ)
}

impl Position {
    // Its channel. A position without one is no error, so this is an Option.
    fn channel(self) -> Option<ChannelNumber>
        ensures { result ≡ the_channel self }
    {
        match self {
            Position::First => Some(ChannelNumber::Channel1),
            Position::Second => Some(ChannelNumber::Channel2),
            Position::Third => Some(ChannelNumber::Channel3),
            Position::Fourth => None,
        }
    }

    // Whether this is Initialize for a device without a channel.
    fn lacks_channel(self, function: u32) -> bool
        ensures { result ≡ (without_channel (the_channel self) && the_initializes function) }
    {
        self.channel().is_none() && initializes(function)
    }
}

impl Works {
    // Clears the flags of the internal level, if that is the highest in service.
    fn clear_sensed(&mut self)
        ensures { self.new ≡ cleared_by (highest self.old.service) self.old }
    {
        if let Some(Interrupt::Internal) = self.service.highest() {
            self.flags = Flags::default();
        }
    }

    // The channel of a device that accepted a command: at a head, if one is to be worked through, and idle if the device is at rest.
    fn settle(&mut self, channel: Option<ChannelNumber>, head: Option<u16>, operating: bool)
        ensures { self.new ≡ channel_set channel (is_some head) operating (unwrap_or head 0) self.old }
    {
        let Some(number) = channel else {
            return;
        };
        if let Some(address) = head {
            self.set_channel(number, Channel::Head { address });
        }
        if !operating {
            self.set_channel(number, Channel::Idle);
        }
    }
}

impl<A: ChannelDevice, B: ChannelDevice, C: ChannelDevice, D: Device> Engine<A, B, C, D> {
    // No device, or nothing of the kind in area 0.
    fn nobody(&mut self, at: u16)
        requires small { spent self.old.processor < 2 ^ 30 }
        ensures goes { (core : List ℕ) → Goes A.Device B.Device C.Device D.Device (the_nobody at) self.old core done self.new core }
        ensures within { Within 1 self.old.processor self.new.processor }
    {
        self.processor.raise(By::Program.fault(Cause::NoDevice, at));
    }

    // Sense Interrupt.
    fn sense_interrupt(&mut self)
        ensures goes { (core : List ℕ) → Goes A.Device B.Device C.Device D.Device (the_sense) self.old core done self.new core }
        ensures within { Within 0 self.old.processor self.new.processor }
    {
        let status = self.sensed_status();
        self.processor.works.registers.load(status);
        self.processor.works.clear_sensed();
    }

    // Write to area 0: the masks, once the cycle is told. `high` says which of the two words of masks it is; a method's path in its place would have a clause
    // that speaks of any method, for two.
    fn write_masks(&mut self, core: &mut [u32], address: u16, high: bool)
        requires room { Room (2 ^ 30) self.old.processor core.old }
        ensures goes { Goes A.Device B.Device C.Device D.Device (write_masks high address) self.old core.old done self.new core.new }
        ensures within { Within 8 self.old.processor self.new.processor }
    {
        let word = self.read(core, address);
        if high {
            self.processor.works.masks.write_high(word);
        } else {
            self.processor.works.masks.write_low(word);
        }
    }

    // Read from area 0: the sense switches, in the high byte.
    fn read_switches(&mut self, core: &mut [u32], address: u16)
        requires room { Room (2 ^ 30) self.old.processor core.old }
        ensures goes { Goes A.Device B.Device C.Device D.Device (read_switches address) self.old core.old done self.new core.new }
        ensures within { Within 8 self.old.processor self.new.processor }
    {
        let word = sense_word(self.processor.books.switches);
        self.store(core, address, word);
    }

    // Moves a word, after an accepted Write or Read.
    fn move_word(
        &mut self,
        core: &mut [u32],
        position: Position,
        control: ControlWord,
        address: u16,
    )
        requires room { Room (2 ^ 30) self.old.processor core.old }
        ensures goes { Goes A.Device B.Device C.Device D.Device (the_move position control address) self.old core.old done self.new core.new }
        ensures within { Within 8 self.old.processor self.new.processor }
    {
        match control.function {
            WRITE => {
                let word = self.read(core, address);
                self.put(position, control.area, word);
            }
            READ => {
                let word = self.get(position, control.area);
                self.store(core, address, word);
            }
            _ => {}
        }
    }

    // Sense Device in area 0: the sense switches to A.
    fn sense_switches(&mut self)
        ensures goes { (core : List ℕ) → Goes A.Device B.Device C.Device D.Device (the_switches) self.old core done self.new core }
        ensures within { Within 0 self.old.processor self.new.processor }
    {
        let word = sense_word(self.processor.books.switches);
        self.processor.works.registers.load(word);
    }

    // Control in area 0: drops a level's points.
    fn drop_points(&mut self, level: u32)
        ensures goes { (core : List ℕ) → Goes A.Device B.Device C.Device D.Device (the_drop level done) self.old core done self.new core }
        ensures within { Within 0 self.old.processor self.new.processor }
    {
        self.processor.points.drop_level(level as usize);
    }

    // What the controller itself does for XIO.
    fn area_zero(&mut self, core: &mut [u32], pair: IoPair)
        requires room { Room (2 ^ 30) self.old.processor core.old }
        ensures goes { Goes A.Device B.Device C.Device D.Device (the_zero pair.at pair.address pair.control) self.old core.old done self.new core.new }
        ensures within { Within 8 self.old.processor self.new.processor }
    {
        match (pair.control.function, pair.control.modifier) {
            (WRITE, 0) => self.write_masks(core, pair.address, false),
            (WRITE, 1) => self.write_masks(core, pair.address, true),
            (READ, 2) => self.read_switches(core, pair.address),
            (SENSE_DEVICE, 2) => self.sense_switches(),
            (CONTROL, level) if (level as usize) < LEVELS => self.drop_points(level),
            _ => self.nobody(pair.at),
        }
    }

    // After an accepted command: the device's channel, and the word.
    fn accepted(&mut self, core: &mut [u32], pair: IoPair, position: Position)
        requires room { Room (2 ^ 30) self.old.processor core.old }
        ensures goes { Goes A.Device B.Device C.Device D.Device (the_commanded (makes A.Device B.Device C.Device D.Device) (length core.old) pair.at pair.address pair.control position (Ok tt)) self.old core.old done self.new core.new }
        ensures within { Within 8 self.old.processor self.new.processor }
    {
        let place = place(self.processor.books.size, pair.address);
        let head = initializes(pair.control.function).then_some(place);
        let operating = self.operating(position);
        self.processor
            .works
            .settle(position.channel(), head, operating);
        self.move_word(core, position, pair.control, pair.address);
    }

    // Sense Device: a device's status to A.
    fn sense_device(&mut self, position: Position, control: ControlWord)
        ensures goes { (core : List ℕ) → Goes A.Device B.Device C.Device D.Device (inquire position control.area control.modifier (λ v. act (to_a v) done)) self.old core done self.new core }
        ensures within { Within 0 self.old.processor self.new.processor }
    {
        let status = self.sense(position, control.area, control.modifier);
        self.processor.works.registers.load(status);
    }

    // A device without a channel does not take Initialize, and is not asked.
    fn not_taken(&mut self, position: Position, at: u16)
        requires small { spent self.old.processor < 2 ^ 30 }
        ensures goes { (core : List ℕ) → Goes A.Device B.Device C.Device D.Device (the_refused (makes A.Device B.Device C.Device D.Device) position NotTaken at) self.old core done self.new core }
        ensures within { Within 1 self.old.processor self.new.processor }
    {
        let by = By::Device {
            position,
            kind: self.kind_of(position),
        };
        let cause = Cause::Channel(ChannelFault::Refused(DeviceFault::NotTaken));
        self.processor.raise(by.fault(cause, at));
    }

    // Commands a device, and goes on if it accepts.
    fn order(&mut self, core: &mut [u32], pair: IoPair, position: Position)
        requires room { Room (2 ^ 30) self.old.processor core.old }
        ensures goes { Goes A.Device B.Device C.Device D.Device (the_order position pair.control.area pair.control.function pair.control.modifier (the_commanded (makes A.Device B.Device C.Device D.Device) (length core.old) pair.at pair.address pair.control position)) self.old core.old done self.new core.new }
        ensures within { Within 8 self.old.processor self.new.processor }
    {
        match self.command(position, pair.control, pair.at) {
            Err(fault) => self.processor.raise(fault),
            Ok(()) => self.accepted(core, pair, position),
        }
    }

    // XIO with the device that answers to its area.
    fn with_device(&mut self, core: &mut [u32], pair: IoPair, position: Position)
        requires room { Room (2 ^ 30) self.old.processor core.old }
        ensures goes { Goes A.Device B.Device C.Device D.Device (the_device (makes A.Device B.Device C.Device D.Device) (length core.old) pair.at pair.address pair.control (Some position)) self.old core.old done self.new core.new }
        ensures within { Within 8 self.old.processor self.new.processor }
    {
        match pair.control.function {
            SENSE_DEVICE => self.sense_device(position, pair.control),
            function if position.lacks_channel(function) => self.not_taken(position, pair.at),
            _ => self.order(core, pair, position),
        }
    }

    // XIO by its area.
    fn by_area(&mut self, core: &mut [u32], pair: IoPair)
        requires room { Room (2 ^ 30) self.old.processor core.old }
        ensures goes { Goes A.Device B.Device C.Device D.Device (the_area (makes A.Device B.Device C.Device D.Device) (length core.old) pair.at pair.address pair.control) self.old core.old done self.new core.new }
        ensures within { Within 8 self.old.processor self.new.processor }
    {
        match (pair.control.function, pair.control.area) {
            (SENSE_INTERRUPT, _) => self.sense_interrupt(),
            (_, 0) => self.area_zero(core, pair),
            (_, area) => match self.answering(area) {
                None => self.nobody(pair.at),
                Some(position) => self.with_device(core, pair, position),
            },
        }
    }

    // XIO, once its pair is read.
    pub(crate) fn xio(&mut self, core: &mut [u32], at: u16, address: u16, control: u16)
        requires room { Room (2 ^ 30) self.old.processor core.old }
        ensures goes { Goes A.Device B.Device C.Device D.Device (the_xio (makes A.Device B.Device C.Device D.Device) (length core.old) at address control) self.old core.old done self.new core.new }
        ensures within { Within 8 self.old.processor self.new.processor }
    {
        let pair = IoPair {
            at,
            address,
            control: ControlWord::from(control),
        };
        self.by_area(core, pair);
    }
}
