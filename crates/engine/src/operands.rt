// Effective addresses and operands: what an instruction reads before it does anything.
ghost use Rattle.std.specs.Prelude.{◌<◌, ◌≡◌, ℕ, ◌^◌, length};
ghost use Rattle.instruction.specs.declared.words.Fields.{Fields};
ghost use Rattle.registers.specs.declared.state.Registers.{Registers};
ghost use Rattle.registers.specs.Parts.{with_i};
ghost use Rattle.engine.specs.Machine.{words_of_size};
ghost use Rattle.engine.specs.Plan.{Plan};
ghost use Rattle.engine.specs.Instructions.{advanced, i_set, second as the_second, indirectly, indexed as the_indexed, formed_of, value_of, odd as the_odd, single, double};
ghost use Rattle.engine.specs.Code.{Room, Within, Goes, moved};

use crate::channels::onward;
use crate::engine::Engine;
use crate::references::place;
use crate::state::Processor;
use device::interface::{ChannelDevice, Device};
use instruction::words::{Fields, Index};
use registers::double::double_of;
use registers::state::Registers;

impl Processor {
    // Moves I on by so many words.
    pub fn advance(&mut self, words: u16)
        ensures { self.new ≡ moved (advanced (words_of_size self.old.books.size) words) self.old }
    {
        self.works.registers.i = onward(self.books.size, self.works.registers.i, words);
    }

    // Goes on at an address.
    pub fn jump(&mut self, address: u16)
        ensures { self.new ≡ moved (i_set (words_of_size self.old.books.size) address) self.old }
    {
        self.works.registers.i = place(self.books.size, address);
    }
}

// An offset from the register that a tag names, or from a base where it names none.
pub(crate) fn indexed(registers: &Registers, tag: Option<Index>, base: u16, offset: u16) -> u16
    ensures { result ≡ the_indexed tag base offset registers.now }
{
    match tag {
        Some(x) => registers.index(x).wrapping_add(offset),
        None => base.wrapping_add(offset),
    }
}

// Where the second word of a double operand stands.
pub(crate) fn odd(address: u16) -> u16
    ensures { result ≡ the_odd address }
{
    address / 2 * 2 + 1
}

impl<A: ChannelDevice, B: ChannelDevice, C: ChannelDevice, D: Device> Engine<A, B, C, D> {
    // The second word of a long form.
    pub(crate) fn second(&mut self, core: &mut [u32]) -> u16
        requires room { Room (2 ^ 30) self.old.processor core.old }
        ensures goes { (k : ℕ → Registers → Plan) → Goes A.Device B.Device C.Device D.Device (the_second (length core.old) self.old.processor.works.registers k) self.old core.old (k result self.new.processor.works.registers) self.new core.new }
        ensures moved { self.new.processor.works.registers ≡ advanced (length core.old) 1 self.old.processor.works.registers }
        ensures within { Within 8 self.old.processor self.new.processor }
    {
        let word = self.read(core, self.processor.works.registers.i);
        self.processor.advance(1);
        word
    }

    // An address, or with bit 8 on the word that stands there.
    pub(crate) fn indirect(&mut self, core: &mut [u32], on: bool, address: u16) -> u16
        requires room { Room (2 ^ 30) self.old.processor core.old }
        ensures goes { (k : ℕ → Plan) → Goes A.Device B.Device C.Device D.Device (indirectly on address k) self.old core.old (k result) self.new core.new }
        ensures same { self.new.processor.works.registers ≡ self.old.processor.works.registers }
        ensures within { Within 8 self.old.processor self.new.processor }
    {
        if on {
            self.read(core, address)
        } else {
            address
        }
    }

    // The effective address, from the register that a tag names. The tag is apart from the fields because STX has no index.
    pub(crate) fn effective(&mut self, core: &mut [u32], tag: Option<Index>, fields: &Fields) -> u16
        requires room { Room (2 ^ 29) self.old.processor core.old }
        ensures goes { (k : ℕ → Registers → Plan) → Goes A.Device B.Device C.Device D.Device (formed_of fields.now.long (length core.old) tag fields.now self.old.processor.works.registers k) self.old core.old (k result self.new.processor.works.registers) self.new core.new }
        ensures moved { self.new.processor.works.registers ≡ with_i self.new.processor.works.registers.i self.old.processor.works.registers }
        ensures within { Within 16 self.old.processor self.new.processor }
    {
        if !fields.long {
            let registers = &self.processor.works.registers;
            return indexed(registers, tag, registers.i, fields.displacement);
        }
        let address = self.second(core);
        let direct = indexed(&self.processor.works.registers, tag, 0, address);
        self.indirect(core, fields.indirect, direct)
    }

    // What a short form has in the displacement and a long form in its second word, or at the address there.
    pub(crate) fn value(&mut self, core: &mut [u32], fields: &Fields) -> u16
        requires room { Room (2 ^ 29) self.old.processor core.old }
        ensures goes { (k : ℕ → Registers → Plan) → Goes A.Device B.Device C.Device D.Device (value_of (length core.old) fields.now self.old.processor.works.registers k) self.old core.old (k result self.new.processor.works.registers) self.new core.new }
        ensures moved { self.new.processor.works.registers ≡ with_i self.new.processor.works.registers.i self.old.processor.works.registers }
        ensures within { Within 16 self.old.processor self.new.processor }
    {
        if !fields.long {
            return fields.displacement;
        }
        let address = self.second(core);
        self.indirect(core, fields.indirect, address)
    }
}

// What an operation reads before it works: a word, or two as one number.
pub(crate) trait Fetched: Copy {
    // what any of them is known to keep to, and how a plan reads one
    ghost fits: { Self → Type 0 };

    ghost reads: { ℕ → Fields → Registers → (Self → Plan) → Plan };

    fn fetch<A: ChannelDevice, B: ChannelDevice, C: ChannelDevice, D: Device>(
        engine: &mut Engine<A, B, C, D>,
        core: &mut [u32],
        fields: &Fields,
    ) -> Self
        requires room { Room (2 ^ 29) engine.old.processor core.old }
        ensures goes { (k : Self → Plan) → Goes A.Device B.Device C.Device D.Device (reads (length core.old) fields.now engine.old.processor.works.registers k) engine.old core.old (k result) engine.new core.new }
        ensures fits { fits result }
        ensures moved { engine.new.processor.works.registers ≡ with_i engine.new.processor.works.registers.i engine.old.processor.works.registers }
        ensures within { Within 32 engine.old.processor engine.new.processor };
}

// The word at the effective address.
impl Fetched for u16 {
    ghost fits = { λ v. v < 2 ^ 16 };

    ghost reads = { single };

    fn fetch<A: ChannelDevice, B: ChannelDevice, C: ChannelDevice, D: Device>(
        engine: &mut Engine<A, B, C, D>,
        core: &mut [u32],
        fields: &Fields,
    ) -> u16 {
        let address = engine.effective(core, fields.tag, fields);
        engine.read(core, address)
    }
}

// The words at the effective address and at its odd partner, as one number.
impl Fetched for u32 {
    ghost fits = { λ v. v < 2 ^ 32 };

    ghost reads = { double };

    fn fetch<A: ChannelDevice, B: ChannelDevice, C: ChannelDevice, D: Device>(
        engine: &mut Engine<A, B, C, D>,
        core: &mut [u32],
        fields: &Fields,
    ) -> u32 {
        let address = engine.effective(core, fields.tag, fields);
        let high = engine.read(core, address);
        let low = engine.read(core, odd(address));
        double_of(high, low)
    }
}
