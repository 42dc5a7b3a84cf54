// LDX, STX and MDX. The tag names the register that they work on, and none names I.
ghost use Rattle.std.specs.Prelude.{◌≡◌, ℕ, ◌^◌, length, if◌then◌else◌, Some};
ghost use Rattle.instruction.specs.declared.words.Operation.TheVariants.{LoadIndex, StoreIndex, ModifyIndex};
ghost use Rattle.engine.specs.Machine.{words_of_size};
ghost use Rattle.engine.specs.Plan.{done};
ghost use Rattle.engine.specs.Instructions.{advanced, loaded, named as the_named, modify as the_modify, second as the_second, modify_memory};
ghost use Rattle.engine.specs.Code.{Room, Within, Goes, Operates, moved};

use crate::engine::Engine;
use crate::state::Processor;
use device::interface::{ChannelDevice, Device};
use instruction::words::{Fields, Index};
use registers::branches::modify;
use registers::state::Registers;

fn named(registers: &Registers, tag: Option<Index>) -> u16
    ensures { result ≡ the_named tag registers.now }
{
    match tag {
        Some(x) => registers.index(x),
        None => registers.i,
    }
}

impl Processor {
    fn load_named(&mut self, tag: Option<Index>, value: u16)
        ensures { self.new ≡ moved (loaded (words_of_size self.old.books.size) tag value) self.old }
    {
        match tag {
            Some(x) => self.works.registers.load_index(x, value),
            None => self.jump(value),
        }
    }

    fn skip_if(&mut self, on: bool)
        ensures { self.new ≡ (if on then moved (advanced (words_of_size self.old.books.size) 1) self.old else self.old) }
    {
        if on {
            self.advance(1);
        }
    }
}

impl<A: ChannelDevice, B: ChannelDevice, C: ChannelDevice, D: Device> Engine<A, B, C, D> {
    // LDX
    pub(crate) fn load_index(&mut self, core: &mut [u32], fields: &Fields)
        requires room { Room (2 ^ 29) self.old.processor core.old }
        ensures goes { (w : ℕ) → Operates A.Device B.Device C.Device D.Device LoadIndex fields.now w self.old core.old self.new core.new }
        ensures within { Within 64 self.old.processor self.new.processor }
    {
        let value = self.value(core, fields);
        self.processor.load_named(fields.tag, value);
    }

    // STX
    pub(crate) fn store_index(&mut self, core: &mut [u32], fields: &Fields)
        requires room { Room (2 ^ 29) self.old.processor core.old }
        ensures goes { (w : ℕ) → Operates A.Device B.Device C.Device D.Device StoreIndex fields.now w self.old core.old self.new core.new }
        ensures within { Within 64 self.old.processor self.new.processor }
    {
        let address = self.effective(core, None, fields);
        let value = named(&self.processor.works.registers, fields.tag);
        self.store(core, address, value);
    }

    // MDX, of an index register.
    fn modify_register(&mut self, core: &mut [u32], x: Index, fields: &Fields)
        requires room { Room (2 ^ 29) self.old.processor core.old }
        ensures goes { Goes A.Device B.Device C.Device D.Device (the_modify (length core.old) (Some x) fields.now self.old.processor.works.registers) self.old core.old done self.new core.new }
        ensures within { Within 16 self.old.processor self.new.processor }
    {
        let by = self.value(core, fields);
        let skip = self.processor.works.registers.modify_index(x, by);
        self.processor.skip_if(skip);
    }

    // MDX, of a word of core.
    fn modify_word(&mut self, core: &mut [u32], fields: &Fields)
        requires room { Room (2 ^ 29) self.old.processor core.old }
        ensures goes { Goes A.Device B.Device C.Device D.Device (the_second (length core.old) self.old.processor.works.registers (λ address r. modify_memory (length core.old) fields.now address)) self.old core.old done self.new core.new }
        ensures within { Within 24 self.old.processor self.new.processor }
    {
        let address = self.second(core);
        let old = self.read(core, address);
        let modified = modify(old, fields.displacement);
        self.store(core, address, modified.word);
        self.processor.skip_if(modified.skip);
    }

    // MDX. Of I, in the short form with no tag, it never skips.
    pub(crate) fn modify_index(&mut self, core: &mut [u32], fields: &Fields)
        requires room { Room (2 ^ 29) self.old.processor core.old }
        ensures goes { (w : ℕ) → Operates A.Device B.Device C.Device D.Device ModifyIndex fields.now w self.old core.old self.new core.new }
        ensures within { Within 64 self.old.processor self.new.processor }
    {
        match fields.tag {
            Some(x) => self.modify_register(core, x, fields),
            None => {
                if fields.long {
                    self.modify_word(core, fields);
                } else {
                    self.processor.works.registers.modify_i(fields.displacement);
                    let i = self.processor.works.registers.i;
                    self.processor.jump(i);
                }
            }
        }
    }
}
