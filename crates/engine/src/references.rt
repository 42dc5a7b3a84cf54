// References to core, for the program and for devices.
ghost use Rattle.std.specs.Prelude.{◌≡◌, ◌%◌, ◌^◌, ◌<◌, length, slice_index};
ghost use Rattle.storage.specs.Word.{data_of as the_data};
ghost use Rattle.engine.specs.Machine.{words_of_size};
ghost use Rattle.engine.specs.Cycle.{reading, storing, marking};
ghost use Rattle.engine.specs.Code.{Room, Fits, Refers, Keeps};
ghost use Rattle.engine.specs.declared.place.By.{By};

use crate::place::By;
use crate::state::Processor;
use storage::memory::CoreSize;
use storage::word::{data_of, is_protected, parity_is_right, stored, word_of};

// An address modulo the core's size. The remainder by a literal is a mask.
pub fn place(size: CoreSize, address: u16) -> u16
    ensures is { result ≡ address % words_of_size size }
    ensures below { result < words_of_size size }
{
    match size {
        CoreSize::Words4096 => address % 4096,
        CoreSize::Words8192 => address % 8192,
        CoreSize::Words16384 => address % 16384,
        CoreSize::Words32768 => address % 32768,
    }
}

impl Processor {
    // Reads a word: its data, and a parity check if parity is wrong.
    pub(crate) fn read_word(&mut self, core: &[u32], by: By, address: u16) -> u16
        requires room { Room (2 ^ 31) self.old core.now }
        ensures word { result ≡ the_data (slice_index core.now (address % length core.now)) }
        ensures after { Refers by (reading address) self.old core.now self.new core.now }
        ensures keeps { Keeps 1 self.old self.new }
    {
        let at = place(self.books.size, address);
        let word = core[usize::from(at)];
        if parity_is_right(word) {
            return data_of(word);
        }
        self.raise(by.fault(by.parity_cause(), at));
        data_of(word)
    }

    // Stores data, with the old protect bit; into a protected word it is dropped, with a protect check.
    pub(crate) fn store_word(&mut self, core: &mut [u32], by: By, address: u16, value: u16)
        requires room { Room (2 ^ 31) self.old core.old }
        ensures after { Refers by (storing address value) self.old core.old self.new core.new }
        ensures keeps { Keeps 1 self.old self.new }
    {
        let at = place(self.books.size, address);
        let index = usize::from(at);
        let word = core[index];
        if is_protected(word) {
            self.raise(by.fault(by.protect_cause(), at));
        } else {
            core[index] = stored(word, value);
        }
    }

    // Stores data with a new protect bit, with the write-protect switch at Yes.
    pub(crate) fn mark_word(&mut self, core: &mut [u32], address: u16, on: bool, value: u16)
        requires fits { Fits self.old core.old }
        ensures after { (by : By) → Refers by (marking address on value) self.old core.old self.new core.new }
        ensures same { self.new ≡ self.old }
    {
        if self.books.switches.write_protect {
            core[usize::from(place(self.books.size, address))] = word_of(value, on);
        }
    }
}
