// Calls of the console that a stopped machine takes: I and words of core, loaded, shown, cleared and searched.
ghost use Rattle.std.specs.Prelude.{◌≡◌, ◌%◌, ◌<◌, map};
ghost use Rattle.engine.specs.Machine.{words_of_size};
ghost use Rattle.controller.specs.declared.call.Call.TheVariants.{LoadI, Load, Display, Clear, Search};
ghost use Rattle.controller.specs.Held.{plainly, displayed, searched, wiped, MakesCall};

use crate::call::ClearMode;
use crate::controller::Controller;
use device::interface::{ChannelDevice, Device};
use engine::references::place;
use refusal::Refusal;
use storage::memory::first_wrong_parity;
use storage::word::{data_of, is_protected, stored, word_of};
use works::panel::Switches;

// What a word's eighteen bits are below. The bits that a host keeps above them are not shown.
const BEYOND: u32 = 262_144;

// A word as clear leaves it. With the write-protect switch at No a protected word stays, and no protect bit changes.
fn cleared_word(mode: ClearMode, switches: Switches, word: u32) -> u32
    ensures { result ≡ wiped mode switches word }
{
    match mode {
        ClearMode::Run if switches.write_protect || !is_protected(word) => {
            word_of(switches.data, false)
        }
        ClearMode::Display if switches.write_protect => word_of(data_of(word), false),
        ClearMode::Run | ClearMode::Display => word,
    }
}

// Every word, as clear leaves it.
fn clear_words(core: &mut [u32], mode: ClearMode, switches: Switches)
    ensures { core.new ≡ map (wiped mode switches) core.old }
{
    for word in core.iter_mut() {
        *word = cleared_word(mode, switches, *word);
    }
}

impl<A: ChannelDevice, B: ChannelDevice, C: ChannelDevice, D: Device> Controller<A, B, C, D> {
    // The place of the word that I names.
    fn at_i(&self) -> usize
        ensures is { result ≡ self.now.engine.processor.works.registers.i % words_of_size self.now.engine.processor.books.size }
        ensures below { result < words_of_size self.now.engine.processor.books.size }
    {
        let processor = &self.engine.processor;
        usize::from(place(processor.books.size, processor.works.registers.i))
    }

    // Sets I by the data switches.
    pub fn load_i(&mut self, core: &[u32]) -> Result<(), Refusal>
        ensures { MakesCall A.Device B.Device C.Device D.Device LoadI self.old core.now self.new core.now (plainly result) }
    {
        self.check_lent(core)?;
        self.check_stopped()?;
        let processor = &mut self.engine.processor;
        processor.jump(processor.books.switches.data);
        Ok(())
    }

    // Stores the data switches at I, unless the word there is protected. I is then one more.
    pub fn load(&mut self, core: &mut [u32]) -> Result<(), Refusal>
        ensures { MakesCall A.Device B.Device C.Device D.Device Load self.old core.old self.new core.new (plainly result) }
    {
        self.check_lent(core)?;
        self.check_stopped()?;
        let at = self.at_i();
        let word = core[at];
        if is_protected(word) {
            return Err(Refusal::Protected);
        }
        core[at] = stored(word, self.engine.processor.books.switches.data);
        self.engine.processor.advance(1);
        Ok(())
    }

    // The word at I, its parity unchecked. I is then one more.
    pub fn display(&mut self, core: &[u32]) -> Result<u32, Refusal>
        ensures { MakesCall A.Device B.Device C.Device D.Device Display self.old core.now self.new core.now (displayed result) }
    {
        self.check_lent(core)?;
        self.check_stopped()?;
        let word = core[self.at_i()] % BEYOND;
        self.engine.processor.advance(1);
        Ok(word)
    }

    // Told Run, it stores the data switches everywhere; told Display, it takes the protection off every word.
    pub fn clear(&mut self, core: &mut [u32], mode: ClearMode) -> Result<(), Refusal>
        ensures { MakesCall A.Device B.Device C.Device D.Device (Clear mode) self.old core.old self.new core.new (plainly result) }
    {
        self.check_lent(core)?;
        self.check_stopped()?;
        clear_words(core, mode, self.engine.processor.books.switches);
        Ok(())
    }

    // Searches core for wrong parity, from the lowest address up.
    pub fn search(&self, core: &[u32]) -> Result<Option<usize>, Refusal>
        ensures { MakesCall A.Device B.Device C.Device D.Device Search self.now core.now self.now core.now (searched result) }
    {
        self.check_lent(core)?;
        self.check_stopped()?;
        Ok(first_wrong_parity(core))
    }
}
