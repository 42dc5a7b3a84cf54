// Work on the registers with an operand from core, and what a comparison skips.
ghost use Rattle.std.specs.Prelude.{ℕ, ◌^◌, List, length};
ghost use Rattle.registers.specs.declared.state.Registers.{Registers};
ghost use Rattle.engine.specs.Machine.{words_of_size};
ghost use Rattle.engine.specs.Plan.{Plan, done};
ghost use Rattle.engine.specs.Instructions.{change, by_comparison};
ghost use Rattle.engine.specs.Code.{Room, Within, Effect, Goes};

use crate::engine::Engine;
use crate::operands::Fetched;
use device::interface::{ChannelDevice, Device};
use instruction::words::Fields;
use registers::state::Registers;
use std::cmp::Ordering;

impl<A: ChannelDevice, B: ChannelDevice, C: ChannelDevice, D: Device> Engine<A, B, C, D> {
    // Has the registers do some work with an operand: what the work answers.
    pub(crate) fn with_operand<N: Fetched, T, F: FnOnce(&mut Registers, N) -> T>(
        &mut self,
        core: &mut [u32],
        fields: &Fields,
        work: F,
    ) -> T
        requires room { Room (2 ^ 29) self.old.processor core.old }
        requires takes { F.IsAlwaysCallable work }
        ensures goes { (f : N → Registers → Registers) (g : N → T) (k : T → Plan) → Effect N.fits (F.post work) self.old.processor.works.registers f g → Goes A.Device B.Device C.Device D.Device (N.reads (length core.old) fields.now self.old.processor.works.registers (λ v. change (f v) (k (g v)))) self.old core.old (k result) self.new core.new }
        ensures within { Within 32 self.old.processor self.new.processor }
    {
        let operand = N::fetch(self, core, fields);
        work(&mut self.processor.works.registers, operand)
    }

    // A comparison skips no word if greater, one if less, two if the same.
    pub(crate) fn skip_by(&mut self, comparison: Ordering)
        ensures goes { (u : List ℕ) → Goes A.Device B.Device C.Device D.Device (by_comparison (words_of_size self.old.processor.books.size) comparison) self.old u done self.new u }
        ensures within { Within 0 self.old.processor self.new.processor }
    {
        match comparison {
            Ordering::Greater => {}
            Ordering::Less => self.processor.advance(1),
            Ordering::Equal => self.processor.advance(2),
        }
    }
}
