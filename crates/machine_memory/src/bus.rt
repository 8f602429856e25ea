//! What the hart stands on: memory, and the choice of an interrupt line.
ghost use Rattle.std.specs.Prelude.{◌≡◌, ◌<◌, true, false, None, Some, IfOk, IfErr, OnOk, OnErr, IsTrue};
ghost use Rattle.std.specs.Option.{ForSome};
ghost use Rattle.sloth_base.specs.Choose.{IsChosen};
ghost use Rattle.sloth_base.specs.Take.{without_pending};
ghost use Rattle.rv32_instr.specs.Memory.{Memory, refusal, loaded_number, stored_memory};
ghost use Rattle.rv32_instr.specs.Table.{Decode};
ghost use Rattle.machine_memory.specs.Choice.{choice};
ghost use Rattle.sloth_base.specs.declared.app.Width.TheVariants as kind;
ghost use Rattle.sloth_base.specs.MemoryMap.{line_count};

use rv32_instr::{Bad, Instr};
use sloth_base::{Line, Width};

/// Memory as loads and stores see it, with an interrupt controller or without one.
pub trait Bus {
    ghost memory: { Self → Memory };

    /// The bytes of an access; `Byte` and `Half` extend the sign. Nothing changes.
    fn load(&mut self, address: u32, width: Width) -> Result<u32, Bad>
        ensures ok { IfOk result (λ value. (refusal (memory self.old) address width ≡ None)
            × (value ≡ loaded_number (memory self.old) address width)) }
        ensures err { IfErr result (λ reason. refusal (memory self.old) address width ≡ Some reason) }
        ensures byte { IfOk result (λ value. width ≡ kind.ByteU → value < 256) }
        ensures same { memory self.new ≡ memory self.old };

    /// The instruction whose word stands at an address; none, where that word is none's. Nothing changes.
    fn fetch(&mut self, address: u32) -> Result<Option<Instr>, Bad>
        ensures ok { IfOk result (λ instr. (refusal (memory self.old) address kind.Word ≡ None)
            × (instr ≡ Decode (loaded_number (memory self.old) address kind.Word))) }
        ensures err { IfErr result (λ reason. refusal (memory self.old) address kind.Word ≡ Some reason) }
        ensures same { memory self.new ≡ memory self.old };

    /// Writes the low bytes of a value. A pending or enable byte keeps 1 for a value that isn't zero.
    fn store(&mut self, address: u32, width: Width, value: u32) -> Result<(), Bad>
        ensures ok { OnOk result ((refusal (memory self.old) address width ≡ None)
            × (memory self.new ≡ stored_memory (memory self.old) address width value)) }
        ensures err { IfErr result (λ reason. refusal (memory self.old) address width ≡ Some reason) }
        ensures same { OnErr result (memory self.new ≡ memory self.old) };

    /// The line to be taken where this level runs. Without a controller there is none.
    fn choose(&self, level: u8) -> Option<Line>
        ensures is { result ≡ choice (memory self.now) level }
        ensures chosen { IsTrue (memory self.now).controller → IsChosen (memory self.now).lines level result }
        ensures there { ForSome result (λ line. (line < line_count) × ((memory self.now).controller ≡ true)) };

    /// The line is no longer pending, where there is a controller.
    fn take(&mut self, line: Line)
        requires { line < line_count }
        ensures there { (memory self.old).controller ≡ true → memory self.new
            ≡ record (memory self.old) { lines = without_pending line (memory self.old).lines } }
        ensures not_there { (memory self.old).controller ≡ false → memory self.new ≡ memory self.old };
}
