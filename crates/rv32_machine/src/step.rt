//! One step of the machine.
ghost use Rattle.std.specs.Prelude.{◌≡◌, ◌<◌, ◌+◌, ◌%◌, OnOk, OnErr, IfOk, IfErr, true, false, slice_index};
ghost use Rattle.std.specs.Option.{ForSome};
ghost use Rattle.sloth_base.specs.Take.{take, entry_state, execution_state, line_to_take};
ghost use Rattle.sloth_base.specs.Limits.{count_limit};
ghost use Rattle.sloth_base.specs.MemoryMap.{line_count};
ghost use Rattle.rv32_instr.specs.Memory.{in_ram};
ghost use Rattle.rv32_instr.specs.Ram.{word_at};
ghost use Rattle.rv32_instr.specs.Table.{Decode};
ghost use Rattle.rv32_instr.specs.Execute.{Going, Stopped, step, touched, touched_line_by, pending_line, word_at_pc};
ghost use Rattle.rv32_instr.specs.declared.encoding.Stop.TheVariants as stop;
ghost use Rattle.rv32_machine.specs.Advance.{advance, blank_step, step_of, Goes, Halts};

use crate::Machine;
use crate::effect::effect;
use crate::machine::Hart;
use machine_memory::{Bus, vector};
use rv32_instr::{Effect, Instr, Stop};
use sloth_base::{CONTROLLER_BASE, LEVELS_OFFSET, LINE_COUNT, Line, MEMORY_BASE, Step, Width};

/// The first level byte of the controller.
const LEVELS: u32 = CONTROLLER_BASE + LEVELS_OFFSET as u32;

/// What is seen of a step but what it leaves: MIE, the first word of memory and the registers after the instruction.
#[derive(Clone, Copy)]
pub struct StepFront {
    pub count: u32,
    pub pc: u32,
    pub entered: Option<Line>,
    pub enabled_before: bool,
    pub cur_before: u32,
    pub touched: Option<Line>,
}

/// The record of a step before one is written into it.
pub fn blank_step() -> Step
    ensures { result ≡ blank_step }
{
    Step {
        count: 0,
        pc: 0,
        entered: None,
        enabled_before: false,
        enabled_after: false,
        cur_before: 0,
        cur_after: 0,
        touched: None,
        regs: [0; 32],
    }
}

/// The line whose pending byte an effect loads, or sets to zero by a store.
#[inline(always)]
#[tactic(auto, using(std::proofs::lemmas::Bool::Decides::nat_tests), unfolding(rv32_instr::specs::Execute::touched_line_by))]
fn touched(effect: &Effect) -> Option<Line>
    ensures is { result ≡ touched_line_by effect.now }
    ensures in_range { ForSome result (λ line. line < line_count) }
{
    match effect {
        Effect::Load { address, .. } => pending_line(*address),
        Effect::Store { address, value, .. } => {
            if *value % 256 == 0 {
                pending_line(*address)
            } else {
                None
            }
        }
        Effect::Nothing
        | Effect::Write { .. }
        | Effect::Branch { .. }
        | Effect::Jump { .. }
        | Effect::Csr { .. }
        | Effect::Environment
        | Effect::Return => None,
    }
}

/// The line that an address is the pending byte of.
#[inline(always)]
#[tactic(auto, using(std::proofs::lemmas::Bool::Decides::nat_tests))]
pub fn pending_line(address: u32) -> Option<Line>
    ensures is { result ≡ pending_line address }
    ensures in_range { ForSome result (λ line. line < line_count) }
{
    if CONTROLLER_BASE <= address && address < CONTROLLER_BASE + LINE_COUNT as u32 {
        Some(Line((address - CONTROLLER_BASE) as u8))
    } else {
        None
    }
}

impl<B: Bus> Machine<B> {
    ghost use Rattle.rv32_machine.specs.State.{state, state_of, pending_memory};

    /// One step: at most one line is taken, then one instruction is executed. A stop changes nothing.
    pub fn step(&mut self) -> Result<Step, Stop>
        requires { self.old.count < count_limit }
        ensures ok { IfOk result (λ shown. advance self.old.count (state B.memory self.old)
            ≡ Goes shown (state B.memory self.new)) }
        ensures err { IfErr result (λ stop. advance self.old.count (state B.memory self.old) ≡ Halts stop) }
        ensures same { OnErr result (state B.memory self.new ≡ state B.memory self.old) }
        ensures count { OnOk result (self.new.count ≡ self.old.count + 1) }
        ensures stays { OnErr result (self.new.count ≡ self.old.count) }
        ensures shown { IfOk result (λ shown. shown.count ≡ self.old.count) }
        ensures entered { IfOk result (λ shown. ForSome shown.entered (λ line. line < line_count)) }
        ensures touched { IfOk result (λ shown. ForSome shown.touched (λ line. line < line_count)) }
    {
        let mut shown = blank_step();
        match self.step_into(&mut shown) {
            Ok(()) => Ok(shown),
            Err(stop) => Err(stop),
        }
    }

    /// The same, written into a record that is lent. A stop leaves any record there.
    #[inline(always)]
    pub fn step_into(&mut self, shown: &mut Step) -> Result<(), Stop>
        requires { self.old.count < count_limit }
        ensures ok { OnOk result (advance self.old.count (state B.memory self.old)
            ≡ Goes shown.new (state B.memory self.new)) }
        ensures err { IfErr result (λ stop. advance self.old.count (state B.memory self.old) ≡ Halts stop) }
        ensures same { OnErr result (state B.memory self.new ≡ state B.memory self.old) }
        ensures count { OnOk result (self.new.count ≡ self.old.count + 1) }
        ensures stays { OnErr result (self.new.count ≡ self.old.count) }
        ensures shown { OnOk result (shown.new.count ≡ self.old.count) }
        ensures entered { OnOk result (ForSome shown.new.entered (λ line. line < line_count)) }
        ensures touched { OnOk result (ForSome shown.new.touched (λ line. line < line_count)) }
    {
        match self.step_front() {
            Ok(front) => {
                self.show(&front, shown);
                Ok(())
            }
            Err(stop) => Err(stop),
        }
    }

    /// One step, of which the front is told: what it leaves is there to be read. A stop changes nothing.
    #[inline(always)]
    pub fn step_front(&mut self) -> Result<StepFront, Stop>
        requires { self.old.count < count_limit }
        ensures ok { IfOk result (λ front. advance self.old.count (state B.memory self.old)
            ≡ Goes (step_of front (state B.memory self.new)) (state B.memory self.new)) }
        ensures err { IfErr result (λ stop. advance self.old.count (state B.memory self.old) ≡ Halts stop) }
        ensures same { OnErr result (state B.memory self.new ≡ state B.memory self.old) }
        ensures count { OnOk result (self.new.count ≡ self.old.count + 1) }
        ensures stays { OnErr result (self.new.count ≡ self.old.count) }
        ensures shown { IfOk result (λ front. front.count ≡ self.old.count) }
        ensures entered { IfOk result (λ front. ForSome front.entered (λ line. line < line_count)) }
        ensures touched { IfOk result (λ front. ForSome front.touched (λ line. line < line_count)) }
    {
        let count = self.count;
        let enabled_before = self.hart.mie;
        let cur_before = self.cur();
        let entered = self.line_to_take();
        let pc = self.pc_after(&entered);
        match self.execute_after(&entered) {
            Ok(touched) => {
                self.count += 1;
                Ok(StepFront {
                    count,
                    pc,
                    entered,
                    enabled_before,
                    cur_before,
                    touched,
                })
            }
            Err(stop) => Err(stop),
        }
    }

    /// The record of a step of this front that left the machine as it is.
    pub fn show(&mut self, front: &StepFront, shown: &mut Step)
        ensures shown { shown.new ≡ step_of front.now (state B.memory self.old) }
        ensures state { state B.memory self.new ≡ state B.memory self.old }
        ensures count { self.new.count ≡ self.old.count }
    {
        let cur_after = self.cur();
        shown.count = front.count;
        shown.pc = front.pc;
        shown.entered = front.entered;
        shown.enabled_before = front.enabled_before;
        shown.enabled_after = self.hart.mie;
        shown.cur_before = front.cur_before;
        shown.cur_after = cur_after;
        shown.touched = front.touched;
        shown.regs = self.hart.registers;
    }

    /// The address of the next instruction: a line's vector, where one is to be taken before it.
    pub fn next_pc(&self) -> u32
        ensures { result ≡ (execution_state (state B.memory self.now)).pc }
    {
        self.pc_after(&self.line_to_take())
    }

    /// The address of the next instruction, once this line is taken.
    fn pc_after(&self, line: &Option<Line>) -> u32
        requires { ForSome line.now (λ l. l < line_count) }
        ensures { result ≡ (entry_state line.now (state B.memory self.now)).pc }
    {
        match line {
            Some(line) => vector(*line),
            None => self.hart.pc,
        }
    }

    /// The word at 0x80000000.
    fn cur(&mut self) -> u32
        ensures is { result ≡ word_at (state B.memory self.old).core.ram 0 }
        ensures state { state B.memory self.new ≡ state B.memory self.old }
        ensures hart { self.new.hart ≡ self.old.hart }
        ensures count { self.new.count ≡ self.old.count }
    {
        match self.bus.load(MEMORY_BASE, Width::Word) {
            Ok(word) => word,
            Err(_) => unreachable!(),
        }
    }

    /// The line that is taken before the next instruction.
    #[tactic(auto, unfolding(sloth_base::specs::Choose::choose))]
    pub fn line_to_take(&self) -> Option<Line>
        ensures is { result ≡ line_to_take (state B.memory self.now) }
        ensures there { ForSome result (λ line. (line < line_count)
            × ((state B.memory self.now).core.controller ≡ true)) }
        ensures pending { ForSome result (λ line. slice_index (state B.memory self.now).core.pending line ≡ 1) }
    {
        if self.hart.mie {
            self.bus.choose(self.hart.ilevel)
        } else {
            None
        }
    }

    /// Takes a line, if there is one, then executes an instruction. A stop changes nothing.
    #[inline(always)]
    fn execute_after(&mut self, line: &Option<Line>) -> Result<Option<Line>, Stop>
        requires there { ForSome line.now (λ l. (l < line_count) × ((state B.memory self.old).core.controller ≡ true)) }
        requires pending { ForSome line.now (λ l. slice_index (state B.memory self.old).core.pending l ≡ 1) }
        ensures ok { IfOk result (λ touch. step (entry_state line.now (state B.memory self.old))
            ≡ Going (state B.memory self.new)) }
        ensures touched { IfOk result (λ touch. touch ≡ touched (entry_state line.now (state B.memory self.old))) }
        ensures err { IfErr result (λ stop. step (entry_state line.now (state B.memory self.old)) ≡ Stopped stop) }
        ensures same { OnErr result (state B.memory self.new ≡ state B.memory self.old) }
        ensures count { self.new.count ≡ self.old.count }
        ensures in_range { IfOk result (λ touch. ForSome touch (λ l. l < line_count)) }
    {
        match line {
            Some(line) => self.execute_taken(*line),
            None => self.execute(),
        }
    }

    /// Takes a line, then executes an instruction. A stop gives the line back.
    #[inline(never)]
    fn execute_taken(&mut self, line: Line) -> Result<Option<Line>, Stop>
        requires in_range { line < line_count }
        requires there { (state B.memory self.old).core.controller ≡ true }
        requires pending { slice_index (state B.memory self.old).core.pending line ≡ 1 }
        ensures ok { IfOk result (λ touch. step (take line (state B.memory self.old))
            ≡ Going (state B.memory self.new)) }
        ensures touched { IfOk result (λ touch. touch ≡ touched (take line (state B.memory self.old))) }
        ensures err { IfErr result (λ stop. step (take line (state B.memory self.old)) ≡ Stopped stop) }
        ensures same { OnErr result (state B.memory self.new ≡ state B.memory self.old) }
        ensures count { self.new.count ≡ self.old.count }
        ensures touched_in_range { IfOk result (λ touch. ForSome touch (λ l. l < line_count)) }
    {
        let before = self.hart;
        self.take(line);
        match self.execute() {
            Ok(touched) => Ok(touched),
            Err(stop) => {
                self.restore(before, line);
                Err(stop)
            }
        }
    }

    /// Takes a line: its vector comes next.
    fn take(&mut self, line: Line)
        requires in_range { line < line_count }
        requires there { (state B.memory self.old).core.controller ≡ true }
        ensures state { state B.memory self.new ≡ take line (state B.memory self.old) }
        ensures count { self.new.count ≡ self.old.count }
    {
        let level = self.level_of(line);
        self.bus.take(line);
        self.hart.mepc = self.hart.pc;
        self.hart.plevel = self.hart.ilevel;
        self.hart.ilevel = level;
        self.hart.mpie = self.hart.mie;
        self.hart.mie = false;
        self.hart.pc = vector(line);
    }

    /// The level byte of a line.
    pub fn level_of(&mut self, line: Line) -> u8
        requires in_range { line < line_count }
        requires there { (state B.memory self.old).core.controller ≡ true }
        ensures is { result ≡ slice_index (state B.memory self.old).core.levels line }
        ensures state { state B.memory self.new ≡ state B.memory self.old }
        ensures hart { self.new.hart ≡ self.old.hart }
        ensures count { self.new.count ≡ self.old.count }
    {
        match self.bus.load(LEVELS + u32::from(line.0), Width::ByteU) {
            Ok(level) => level as u8,
            Err(_) => unreachable!(),
        }
    }

    /// Undoes the entry of a line.
    fn restore(&mut self, before: Hart, line: Line)
        requires aligned { before.pc % 4 ≡ 0 }
        requires returns_aligned { before.mepc % 4 ≡ 0 }
        requires in_range { line < line_count }
        requires there { (state B.memory self.old).core.controller ≡ true }
        ensures state { state B.memory self.new ≡ state_of before (pending_memory line (B.memory self.old.bus)) }
        ensures count { self.new.count ≡ self.old.count }
    {
        self.hart = before;
        match self
            .bus
            .store(CONTROLLER_BASE + u32::from(line.0), Width::Byte, 1)
        {
            Ok(()) => {}
            Err(_) => unreachable!(),
        }
    }

    /// Fetches, decodes and executes an instruction, and tells the line that it touched.
    #[inline(always)]
    fn execute(&mut self) -> Result<Option<Line>, Stop>
        ensures ok { IfOk result (λ line. step (state B.memory self.old) ≡ Going (state B.memory self.new)) }
        ensures touched { IfOk result (λ line. line ≡ touched (state B.memory self.old)) }
        ensures err { IfErr result (λ stop. step (state B.memory self.old) ≡ Stopped stop) }
        ensures same { OnErr result (state B.memory self.new ≡ state B.memory self.old) }
        ensures count { self.new.count ≡ self.old.count }
        ensures in_range { IfOk result (λ line. ForSome line (λ l. l < line_count)) }
    {
        let instr = match self.fetch() {
            Ok(Some(instr)) => instr,
            Ok(None) => return Err(Stop::Illegal(self.word())),
            Err(stop) => return Err(stop),
        };
        let effect = effect(instr.kind(), self.hart.pc, &self.hart.registers);
        let line = touched(&effect);
        match self.perform(effect, &instr) {
            Ok(()) => Ok(line),
            Err(stop) => Err(stop),
        }
    }

    /// The instruction that pc points to, if the word there is one's.
    fn fetch(&mut self) -> Result<Option<Instr>, Stop>
        ensures ok { IfOk result (λ instr. (in_ram (state B.memory self.old).pc 4 ≡ true)
            × (instr ≡ Decode (word_at_pc (state B.memory self.old)))) }
        ensures err { IfErr result (λ reason. (in_ram (state B.memory self.old).pc 4 ≡ false)
            × (reason ≡ stop.Fetch (state B.memory self.old).pc)) }
        ensures state { state B.memory self.new ≡ state B.memory self.old }
        ensures hart { self.new.hart ≡ self.old.hart }
        ensures count { self.new.count ≡ self.old.count }
    {
        let pc = self.hart.pc;
        match self.bus.fetch(pc) {
            Ok(instr) => Ok(instr),
            Err(_) => Err(Stop::Fetch(pc)),
        }
    }

    /// The word that pc points to, where it is in RAM.
    #[inline(never)]
    fn word(&mut self) -> u32
        requires { in_ram (state B.memory self.old).pc 4 ≡ true }
        ensures is { result ≡ word_at_pc (state B.memory self.old) }
        ensures state { state B.memory self.new ≡ state B.memory self.old }
        ensures count { self.new.count ≡ self.old.count }
    {
        match self.bus.load(self.hart.pc, Width::Word) {
            Ok(word) => word,
            Err(_) => unreachable!(),
        }
    }
}
