//! The machine: its start, and the blocks that it is given.

ghost use Rattle.std.specs.Prelude.{◌≡◌, ℕ, ◌<◌, ◌^◌, false, slice_index, IfOk, OnOk, OnErr};
ghost use Rattle.image_map.specs.declared.image.Image.{Image};
ghost use Rattle.image_map.specs.Whole.{IsImage};
ghost use Rattle.ia32_semantics.specs.Operands.{is_set as is_set_spec};
ghost use Rattle.ia32_semantics.specs.Outcome.{IsBlock};
ghost use Rattle.ia32_semantics.specs.CallModel.{IsStart};
ghost use Rattle.ia32_memory.specs.Mapped.{is_in_first};
ghost use Rattle.ia32_machine.specs.Machines.{state_of, start_state, RunsImage, HasWords, IsStartMemory, with_new_block};
ghost use Rattle.ia32_machine.specs.Opens.{KnowsOpen};

use ia32_memory::Memory;
use ia32_plan::Core;
use ia32_semantics::{Allocation, Flags};
use ia32_types::Width;
use image_map::{Activation, Block, Image, Settings};
use std::alloc::{AllocError, Global};

/// The address of the entry's return slot: 4 below a multiple of 16.
const ENTRY_SLOT: u32 = 0xBFF0_000C;

/// The address to which the entry's return goes. Nothing stands there.
const HALT: u32 = 0xFFFF_0000;

/// A machine that runs an image. A byte that may be any holds 0.
#[derive(Drop)]
pub struct Machine {
    pub core: Core,
    /// The calls that haven't returned, the entry's first.
    pub frames: Vec<Activation>,
    /// The blocks that it was given, the oldest first.
    pub blocks: Vec<Block>,
    /// The calls that asked for a block, the oldest first.
    pub allocs: Vec<Allocation>,
    /// The address of the entry's return slot.
    pub slot: u32,
}

/// Whether a word of choice sets a flag: its bit 16.
fn is_set(word: u32) -> bool
    ensures { result ≡ is_set_spec word }
{
    word / 65_536 % 2 == 1
}

/// Each register is a word of 32 bits.
fn registers_are_words(regs: &[u32])
    ensures { (n : ℕ) → slice_index regs.now n < 2 ^ 32 }
{}

/// The core in which a run starts, before its memory has the return word.
fn start_core(entry: u32, words: &[u32; 12], memory: Memory) -> Core
    ensures words { HasWords words.now result }
    ensures sized { (n : ℕ) → slice_index result.regs n < 2 ^ 32 }
    ensures eip { result.eip ≡ entry }
    ensures df { result.df ≡ false }
    ensures memory { result.memory ≡ memory }
{
    let [eax, ecx, edx, ebx, ebp, esi, edi, cf, pf, zf, sf, of] = *words;
    let regs = [eax, ecx, edx, ebx, ENTRY_SLOT, ebp, esi, edi];
    registers_are_words(&regs);
    Core {
        regs,
        flags: Flags {
            cf: is_set(cf),
            pf: is_set(pf),
            zf: is_set(zf),
            sf: is_set(sf),
            of: is_set(of),
        },
        df: false,
        eip: entry,
        memory,
    }
}

/// The memory in which a run of an image starts.
fn start_memory(alloc: Global, image: &Image) -> Result<Memory, AllocError>
    requires { IsImage image.now }
    ensures { IfOk result (λ m. IsStartMemory image.now m) }
{
    let mut memory = Memory::for_image(alloc, image, ENTRY_SLOT)?;
    memory.write(Width::D32, ENTRY_SLOT, HALT);
    Ok(memory)
}

impl Machine {
    /// The machine in which a run of an image starts. The words say what may be any: EAX, ECX, EDX, EBX, EBP, ESI and EDI, and
    /// by bit 16 of each CF, PF, ZF, SF and OF.
    pub fn start(
        alloc: Global,
        image: &Image,
        settings: &Settings,
        words: &[u32; 12],
    ) -> Result<Machine, AllocError>
        requires { IsImage image.now }
        ensures state { IfOk result (λ m. state_of m ≡ start_state image.now settings.now words.now) }
        ensures start { IfOk result (λ m. IsStart image.now settings.now (state_of m)) }
        ensures runs { IfOk result (λ m. RunsImage image.now m) }
    {
        let memory = start_memory(alloc, image)?;
        let mut frames = Vec::new(alloc);
        frames.push(Activation {
            site: 0,
            callee: settings.entry,
            base: ENTRY_SLOT,
        })?;
        Ok(Machine {
            core: start_core(settings.entry, words, memory),
            frames,
            blocks: Vec::new(alloc),
            allocs: Vec::new(alloc),
            slot: ENTRY_SLOT,
        })
    }

    /// Maps zeros at the addresses of a new block, and puts it at the end of the blocks. Where memory lacks nothing has
    /// changed.
    pub fn add_block(&mut self, alloc: Global, block: Block) -> Result<(), AllocError>
        requires { IsBlock self.old.slot self.old.blocks.items block }
        ensures state { OnOk result (state_of self.new ≡ with_new_block block (state_of self.old)) }
        ensures open { OnOk result ((image : Image) → IsImage image → KnowsOpen image self.old.core.memory → KnowsOpen image self.new.core.memory) }
        ensures stack { OnOk result ((a : ℕ) → is_in_first self.new.core.memory a ≡ is_in_first self.old.core.memory a) }
        ensures err { OnErr result ((self.new.core ≡ self.old.core) × (state_of self.new ≡ state_of self.old)) }
    {
        self.blocks.push(block)?;
        match self.core.memory.add_zeros(alloc, block.base, block.size) {
            Ok(()) => Ok(()),
            Err(error) => {
                self.blocks.pop();
                Err(error)
            }
        }
    }
}
