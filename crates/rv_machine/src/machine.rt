// The state of the machine and one step of it.

ghost use Rattle.std.specs.Prelude.{◌≡◌, ℕ, ◌+◌, ◌*◌, ◌/◌, ◌%◌, OnErr};
ghost use Rattle.rv_machine.specs.Word.{plus};
ghost use Rattle.rv_machine.specs.Fields.{extended};
ghost use Rattle.rv_machine.specs.State.{register, with_register};
ghost use Rattle.rv_machine.specs.Step as table;
ghost use Rattle.rv_machine.specs.Effect.{effect};
ghost use Rattle.rv_machine.specs.View.{state_of, answer};

use crate::access::{read_byte, write_byte, write_half};
use crate::arithmetic::{
    high_mixed, high_signed, high_unsigned, is_less_signed, one_if, product, quotient,
    quotient_signed, remainder, remainder_signed, shift_left, shift_right, shift_signed,
};
use crate::cause::Cause;
use rv_code::{Imm12, Imm13, Imm21, Instr, Reg, decode};
use rv_memory::Memory;

/// Thirty-two registers, the program counter and the memory. Register x0 reads 0, whatever `regs[0]` holds.
#[derive(Drop)]
pub struct Machine {
    pub regs: [u32; 32],
    pub pc: u32,
    pub mem: Memory,
}

impl Machine {
    /// Executes the instruction at the program counter. After a trap the machine is as it was.
    pub fn step(&mut self) -> Result<(), Cause>
        ensures made { answer result self.new ≡ table.step (state_of self.old) }
        ensures stays { OnErr result (self.new ≡ self.old) }
    {
        if self.pc % 4 != 0 {
            return Err(Cause::FetchMisaligned);
        }
        let Some(word) = self.mem.fetch(self.pc) else {
            return Err(Cause::FetchOutside);
        };
        let Some(instruction) = decode(word) else {
            return Err(Cause::Illegal);
        };
        self.execute(instruction)
    }

    // What the instruction does, one line a row of the table.
    fn execute(&mut self, instruction: Instr) -> Result<(), Cause>
        ensures made { answer result self.new ≡ effect instruction (state_of self.old) }
        ensures stays { OnErr result (self.new ≡ self.old) }
    {
        match instruction {
            Instr::Lui { rd, imm } => self.finish(rd, imm.bits << 12),
            Instr::Auipc { rd, imm } => self.finish(rd, self.pc.wrapping_add(imm.bits << 12)),
            Instr::Jal { rd, imm } => self.jump(rd, self.pc.wrapping_add(far_offset(imm))),
            Instr::Jalr { rd, rs1, imm } => self.jump(rd, self.address(rs1, imm) & 0xffff_fffe),
            Instr::Beq { rs1, rs2, imm } => self.branch(imm, self.source(rs1) == self.source(rs2)),
            Instr::Bne { rs1, rs2, imm } => self.branch(imm, self.source(rs1) != self.source(rs2)),
            Instr::Blt { rs1, rs2, imm } => self.branch(
                imm,
                is_less_signed(self.source(rs1), self.source(rs2)),
            ),
            Instr::Bge { rs1, rs2, imm } => self.branch(
                imm,
                !is_less_signed(self.source(rs1), self.source(rs2)),
            ),
            Instr::Bltu { rs1, rs2, imm } => self.branch(imm, self.source(rs1) < self.source(rs2)),
            Instr::Bgeu { rs1, rs2, imm } => self.branch(imm, self.source(rs1) >= self.source(rs2)),
            Instr::Lb { rd, rs1, imm } => {
                let byte = self.load_byte(self.address(rs1, imm))?;
                self.finish(rd, extended_byte(byte))
            }
            Instr::Lh { rd, rs1, imm } => {
                let half = self.load_half(self.address(rs1, imm))?;
                self.finish(rd, extended_half(half))
            }
            Instr::Lw { rd, rs1, imm } => {
                let word = self.load_word(self.address(rs1, imm))?;
                self.finish(rd, word)
            }
            Instr::Lbu { rd, rs1, imm } => {
                let byte = self.load_byte(self.address(rs1, imm))?;
                self.finish(rd, u32::from(byte))
            }
            Instr::Lhu { rd, rs1, imm } => {
                let half = self.load_half(self.address(rs1, imm))?;
                self.finish(rd, u32::from(half))
            }
            Instr::Sb { rs1, rs2, imm } => self.store_byte(
                self.address(rs1, imm),
                self.source(rs2),
            ),
            Instr::Sh { rs1, rs2, imm } => self.store_half(
                self.address(rs1, imm),
                self.source(rs2),
            ),
            Instr::Sw { rs1, rs2, imm } => self.store_word(
                self.address(rs1, imm),
                self.source(rs2),
            ),
            Instr::Addi { rd, rs1, imm } => self.finish(
                rd,
                self.source(rs1).wrapping_add(low_offset(imm)),
            ),
            Instr::Slti { rd, rs1, imm } => self.finish(
                rd,
                one_if(is_less_signed(self.source(rs1), low_offset(imm))),
            ),
            Instr::Sltiu { rd, rs1, imm } => self.finish(
                rd,
                one_if(self.source(rs1) < low_offset(imm)),
            ),
            Instr::Xori { rd, rs1, imm } => self.finish(rd, self.source(rs1) ^ low_offset(imm)),
            Instr::Ori { rd, rs1, imm } => self.finish(rd, self.source(rs1) | low_offset(imm)),
            Instr::Andi { rd, rs1, imm } => self.finish(rd, self.source(rs1) & low_offset(imm)),
            Instr::Slli { rd, rs1, shamt } => self.finish(
                rd,
                shift_left(self.source(rs1), shamt.bits),
            ),
            Instr::Srli { rd, rs1, shamt } => self.finish(
                rd,
                shift_right(self.source(rs1), shamt.bits),
            ),
            Instr::Srai { rd, rs1, shamt } => self.finish(
                rd,
                shift_signed(self.source(rs1), shamt.bits),
            ),
            Instr::Add { rd, rs1, rs2 } => self.finish(
                rd,
                self.source(rs1).wrapping_add(self.source(rs2)),
            ),
            Instr::Sub { rd, rs1, rs2 } => self.finish(
                rd,
                self.source(rs1).wrapping_sub(self.source(rs2)),
            ),
            Instr::Sll { rd, rs1, rs2 } => self.finish(
                rd,
                shift_left(self.source(rs1), self.source(rs2)),
            ),
            Instr::Slt { rd, rs1, rs2 } => self.finish(
                rd,
                one_if(is_less_signed(self.source(rs1), self.source(rs2))),
            ),
            Instr::Sltu { rd, rs1, rs2 } => self.finish(
                rd,
                one_if(self.source(rs1) < self.source(rs2)),
            ),
            Instr::Xor { rd, rs1, rs2 } => self.finish(rd, self.source(rs1) ^ self.source(rs2)),
            Instr::Srl { rd, rs1, rs2 } => self.finish(
                rd,
                shift_right(self.source(rs1), self.source(rs2)),
            ),
            Instr::Sra { rd, rs1, rs2 } => self.finish(
                rd,
                shift_signed(self.source(rs1), self.source(rs2)),
            ),
            Instr::Or { rd, rs1, rs2 } => self.finish(rd, self.source(rs1) | self.source(rs2)),
            Instr::And { rd, rs1, rs2 } => self.finish(rd, self.source(rs1) & self.source(rs2)),
            Instr::Mul { rd, rs1, rs2 } => self.finish(
                rd,
                product(self.source(rs1), self.source(rs2)),
            ),
            Instr::Mulh { rd, rs1, rs2 } => self.finish(
                rd,
                high_signed(self.source(rs1), self.source(rs2)),
            ),
            Instr::Mulhsu { rd, rs1, rs2 } => self.finish(
                rd,
                high_mixed(self.source(rs1), self.source(rs2)),
            ),
            Instr::Mulhu { rd, rs1, rs2 } => self.finish(
                rd,
                high_unsigned(self.source(rs1), self.source(rs2)),
            ),
            Instr::Div { rd, rs1, rs2 } => self.finish(
                rd,
                quotient_signed(self.source(rs1), self.source(rs2)),
            ),
            Instr::Divu { rd, rs1, rs2 } => self.finish(
                rd,
                quotient(self.source(rs1), self.source(rs2)),
            ),
            Instr::Rem { rd, rs1, rs2 } => self.finish(
                rd,
                remainder_signed(self.source(rs1), self.source(rs2)),
            ),
            Instr::Remu { rd, rs1, rs2 } => self.finish(
                rd,
                remainder(self.source(rs1), self.source(rs2)),
            ),
            Instr::Fence { .. } => self.go_on(),
            Instr::Ecall => Err(Cause::Ecall),
            Instr::Ebreak => Err(Cause::Ebreak),
        }
    }

    // The value of a register.
    fn source(&self, r: Reg) -> u32
        ensures { result ≡ register self.now.regs r.bits }
    {
        if r.bits == 0 {
            0
        } else {
            self.regs[r.bits as usize]
        }
    }

    // A register plus an immediate.
    fn address(&self, rs1: Reg, imm: Imm12) -> u32
        ensures { result ≡ plus (register self.now.regs rs1.bits) (extended 2048 imm.bits) }
    {
        self.source(rs1).wrapping_add(low_offset(imm))
    }

    // Puts a value into a register.
    fn put(&mut self, rd: Reg, value: u32)
        ensures { self.new ≡ record self.old { regs = with_register self.old.regs rd.bits value } }
    {
        if rd.bits != 0 {
            self.regs[rd.bits as usize] = value;
        }
    }

    // Goes on to the next instruction.
    #[tactic(auto, unfolding(crate::specs::Step::goes_on))]
    fn go_on(&mut self) -> Result<(), Cause>
        ensures made { answer result self.new ≡ table.goes_on (state_of self.old) }
        ensures stays { OnErr result (self.new ≡ self.old) }
    {
        self.pc = self.pc.wrapping_add(4);
        Ok(())
    }

    // Puts a value into a register and goes on to the next instruction.
    #[tactic(auto, unfolding(crate::specs::Step::gives))]
    fn finish(&mut self, rd: Reg, value: u32) -> Result<(), Cause>
        ensures made { answer result self.new ≡ table.gives (state_of self.old) rd.bits value }
        ensures stays { OnErr result (self.new ≡ self.old) }
    {
        self.put(rd, value);
        self.pc = self.pc.wrapping_add(4);
        Ok(())
    }

    // Jumps to an address; a register gets the place behind the jump.
    #[tactic(auto, unfolding(crate::specs::Step::jumps))]
    fn jump(&mut self, rd: Reg, target: u32) -> Result<(), Cause>
        ensures made { answer result self.new ≡ table.jumps (state_of self.old) rd.bits target }
        ensures stays { OnErr result (self.new ≡ self.old) }
    {
        if target % 4 != 0 {
            return Err(Cause::JumpMisaligned);
        }
        self.put(rd, self.pc.wrapping_add(4));
        self.pc = target;
        Ok(())
    }

    // Branches by an offset, if the branch is taken.
    #[tactic(auto, unfolding(crate::specs::Step::branches))]
    fn branch(&mut self, imm: Imm13, taken: bool) -> Result<(), Cause>
        ensures made { answer result self.new
            ≡ table.branches (state_of self.old) (plus self.old.pc (extended 4096 (2 * imm.half))) taken }
        ensures stays { OnErr result (self.new ≡ self.old) }
    {
        if !taken {
            return self.go_on();
        }
        let target = self.pc.wrapping_add(near_offset(imm));
        if target % 4 != 0 {
            return Err(Cause::JumpMisaligned);
        }
        self.pc = target;
        Ok(())
    }

    #[tactic(auto, unfolding(crate::specs::Step::loaded))]
    fn load_byte(&self, at: u32) -> Result<u8, Cause>
        ensures { result ≡ table.loaded (state_of self.now) 1 at }
    {
        read_byte(&self.mem, at).ok_or(Cause::LoadOutside)
    }

    #[tactic(auto, unfolding(crate::specs::Step::loaded))]
    fn load_half(&self, at: u32) -> Result<u16, Cause>
        ensures { result ≡ table.loaded (state_of self.now) 2 at }
    {
        if at % 2 != 0 {
            return Err(Cause::LoadMisaligned);
        }
        self.mem.get_two(at).ok_or(Cause::LoadOutside)
    }

    #[tactic(auto, unfolding(crate::specs::Step::loaded))]
    fn load_word(&self, at: u32) -> Result<u32, Cause>
        ensures { result ≡ table.loaded (state_of self.now) 4 at }
    {
        if at % 4 != 0 {
            return Err(Cause::LoadMisaligned);
        }
        self.mem.get_four(at).ok_or(Cause::LoadOutside)
    }

    #[tactic(auto, unfolding(crate::specs::Step::stores))]
    fn store_byte(&mut self, at: u32, value: u32) -> Result<(), Cause>
        ensures made { answer result self.new ≡ table.stores (state_of self.old) 1 at value }
        ensures stays { OnErr result (self.new ≡ self.old) }
    {
        if !write_byte(&mut self.mem, at, value) {
            return Err(Cause::StoreOutside);
        }
        self.pc = self.pc.wrapping_add(4);
        Ok(())
    }

    #[tactic(auto, unfolding(crate::specs::Step::stores))]
    fn store_half(&mut self, at: u32, value: u32) -> Result<(), Cause>
        ensures made { answer result self.new ≡ table.stores (state_of self.old) 2 at value }
        ensures stays { OnErr result (self.new ≡ self.old) }
    {
        if at % 2 != 0 {
            return Err(Cause::StoreMisaligned);
        }
        if !write_half(&mut self.mem, at, value) {
            return Err(Cause::StoreOutside);
        }
        self.pc = self.pc.wrapping_add(4);
        Ok(())
    }

    #[tactic(auto, unfolding(crate::specs::Step::stores))]
    fn store_word(&mut self, at: u32, value: u32) -> Result<(), Cause>
        ensures made { answer result self.new ≡ table.stores (state_of self.old) 4 at value }
        ensures stays { OnErr result (self.new ≡ self.old) }
    {
        if at % 4 != 0 {
            return Err(Cause::StoreMisaligned);
        }
        if !self.mem.set_four(at, value) {
            return Err(Cause::StoreOutside);
        }
        self.pc = self.pc.wrapping_add(4);
        Ok(())
    }
}

// The immediates as words.

fn low_offset(imm: Imm12) -> u32
    ensures { result ≡ extended 2048 imm.bits }
{
    imm.get().cast_unsigned()
}

fn near_offset(imm: Imm13) -> u32
    ensures { result ≡ extended 4096 (2 * imm.half) }
{
    imm.get().cast_unsigned()
}

fn far_offset(imm: Imm21) -> u32
    ensures { result ≡ extended 1048576 (2 * imm.half) }
{
    imm.get().cast_unsigned()
}

// A byte and a halfword with their signs extended.

fn extended_byte(byte: u8) -> u32
    ensures { result ≡ extended 128 byte }
{
    let byte = u32::from(byte);
    if byte < 128 { byte } else { byte + 0xffff_ff00 }
}

fn extended_half(half: u16) -> u32
    ensures { result ≡ extended 32768 half }
{
    let half = u32::from(half);
    if half < 32768 {
        half
    } else {
        half + 0xffff_0000
    }
}
