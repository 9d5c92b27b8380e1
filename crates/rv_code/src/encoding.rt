// From an instruction to its word (RISC-V Unprivileged ISA 20191213, sections 2.2 and 2.3).

ghost use Rattle.std.specs.Prelude.{◌≡◌, ℕ, ◌<◌};
ghost use Rattle.rv_code.specs.Word.{word_of, format_r, format_i, format_s, format_b, format_u, format_j};
ghost use Rattle.rv_code.specs.declared.instruction.Instr.{Instr};

use crate::fields::{Imm12, Imm13, Imm20, Imm21, Reg};
use crate::instruction::Instr;

/// The word of an instruction.
pub fn encode(i: Instr) -> u32
    ensures { result ≡ word_of i }
{
    match i {
        Instr::Lui { rd, imm } => upper(imm, rd, 0x37),
        Instr::Auipc { rd, imm } => upper(imm, rd, 0x17),
        Instr::Jal { rd, imm } => jump(imm, rd, 0x6f),
        Instr::Jalr { rd, rs1, imm } => immediate(imm.bits, rs1, 0, rd, 0x67),
        Instr::Beq { rs1, rs2, imm } => branch(imm, rs2, rs1, 0),
        Instr::Bne { rs1, rs2, imm } => branch(imm, rs2, rs1, 1),
        Instr::Blt { rs1, rs2, imm } => branch(imm, rs2, rs1, 4),
        Instr::Bge { rs1, rs2, imm } => branch(imm, rs2, rs1, 5),
        Instr::Bltu { rs1, rs2, imm } => branch(imm, rs2, rs1, 6),
        Instr::Bgeu { rs1, rs2, imm } => branch(imm, rs2, rs1, 7),
        Instr::Lb { rd, rs1, imm } => immediate(imm.bits, rs1, 0, rd, 0x03),
        Instr::Lh { rd, rs1, imm } => immediate(imm.bits, rs1, 1, rd, 0x03),
        Instr::Lw { rd, rs1, imm } => immediate(imm.bits, rs1, 2, rd, 0x03),
        Instr::Lbu { rd, rs1, imm } => immediate(imm.bits, rs1, 4, rd, 0x03),
        Instr::Lhu { rd, rs1, imm } => immediate(imm.bits, rs1, 5, rd, 0x03),
        Instr::Sb { rs1, rs2, imm } => store(imm, rs2, rs1, 0),
        Instr::Sh { rs1, rs2, imm } => store(imm, rs2, rs1, 1),
        Instr::Sw { rs1, rs2, imm } => store(imm, rs2, rs1, 2),
        Instr::Addi { rd, rs1, imm } => immediate(imm.bits, rs1, 0, rd, 0x13),
        Instr::Slti { rd, rs1, imm } => immediate(imm.bits, rs1, 2, rd, 0x13),
        Instr::Sltiu { rd, rs1, imm } => immediate(imm.bits, rs1, 3, rd, 0x13),
        Instr::Xori { rd, rs1, imm } => immediate(imm.bits, rs1, 4, rd, 0x13),
        Instr::Ori { rd, rs1, imm } => immediate(imm.bits, rs1, 6, rd, 0x13),
        Instr::Andi { rd, rs1, imm } => immediate(imm.bits, rs1, 7, rd, 0x13),
        Instr::Slli { rd, rs1, shamt } => register(0, shamt.bits, rs1, 1, rd, 0x13),
        Instr::Srli { rd, rs1, shamt } => register(0, shamt.bits, rs1, 5, rd, 0x13),
        Instr::Srai { rd, rs1, shamt } => register(32, shamt.bits, rs1, 5, rd, 0x13),
        Instr::Add { rd, rs1, rs2 } => register(0, rs2.bits, rs1, 0, rd, 0x33),
        Instr::Sub { rd, rs1, rs2 } => register(32, rs2.bits, rs1, 0, rd, 0x33),
        Instr::Sll { rd, rs1, rs2 } => register(0, rs2.bits, rs1, 1, rd, 0x33),
        Instr::Slt { rd, rs1, rs2 } => register(0, rs2.bits, rs1, 2, rd, 0x33),
        Instr::Sltu { rd, rs1, rs2 } => register(0, rs2.bits, rs1, 3, rd, 0x33),
        Instr::Xor { rd, rs1, rs2 } => register(0, rs2.bits, rs1, 4, rd, 0x33),
        Instr::Srl { rd, rs1, rs2 } => register(0, rs2.bits, rs1, 5, rd, 0x33),
        Instr::Sra { rd, rs1, rs2 } => register(32, rs2.bits, rs1, 5, rd, 0x33),
        Instr::Or { rd, rs1, rs2 } => register(0, rs2.bits, rs1, 6, rd, 0x33),
        Instr::And { rd, rs1, rs2 } => register(0, rs2.bits, rs1, 7, rd, 0x33),
        Instr::Mul { rd, rs1, rs2 } => register(1, rs2.bits, rs1, 0, rd, 0x33),
        Instr::Mulh { rd, rs1, rs2 } => register(1, rs2.bits, rs1, 1, rd, 0x33),
        Instr::Mulhsu { rd, rs1, rs2 } => register(1, rs2.bits, rs1, 2, rd, 0x33),
        Instr::Mulhu { rd, rs1, rs2 } => register(1, rs2.bits, rs1, 3, rd, 0x33),
        Instr::Div { rd, rs1, rs2 } => register(1, rs2.bits, rs1, 4, rd, 0x33),
        Instr::Divu { rd, rs1, rs2 } => register(1, rs2.bits, rs1, 5, rd, 0x33),
        Instr::Rem { rd, rs1, rs2 } => register(1, rs2.bits, rs1, 6, rd, 0x33),
        Instr::Remu { rd, rs1, rs2 } => register(1, rs2.bits, rs1, 7, rd, 0x33),
        Instr::Fence { rd, rs1, upper } => immediate(upper.bits, rs1, 0, rd, 0x0f),
        Instr::Ecall => 0x0000_0073,
        Instr::Ebreak => 0x0010_0073,
    }
}

// Format R; `rs2` is the second register or the shift amount.
fn register(funct7: u32, rs2: u32, rs1: Reg, funct3: u32, rd: Reg, opcode: u32) -> u32
    requires funct7_fits { funct7 < 128 }
    requires rs2_fits { rs2 < 32 }
    requires funct3_fits { funct3 < 8 }
    requires opcode_fits { opcode < 128 }
    ensures { result ≡ format_r funct7 rs2 rs1.bits funct3 rd.bits opcode }
{
    (funct7 << 25) + (rs2 << 20) + (rs1.bits << 15) + (funct3 << 12) + (rd.bits << 7) + opcode
}

// Format I.
fn immediate(imm: u32, rs1: Reg, funct3: u32, rd: Reg, opcode: u32) -> u32
    requires imm_fits { imm < 4096 }
    requires funct3_fits { funct3 < 8 }
    requires opcode_fits { opcode < 128 }
    ensures { result ≡ format_i imm rs1.bits funct3 rd.bits opcode }
{
    (imm << 20) + (rs1.bits << 15) + (funct3 << 12) + (rd.bits << 7) + opcode
}

// Format S, of the stores.
fn store(imm: Imm12, rs2: Reg, rs1: Reg, funct3: u32) -> u32
    requires { funct3 < 8 }
    ensures { result ≡ format_s imm.bits rs2.bits rs1.bits funct3 35 }
{
    let high = imm.bits >> 5;
    let low = imm.bits & 31;
    (high << 25) + (rs2.bits << 20) + (rs1.bits << 15) + (funct3 << 12) + (low << 7) + 0x23
}

// Format B, of the branches.
fn branch(imm: Imm13, rs2: Reg, rs1: Reg, funct3: u32) -> u32
    requires { funct3 < 8 }
    ensures { result ≡ format_b imm.half rs2.bits rs1.bits funct3 99 }
{
    let sign = imm.half >> 11;
    let high = imm.half >> 4 & 63;
    let low = imm.half & 15;
    let bit_11 = imm.half >> 10 & 1;
    let front = (sign << 31) + (high << 25) + (rs2.bits << 20);
    front + (rs1.bits << 15) + (funct3 << 12) + (low << 8) + (bit_11 << 7) + 0x63
}

// Format U.
fn upper(imm: Imm20, rd: Reg, opcode: u32) -> u32
    requires { opcode < 128 }
    ensures { result ≡ format_u imm.bits rd.bits opcode }
{
    (imm.bits << 12) + (rd.bits << 7) + opcode
}

// Format J.
fn jump(imm: Imm21, rd: Reg, opcode: u32) -> u32
    requires { opcode < 128 }
    ensures { result ≡ format_j imm.half rd.bits opcode }
{
    let sign = imm.half >> 19;
    let low = imm.half & 1023;
    let bit_11 = imm.half >> 10 & 1;
    let high = imm.half >> 11 & 255;
    (sign << 31) + (low << 21) + (bit_11 << 20) + (high << 12) + (rd.bits << 7) + opcode
}

/// The law that a word has one instruction at most: instructions with equal words are equal.
pub fn one_instruction_a_word()
    ensures { (i : Instr) → (j : Instr) → word_of i ≡ word_of j → i ≡ j }
{}
