// From a word to its instruction (RISC-V Unprivileged ISA 20191213, the table of chapter 24).

ghost use Rattle.std.specs.Prelude.{◌≡◌, ◌≢◌, ℕ, ◌+◌, ◌*◌, ◌/◌, ◌%◌, ◌⊎◌, IfSome, IfNone, Some};
ghost use Rattle.rv_code.specs.Word.{word_of};
ghost use Rattle.rv_code.specs.declared.instruction.Instr.{Instr};

use crate::fields::{Bits12, Imm12, Imm13, Imm20, Imm21, Reg, Shamt};
use crate::instruction::Instr;

/// The instruction of a word: none exactly off the table.
pub fn decode(w: u32) -> Option<Instr>
    ensures found { IfSome result (λ i. w ≡ word_of i) }

    // Decoding undoes encoding, and a word has one instruction at most.
    ensures only { (i : Instr) → w ≡ word_of i → result ≡ Some i }
{
    find(w)
}

// The instruction of a word, by the opcode.
fn find(w: u32) -> Option<Instr>
    ensures found { IfSome result (λ i. w ≡ word_of i) }
    ensures none { IfNone result ((i : Instr) → w ≢ word_of i) }
{
    match w & 0x7f {
        0x37 => Some(Instr::Lui {
            rd: rd(w),
            imm: imm_u(w),
        }),
        0x17 => Some(Instr::Auipc {
            rd: rd(w),
            imm: imm_u(w),
        }),
        0x6f => Some(Instr::Jal {
            rd: rd(w),
            imm: imm_j(w),
        }),
        0x67 => jalr(w),
        0x63 => branch(w),
        0x03 => load(w),
        0x23 => store(w),
        0x13 => op_imm(w),
        0x33 => op(w),
        0x0f => fence(w),
        0x73 => system(w),
        _ => None,
    }
}

// JALR
fn jalr(w: u32) -> Option<Instr>
    requires { w % 128 ≡ 103 }
    ensures found { IfSome result (λ i. w ≡ word_of i) }
    ensures none { IfNone result ((i : Instr) → w ≢ word_of i) }
{
    match funct3(w) {
        0 => Some(Instr::Jalr {
            rd: rd(w),
            rs1: rs1(w),
            imm: imm_i(w),
        }),
        _ => None,
    }
}

// BRANCH
fn branch(w: u32) -> Option<Instr>
    requires { w % 128 ≡ 99 }
    ensures found { IfSome result (λ i. w ≡ word_of i) }
    ensures none { IfNone result ((i : Instr) → w ≢ word_of i) }
{
    let (rs1, rs2, imm) = (rs1(w), rs2(w), imm_b(w));
    match funct3(w) {
        0 => Some(Instr::Beq { rs1, rs2, imm }),
        1 => Some(Instr::Bne { rs1, rs2, imm }),
        4 => Some(Instr::Blt { rs1, rs2, imm }),
        5 => Some(Instr::Bge { rs1, rs2, imm }),
        6 => Some(Instr::Bltu { rs1, rs2, imm }),
        7 => Some(Instr::Bgeu { rs1, rs2, imm }),
        _ => None,
    }
}

// LOAD
fn load(w: u32) -> Option<Instr>
    requires { w % 128 ≡ 3 }
    ensures found { IfSome result (λ i. w ≡ word_of i) }
    ensures none { IfNone result ((i : Instr) → w ≢ word_of i) }
{
    let (rd, rs1, imm) = (rd(w), rs1(w), imm_i(w));
    match funct3(w) {
        0 => Some(Instr::Lb { rd, rs1, imm }),
        1 => Some(Instr::Lh { rd, rs1, imm }),
        2 => Some(Instr::Lw { rd, rs1, imm }),
        4 => Some(Instr::Lbu { rd, rs1, imm }),
        5 => Some(Instr::Lhu { rd, rs1, imm }),
        _ => None,
    }
}

// STORE
fn store(w: u32) -> Option<Instr>
    requires { w % 128 ≡ 35 }
    ensures found { IfSome result (λ i. w ≡ word_of i) }
    ensures none { IfNone result ((i : Instr) → w ≢ word_of i) }
{
    let (rs1, rs2, imm) = (rs1(w), rs2(w), imm_s(w));
    match funct3(w) {
        0 => Some(Instr::Sb { rs1, rs2, imm }),
        1 => Some(Instr::Sh { rs1, rs2, imm }),
        2 => Some(Instr::Sw { rs1, rs2, imm }),
        _ => None,
    }
}

// OP-IMM
fn op_imm(w: u32) -> Option<Instr>
    requires { w % 128 ≡ 19 }
    ensures found { IfSome result (λ i. w ≡ word_of i) }
    ensures none { IfNone result ((i : Instr) → w ≢ word_of i) }
{
    let (rd, rs1, imm) = (rd(w), rs1(w), imm_i(w));
    match funct3(w) {
        0 => Some(Instr::Addi { rd, rs1, imm }),
        2 => Some(Instr::Slti { rd, rs1, imm }),
        3 => Some(Instr::Sltiu { rd, rs1, imm }),
        4 => Some(Instr::Xori { rd, rs1, imm }),
        6 => Some(Instr::Ori { rd, rs1, imm }),
        7 => Some(Instr::Andi { rd, rs1, imm }),
        _ => shift_imm(w),
    }
}

// The shifts of OP-IMM.
fn shift_imm(w: u32) -> Option<Instr>
    requires opcode { w % 128 ≡ 19 }
    requires shift { (w / 4096 % 8 ≡ 1) ⊎ (w / 4096 % 8 ≡ 5) }
    ensures found { IfSome result (λ i. w ≡ word_of i) }
    ensures none { IfNone result ((i : Instr) → w ≢ word_of i) }
{
    let (rd, rs1, shamt) = (rd(w), rs1(w), shamt(w));
    match (funct7(w), funct3(w)) {
        (0, 1) => Some(Instr::Slli { rd, rs1, shamt }),
        (0, 5) => Some(Instr::Srli { rd, rs1, shamt }),
        (32, 5) => Some(Instr::Srai { rd, rs1, shamt }),
        _ => None,
    }
}

// OP
fn op(w: u32) -> Option<Instr>
    requires { w % 128 ≡ 51 }
    ensures found { IfSome result (λ i. w ≡ word_of i) }
    ensures none { IfNone result ((i : Instr) → w ≢ word_of i) }
{
    let (rd, rs1, rs2) = (rd(w), rs1(w), rs2(w));
    match (funct7(w), funct3(w)) {
        (0, 0) => Some(Instr::Add { rd, rs1, rs2 }),
        (32, 0) => Some(Instr::Sub { rd, rs1, rs2 }),
        (0, 1) => Some(Instr::Sll { rd, rs1, rs2 }),
        (0, 2) => Some(Instr::Slt { rd, rs1, rs2 }),
        (0, 3) => Some(Instr::Sltu { rd, rs1, rs2 }),
        (0, 4) => Some(Instr::Xor { rd, rs1, rs2 }),
        (0, 5) => Some(Instr::Srl { rd, rs1, rs2 }),
        (32, 5) => Some(Instr::Sra { rd, rs1, rs2 }),
        (0, 6) => Some(Instr::Or { rd, rs1, rs2 }),
        (0, 7) => Some(Instr::And { rd, rs1, rs2 }),
        (1, 0) => Some(Instr::Mul { rd, rs1, rs2 }),
        (1, 1) => Some(Instr::Mulh { rd, rs1, rs2 }),
        (1, 2) => Some(Instr::Mulhsu { rd, rs1, rs2 }),
        (1, 3) => Some(Instr::Mulhu { rd, rs1, rs2 }),
        (1, 4) => Some(Instr::Div { rd, rs1, rs2 }),
        (1, 5) => Some(Instr::Divu { rd, rs1, rs2 }),
        (1, 6) => Some(Instr::Rem { rd, rs1, rs2 }),
        (1, 7) => Some(Instr::Remu { rd, rs1, rs2 }),
        _ => None,
    }
}

// FENCE; its fields other than funct3 are kept.
fn fence(w: u32) -> Option<Instr>
    requires { w % 128 ≡ 15 }
    ensures found { IfSome result (λ i. w ≡ word_of i) }
    ensures none { IfNone result ((i : Instr) → w ≢ word_of i) }
{
    match funct3(w) {
        0 => Some(Instr::Fence {
            rd: rd(w),
            rs1: rs1(w),
            upper: Bits12 { bits: w >> 20 },
        }),
        _ => None,
    }
}

// ECALL and EBREAK, each one word.
fn system(w: u32) -> Option<Instr>
    requires { w % 128 ≡ 115 }
    ensures found { IfSome result (λ i. w ≡ word_of i) }
    ensures none { IfNone result ((i : Instr) → w ≢ word_of i) }
{
    match w {
        0x0000_0073 => Some(Instr::Ecall),
        0x0010_0073 => Some(Instr::Ebreak),
        _ => None,
    }
}

// Bits 14-12.
fn funct3(w: u32) -> u32
    ensures { result ≡ w / 4096 % 8 }
{
    w >> 12 & 7
}

// Bits 31-25.
fn funct7(w: u32) -> u32
    ensures { result ≡ w / 33554432 }
{
    w >> 25
}

// Bits 11-7.
fn rd(w: u32) -> Reg
    ensures { result.bits ≡ w / 128 % 32 }
{
    Reg { bits: w >> 7 & 31 }
}

// Bits 19-15.
fn rs1(w: u32) -> Reg
    ensures { result.bits ≡ w / 32768 % 32 }
{
    Reg { bits: w >> 15 & 31 }
}

// Bits 24-20.
fn rs2(w: u32) -> Reg
    ensures { result.bits ≡ w / 1048576 % 32 }
{
    Reg { bits: w >> 20 & 31 }
}

// Bits 24-20.
fn shamt(w: u32) -> Shamt
    ensures { result.bits ≡ w / 1048576 % 32 }
{
    Shamt { bits: w >> 20 & 31 }
}

// Bits 31-20.
fn imm_i(w: u32) -> Imm12
    ensures { result.bits ≡ w / 1048576 }
{
    Imm12 { bits: w >> 20 }
}

// Bits 31-25 and 11-7.
fn imm_s(w: u32) -> Imm12
    ensures { result.bits ≡ w / 33554432 * 32 + w / 128 % 32 }
{
    let high = w >> 25;
    let low = w >> 7 & 31;
    Imm12 {
        bits: (high << 5) + low,
    }
}

// Bits 31, 7, 30-25 and 11-8.
fn imm_b(w: u32) -> Imm13
    ensures { result.half ≡ w / 2147483648 * 2048 + w / 128 % 2 * 1024 + w / 33554432 % 64 * 16 + w / 256 % 16 }
{
    let sign = w >> 31;
    let bit_11 = w >> 7 & 1;
    let high = w >> 25 & 63;
    let low = w >> 8 & 15;
    Imm13 {
        half: (sign << 11) + (bit_11 << 10) + (high << 4) + low,
    }
}

// Bits 31-12.
fn imm_u(w: u32) -> Imm20
    ensures { result.bits ≡ w / 4096 }
{
    Imm20 { bits: w >> 12 }
}

// Bits 31, 19-12, 20 and 30-21.
fn imm_j(w: u32) -> Imm21
    ensures { result.half ≡ w / 2147483648 * 524288 + w / 4096 % 256 * 2048 + w / 1048576 % 2 * 1024 + w / 2097152 % 1024 }
{
    let sign = w >> 31;
    let high = w >> 12 & 255;
    let bit_11 = w >> 20 & 1;
    let low = w >> 21 & 1023;
    Imm21 {
        half: (sign << 19) + (high << 11) + (bit_11 << 10) + low,
    }
}
