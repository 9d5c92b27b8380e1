// The instructions of RV32I and the M extension (RISC-V Unprivileged ISA 20191213, chapters 2 and 7; the table
// of chapter 24).

use crate::fields::{Bits12, Imm12, Imm13, Imm20, Imm21, Reg, Shamt};

/// An instruction: one variant a mnemonic.
#[derive(Clone, Copy)]
pub enum Instr {
    // Upper immediates and jumps (section 2.4, 2.5).
    Lui { rd: Reg, imm: Imm20 },
    Auipc { rd: Reg, imm: Imm20 },
    Jal { rd: Reg, imm: Imm21 },
    Jalr { rd: Reg, rs1: Reg, imm: Imm12 },

    // Conditional branches (section 2.5).
    Beq { rs1: Reg, rs2: Reg, imm: Imm13 },
    Bne { rs1: Reg, rs2: Reg, imm: Imm13 },
    Blt { rs1: Reg, rs2: Reg, imm: Imm13 },
    Bge { rs1: Reg, rs2: Reg, imm: Imm13 },
    Bltu { rs1: Reg, rs2: Reg, imm: Imm13 },
    Bgeu { rs1: Reg, rs2: Reg, imm: Imm13 },

    // Loads and stores (section 2.6).
    Lb { rd: Reg, rs1: Reg, imm: Imm12 },
    Lh { rd: Reg, rs1: Reg, imm: Imm12 },
    Lw { rd: Reg, rs1: Reg, imm: Imm12 },
    Lbu { rd: Reg, rs1: Reg, imm: Imm12 },
    Lhu { rd: Reg, rs1: Reg, imm: Imm12 },
    Sb { rs1: Reg, rs2: Reg, imm: Imm12 },
    Sh { rs1: Reg, rs2: Reg, imm: Imm12 },
    Sw { rs1: Reg, rs2: Reg, imm: Imm12 },

    // Register and immediate (section 2.4).
    Addi { rd: Reg, rs1: Reg, imm: Imm12 },
    Slti { rd: Reg, rs1: Reg, imm: Imm12 },
    Sltiu { rd: Reg, rs1: Reg, imm: Imm12 },
    Xori { rd: Reg, rs1: Reg, imm: Imm12 },
    Ori { rd: Reg, rs1: Reg, imm: Imm12 },
    Andi { rd: Reg, rs1: Reg, imm: Imm12 },
    Slli { rd: Reg, rs1: Reg, shamt: Shamt },
    Srli { rd: Reg, rs1: Reg, shamt: Shamt },
    Srai { rd: Reg, rs1: Reg, shamt: Shamt },

    // Register and register (section 2.4).
    Add { rd: Reg, rs1: Reg, rs2: Reg },
    Sub { rd: Reg, rs1: Reg, rs2: Reg },
    Sll { rd: Reg, rs1: Reg, rs2: Reg },
    Slt { rd: Reg, rs1: Reg, rs2: Reg },
    Sltu { rd: Reg, rs1: Reg, rs2: Reg },
    Xor { rd: Reg, rs1: Reg, rs2: Reg },
    Srl { rd: Reg, rs1: Reg, rs2: Reg },
    Sra { rd: Reg, rs1: Reg, rs2: Reg },
    Or { rd: Reg, rs1: Reg, rs2: Reg },
    And { rd: Reg, rs1: Reg, rs2: Reg },

    // Multiplication and division (chapter 7).
    Mul { rd: Reg, rs1: Reg, rs2: Reg },
    Mulh { rd: Reg, rs1: Reg, rs2: Reg },
    Mulhsu { rd: Reg, rs1: Reg, rs2: Reg },
    Mulhu { rd: Reg, rs1: Reg, rs2: Reg },
    Div { rd: Reg, rs1: Reg, rs2: Reg },
    Divu { rd: Reg, rs1: Reg, rs2: Reg },
    Rem { rd: Reg, rs1: Reg, rs2: Reg },
    Remu { rd: Reg, rs1: Reg, rs2: Reg },

    // Memory ordering, calls to the environment (sections 2.7, 2.8).
    Fence { rd: Reg, rs1: Reg, upper: Bits12 },
    Ecall,
    Ebreak,
}
