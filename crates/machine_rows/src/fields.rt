//! The fields of an instruction, as they are printed.
use rv_code::Instr;

/// A mnemonic and up to three operands, as numbers.
#[derive(Drop)]
pub struct Shown {
    pub name: &'static str,
    pub operands: [Option<i32>; 3],
}

fn none(name: &'static str) -> Shown {
    Shown {
        name,
        operands: [None, None, None],
    }
}

fn two(name: &'static str, first: i32, second: i32) -> Shown {
    Shown {
        name,
        operands: [Some(first), Some(second), None],
    }
}

fn three(name: &'static str, first: i32, second: i32, third: i32) -> Shown {
    Shown {
        name,
        operands: [Some(first), Some(second), Some(third)],
    }
}

/// The fields of an instruction, in the order of its variant.
pub fn fields_of(instruction: Instr) -> Shown {
    match instruction {
        Instr::Lui { rd, imm } => two("lui", rd.get(), imm.get()),
        Instr::Auipc { rd, imm } => two("auipc", rd.get(), imm.get()),
        Instr::Jal { rd, imm } => two("jal", rd.get(), imm.get()),
        Instr::Jalr { rd, rs1, imm } => three("jalr", rd.get(), rs1.get(), imm.get()),
        Instr::Beq { rs1, rs2, imm } => three("beq", rs1.get(), rs2.get(), imm.get()),
        Instr::Bne { rs1, rs2, imm } => three("bne", rs1.get(), rs2.get(), imm.get()),
        Instr::Blt { rs1, rs2, imm } => three("blt", rs1.get(), rs2.get(), imm.get()),
        Instr::Bge { rs1, rs2, imm } => three("bge", rs1.get(), rs2.get(), imm.get()),
        Instr::Bltu { rs1, rs2, imm } => three("bltu", rs1.get(), rs2.get(), imm.get()),
        Instr::Bgeu { rs1, rs2, imm } => three("bgeu", rs1.get(), rs2.get(), imm.get()),
        Instr::Lb { rd, rs1, imm } => three("lb", rd.get(), rs1.get(), imm.get()),
        Instr::Lh { rd, rs1, imm } => three("lh", rd.get(), rs1.get(), imm.get()),
        Instr::Lw { rd, rs1, imm } => three("lw", rd.get(), rs1.get(), imm.get()),
        Instr::Lbu { rd, rs1, imm } => three("lbu", rd.get(), rs1.get(), imm.get()),
        Instr::Lhu { rd, rs1, imm } => three("lhu", rd.get(), rs1.get(), imm.get()),
        Instr::Sb { rs1, rs2, imm } => three("sb", rs1.get(), rs2.get(), imm.get()),
        Instr::Sh { rs1, rs2, imm } => three("sh", rs1.get(), rs2.get(), imm.get()),
        Instr::Sw { rs1, rs2, imm } => three("sw", rs1.get(), rs2.get(), imm.get()),
        Instr::Addi { rd, rs1, imm } => three("addi", rd.get(), rs1.get(), imm.get()),
        Instr::Slti { rd, rs1, imm } => three("slti", rd.get(), rs1.get(), imm.get()),
        Instr::Sltiu { rd, rs1, imm } => three("sltiu", rd.get(), rs1.get(), imm.get()),
        Instr::Xori { rd, rs1, imm } => three("xori", rd.get(), rs1.get(), imm.get()),
        Instr::Ori { rd, rs1, imm } => three("ori", rd.get(), rs1.get(), imm.get()),
        Instr::Andi { rd, rs1, imm } => three("andi", rd.get(), rs1.get(), imm.get()),
        Instr::Slli { rd, rs1, shamt } => three("slli", rd.get(), rs1.get(), shamt.get()),
        Instr::Srli { rd, rs1, shamt } => three("srli", rd.get(), rs1.get(), shamt.get()),
        Instr::Srai { rd, rs1, shamt } => three("srai", rd.get(), rs1.get(), shamt.get()),
        Instr::Add { rd, rs1, rs2 } => three("add", rd.get(), rs1.get(), rs2.get()),
        Instr::Sub { rd, rs1, rs2 } => three("sub", rd.get(), rs1.get(), rs2.get()),
        Instr::Sll { rd, rs1, rs2 } => three("sll", rd.get(), rs1.get(), rs2.get()),
        Instr::Slt { rd, rs1, rs2 } => three("slt", rd.get(), rs1.get(), rs2.get()),
        Instr::Sltu { rd, rs1, rs2 } => three("sltu", rd.get(), rs1.get(), rs2.get()),
        Instr::Xor { rd, rs1, rs2 } => three("xor", rd.get(), rs1.get(), rs2.get()),
        Instr::Srl { rd, rs1, rs2 } => three("srl", rd.get(), rs1.get(), rs2.get()),
        Instr::Sra { rd, rs1, rs2 } => three("sra", rd.get(), rs1.get(), rs2.get()),
        Instr::Or { rd, rs1, rs2 } => three("or", rd.get(), rs1.get(), rs2.get()),
        Instr::And { rd, rs1, rs2 } => three("and", rd.get(), rs1.get(), rs2.get()),
        Instr::Mul { rd, rs1, rs2 } => three("mul", rd.get(), rs1.get(), rs2.get()),
        Instr::Mulh { rd, rs1, rs2 } => three("mulh", rd.get(), rs1.get(), rs2.get()),
        Instr::Mulhsu { rd, rs1, rs2 } => three("mulhsu", rd.get(), rs1.get(), rs2.get()),
        Instr::Mulhu { rd, rs1, rs2 } => three("mulhu", rd.get(), rs1.get(), rs2.get()),
        Instr::Div { rd, rs1, rs2 } => three("div", rd.get(), rs1.get(), rs2.get()),
        Instr::Divu { rd, rs1, rs2 } => three("divu", rd.get(), rs1.get(), rs2.get()),
        Instr::Rem { rd, rs1, rs2 } => three("rem", rd.get(), rs1.get(), rs2.get()),
        Instr::Remu { rd, rs1, rs2 } => three("remu", rd.get(), rs1.get(), rs2.get()),
        Instr::Fence { rd, rs1, upper } => three("fence", rd.get(), rs1.get(), upper.get()),
        Instr::Ecall => none("ecall"),
        Instr::Ebreak => none("ebreak"),
    }
}
