//! The instruction of a mnemonic and its fields: what `fields_of` shows, the other way round.
use rv_code::{Bits12, Imm12, Imm13, Imm20, Imm21, Instr, Reg, Shamt};

/// The instruction with these fields, in the order of its variant; none for another mnemonic, and where a field is out
/// of its range.
pub fn instruction_of(name: &str, operands: [i32; 3]) -> Option<Instr> {
    let name = name.as_bytes();
    let [a, b, c] = operands;
    upper(name, a, b)
        .or(jump(name, a, b))
        .or(immediate(name, a, b, c))
        .or(branch(name, a, b, c))
        .or(store(name, a, b, c))
        .or(shift(name, a, b, c))
        .or(registers(name, a, b, c))
        .or(fence(name, a, b, c))
        .or(environment(name))
}

/// An upper immediate.
fn upper(name: &[u8], a: i32, b: i32) -> Option<Instr> {
    let rd = Reg::new(a)?;
    let imm = Imm20::new(b)?;
    Some(match name {
        b"lui" => Instr::Lui { rd, imm },
        b"auipc" => Instr::Auipc { rd, imm },
        _ => return None,
    })
}

/// A jump.
fn jump(name: &[u8], a: i32, b: i32) -> Option<Instr> {
    let rd = Reg::new(a)?;
    let imm = Imm21::new(b)?;
    Some(match name {
        b"jal" => Instr::Jal { rd, imm },
        _ => return None,
    })
}

/// An instruction of the format I.
fn immediate(name: &[u8], a: i32, b: i32, c: i32) -> Option<Instr> {
    let rd = Reg::new(a)?;
    let rs1 = Reg::new(b)?;
    let imm = Imm12::new(c)?;
    Some(match name {
        b"jalr" => Instr::Jalr { rd, rs1, imm },
        b"lb" => Instr::Lb { rd, rs1, imm },
        b"lh" => Instr::Lh { rd, rs1, imm },
        b"lw" => Instr::Lw { rd, rs1, imm },
        b"lbu" => Instr::Lbu { rd, rs1, imm },
        b"lhu" => Instr::Lhu { rd, rs1, imm },
        b"addi" => Instr::Addi { rd, rs1, imm },
        b"slti" => Instr::Slti { rd, rs1, imm },
        b"sltiu" => Instr::Sltiu { rd, rs1, imm },
        b"xori" => Instr::Xori { rd, rs1, imm },
        b"ori" => Instr::Ori { rd, rs1, imm },
        b"andi" => Instr::Andi { rd, rs1, imm },
        _ => return None,
    })
}

/// A conditional branch.
fn branch(name: &[u8], a: i32, b: i32, c: i32) -> Option<Instr> {
    let rs1 = Reg::new(a)?;
    let rs2 = Reg::new(b)?;
    let imm = Imm13::new(c)?;
    Some(match name {
        b"beq" => Instr::Beq { rs1, rs2, imm },
        b"bne" => Instr::Bne { rs1, rs2, imm },
        b"blt" => Instr::Blt { rs1, rs2, imm },
        b"bge" => Instr::Bge { rs1, rs2, imm },
        b"bltu" => Instr::Bltu { rs1, rs2, imm },
        b"bgeu" => Instr::Bgeu { rs1, rs2, imm },
        _ => return None,
    })
}

/// A store.
fn store(name: &[u8], a: i32, b: i32, c: i32) -> Option<Instr> {
    let rs1 = Reg::new(a)?;
    let rs2 = Reg::new(b)?;
    let imm = Imm12::new(c)?;
    Some(match name {
        b"sb" => Instr::Sb { rs1, rs2, imm },
        b"sh" => Instr::Sh { rs1, rs2, imm },
        b"sw" => Instr::Sw { rs1, rs2, imm },
        _ => return None,
    })
}

/// A shift by an amount.
fn shift(name: &[u8], a: i32, b: i32, c: i32) -> Option<Instr> {
    let rd = Reg::new(a)?;
    let rs1 = Reg::new(b)?;
    let shamt = Shamt::new(c)?;
    Some(match name {
        b"slli" => Instr::Slli { rd, rs1, shamt },
        b"srli" => Instr::Srli { rd, rs1, shamt },
        b"srai" => Instr::Srai { rd, rs1, shamt },
        _ => return None,
    })
}

/// An instruction of the format R.
fn registers(name: &[u8], a: i32, b: i32, c: i32) -> Option<Instr> {
    let rd = Reg::new(a)?;
    let rs1 = Reg::new(b)?;
    let rs2 = Reg::new(c)?;
    Some(match name {
        b"add" => Instr::Add { rd, rs1, rs2 },
        b"sub" => Instr::Sub { rd, rs1, rs2 },
        b"sll" => Instr::Sll { rd, rs1, rs2 },
        b"slt" => Instr::Slt { rd, rs1, rs2 },
        b"sltu" => Instr::Sltu { rd, rs1, rs2 },
        b"xor" => Instr::Xor { rd, rs1, rs2 },
        b"srl" => Instr::Srl { rd, rs1, rs2 },
        b"sra" => Instr::Sra { rd, rs1, rs2 },
        b"or" => Instr::Or { rd, rs1, rs2 },
        b"and" => Instr::And { rd, rs1, rs2 },
        b"mul" => Instr::Mul { rd, rs1, rs2 },
        b"mulh" => Instr::Mulh { rd, rs1, rs2 },
        b"mulhsu" => Instr::Mulhsu { rd, rs1, rs2 },
        b"mulhu" => Instr::Mulhu { rd, rs1, rs2 },
        b"div" => Instr::Div { rd, rs1, rs2 },
        b"divu" => Instr::Divu { rd, rs1, rs2 },
        b"rem" => Instr::Rem { rd, rs1, rs2 },
        b"remu" => Instr::Remu { rd, rs1, rs2 },
        _ => return None,
    })
}

/// A fence.
fn fence(name: &[u8], a: i32, b: i32, c: i32) -> Option<Instr> {
    let rd = Reg::new(a)?;
    let rs1 = Reg::new(b)?;
    let upper = Bits12::new(c)?;
    Some(match name {
        b"fence" => Instr::Fence { rd, rs1, upper },
        _ => return None,
    })
}

/// A call to the environment.
fn environment(name: &[u8]) -> Option<Instr> {
    Some(match name {
        b"ecall" => Instr::Ecall,
        b"ebreak" => Instr::Ebreak,
        _ => return None,
    })
}
