//! The instructions that the emission is made of, each put before those that are there.
ghost use Rattle.std.specs.Prelude.{◌≡◌, ℕ, [], ◌∷◌, ◌++◌, ◌+◌, ◌*◌, ◌%◌, ◌^◌, ◌<◌, ◌≤◌, OnOk, length, map};
ghost use Rattle.rv_code.specs.Field.{reg, imm12, imm20};
ghost use Rattle.rv_code.specs.Word.{word_of};
ghost use Rattle.rv_code.specs.declared.instruction.Instr.TheVariants.{Addi, Add, Auipc, Jalr};
ghost use Rattle.rv_emit.specs.Code as spec;
ghost use Rattle.rv_emit.specs.Emission.{IsNear, Puts};

use bed_syntax::{BOp, Size};
use reg_alloc::At;
use rup_base::NoMemory;
use rv_code::{Imm12, Imm13, Imm20, Imm21, Instr, Reg};

/// Puts an instruction before the others, which stand in their order from the last to the first.
pub fn put(code: &mut Vec<Instr>, i: Instr) -> Result<(), NoMemory>
    ensures words { OnOk result (map word_of code.new.items ≡ map word_of code.old.items ++ word_of i ∷ []) }
    ensures counted { OnOk result (length code.new.items ≡ length code.old.items + 1) }
{
    code.push(i)?;
    Ok(())
}

/// From a place into a register.
pub fn fetch(r: Reg, at: At) -> Instr
    requires { IsNear at }
    ensures { word_of result ≡ word_of (spec.fetch r.bits at) }
{
    match at {
        At::Reg(q) => Instr::Addi {
            rd: r,
            rs1: Reg::from_bits(u32::from(q)),
            imm: Imm12::from_bits(0),
        },
        At::Slot(j) => Instr::Lw {
            rd: r,
            rs1: Reg::SP,
            imm: Imm12::from_bits(4 * j),
        },
    }
}

/// From a register into a place.
pub fn save(r: Reg, at: At) -> Instr
    requires { IsNear at }
    ensures { word_of result ≡ word_of (spec.save r.bits at) }
{
    match at {
        At::Reg(q) => Instr::Addi {
            rd: Reg::from_bits(u32::from(q)),
            rs1: r,
            imm: Imm12::from_bits(0),
        },
        At::Slot(j) => Instr::Sw {
            rs1: Reg::SP,
            rs2: r,
            imm: Imm12::from_bits(4 * j),
        },
    }
}

/// The register that is the place, or that stands for a slot.
pub fn register_of(t: Reg, at: At) -> Reg
    requires { IsNear at }
    ensures { result.bits ≡ spec.register_of t.bits at }
{
    match at {
        At::Reg(q) => Reg::from_bits(u32::from(q)),
        At::Slot(_) => t,
    }
}

/// What brings an operand into the register that stands for its slot.
pub fn from_slot(t: Reg, at: At, code: &mut Vec<Instr>) -> Result<(), NoMemory>
    requires { IsNear at }
    ensures words { OnOk result (Puts code.old.items code.new.items (spec.from_slot t.bits at)) }
    ensures counted { OnOk result (length code.new.items ≤ length code.old.items + 1) }
{
    match at {
        At::Reg(_) => Ok(()),
        At::Slot(_) => put(code, fetch(t, at)),
    }
}

/// What takes a result from t0 into its slot.
pub fn to_slot(at: At, code: &mut Vec<Instr>) -> Result<(), NoMemory>
    requires { IsNear at }
    ensures words { OnOk result (Puts code.old.items code.new.items (spec.to_slot at)) }
    ensures counted { OnOk result (length code.new.items ≤ length code.old.items + 1) }
{
    match at {
        At::Reg(_) => Ok(()),
        At::Slot(_) => put(code, save(Reg::T0, at)),
    }
}

/// A value goes from one place to another.
pub fn copied(to: At, from: At, code: &mut Vec<Instr>) -> Result<(), NoMemory>
    requires target { IsNear to }
    requires source { IsNear from }
    ensures words { OnOk result (Puts code.old.items code.new.items (spec.copied to from)) }
    ensures counted { OnOk result (length code.new.items ≤ length code.old.items + 2) }
{
    match to {
        At::Reg(q) => put(code, fetch(Reg::from_bits(u32::from(q)), from)),
        At::Slot(_) => {
            put(code, save(register_of(Reg::T0, from), to))?;
            from_slot(Reg::T0, from, code)
        }
    }
}

/// The upper twenty bits of a number, to which its low twelve bits are added with their sign.
pub fn upper(number: u32) -> Imm20
    ensures { (n : ℕ) → n % 2 ^ 32 ≡ number → result.bits ≡ spec.upper n % 1048576 }
{
    Imm20::from_bits(number.wrapping_add(2048) >> 12)
}

/// A register becomes a word: by one instruction where twelve bits with a sign make it.
pub fn literal(rd: Reg, value: u32, code: &mut Vec<Instr>) -> Result<(), NoMemory>
    ensures words { OnOk result (Puts code.old.items code.new.items (spec.literal rd.bits value)) }
    ensures counted { OnOk result (length code.new.items ≤ length code.old.items + 2) }
{
    let imm = Imm12::from_bits(value % 4096);
    if value.wrapping_add(2048) < 4096 {
        let rs1 = Reg::ZERO;
        put(code, Instr::Addi { rd, rs1, imm })
    } else {
        let rs1 = Reg::T0;
        put(code, Instr::Addi { rd, rs1, imm })?;
        put(
            code,
            Instr::Lui {
                rd: Reg::T0,
                imm: upper(value),
            },
        )
    }
}

/// A load into a register from the low twelve bits of a number, with their sign, behind the address in another.
pub fn load_at(size: Size, rd: Reg, rs1: Reg, number: u32) -> Instr
    ensures { (n : ℕ) → n % 4096 ≡ number % 4096 → word_of result ≡ word_of (spec.load_at size rd.bits rs1.bits n) }
{
    let imm = Imm12::from_bits(number % 4096);
    match size {
        Size::One => Instr::Lbu { rd, rs1, imm },
        Size::Two => Instr::Lhu { rd, rs1, imm },
        Size::Four => Instr::Lw { rd, rs1, imm },
    }
}

/// A store of a register to the address in another.
pub fn store_to(size: Size, rs1: Reg, rs2: Reg) -> Instr
    ensures { word_of result ≡ word_of (spec.store_to size rs1.bits rs2.bits) }
{
    let imm = Imm12::from_bits(0);
    match size {
        Size::One => Instr::Sb { rs1, rs2, imm },
        Size::Two => Instr::Sh { rs1, rs2, imm },
        Size::Four => Instr::Sw { rs1, rs2, imm },
    }
}

/// A jump so many instructions forward.
pub fn jump(count: u32) -> Instr
    requires { count < 262144 }
    ensures { word_of result ≡ word_of (spec.jump count) }
{
    Instr::Jal {
        rd: Reg::ZERO,
        imm: Imm21::from_half(2 * count),
    }
}

/// A jump so many instructions back.
pub fn jump_back(count: u32) -> Instr
    requires { count < 262144 }
    ensures { word_of result ≡ word_of (spec.jump_back count) }
{
    Instr::Jal {
        rd: Reg::ZERO,
        imm: Imm21::from_half((1048576 - 2 * count) % 1048576),
    }
}

/// Over so many instructions where a register is 0.
pub fn over(rs1: Reg, count: u32, code: &mut Vec<Instr>) -> Result<(), NoMemory>
    requires { count < 262143 }
    ensures words { OnOk result (Puts code.old.items code.new.items (spec.over rs1.bits count)) }
    ensures counted { OnOk result (length code.new.items ≤ length code.old.items + 2) }
{
    let rs2 = Reg::ZERO;
    if count < 1022 {
        let imm = Imm13::from_half(2 * (count + 1));
        put(code, Instr::Beq { rs1, rs2, imm })
    } else {
        put(code, jump(count + 1))?;
        let imm = Imm13::from_half(4);
        put(code, Instr::Bne { rs1, rs2, imm })
    }
}

/// A register becomes the result of an operation at two others.
pub fn operate(op: BOp, rd: Reg, rs1: Reg, rs2: Reg, code: &mut Vec<Instr>) -> Result<(), NoMemory>
    ensures words { OnOk result (Puts code.old.items code.new.items (spec.operation op rd.bits rs1.bits rs2.bits)) }
    ensures counted { OnOk result (length code.new.items ≤ length code.old.items + 2) }
{
    match op {
        BOp::Add => put(code, Instr::Add { rd, rs1, rs2 }),
        BOp::Sub => put(code, Instr::Sub { rd, rs1, rs2 }),
        BOp::Mul => put(code, Instr::Mul { rd, rs1, rs2 }),
        BOp::Mulhuu => put(code, Instr::Mulhu { rd, rs1, rs2 }),
        BOp::Divu => put(code, Instr::Divu { rd, rs1, rs2 }),
        BOp::Remu => put(code, Instr::Remu { rd, rs1, rs2 }),
        BOp::And => put(code, Instr::And { rd, rs1, rs2 }),
        BOp::Or => put(code, Instr::Or { rd, rs1, rs2 }),
        BOp::Xor => put(code, Instr::Xor { rd, rs1, rs2 }),
        BOp::Sru => put(code, Instr::Srl { rd, rs1, rs2 }),
        BOp::Slu => put(code, Instr::Sll { rd, rs1, rs2 }),
        BOp::Srs => put(code, Instr::Sra { rd, rs1, rs2 }),
        BOp::Lts => put(code, Instr::Slt { rd, rs1, rs2 }),
        BOp::Ltu => put(code, Instr::Sltu { rd, rs1, rs2 }),
        BOp::Eq => {
            let imm = Imm12::from_bits(1);
            put(
                code,
                Instr::Sltiu {
                    rd,
                    rs1: Reg::T0,
                    imm,
                },
            )?;
            put(
                code,
                Instr::Sub {
                    rd: Reg::T0,
                    rs1,
                    rs2,
                },
            )
        }
    }
}

/// A number of twelve bits with a sign is added to the stack pointer.
pub fn move_sp(bits: u32) -> Instr
    requires { bits < 4096 }
    ensures { word_of result ≡ word_of (Addi (reg 2) (reg 2) (imm12 bits)) }
{
    Instr::Addi {
        rd: Reg::SP,
        rs1: Reg::SP,
        imm: Imm12::from_bits(bits),
    }
}

/// A jump to where the code was called from.
pub fn go_back() -> Instr
    ensures { word_of result ≡ word_of (Jalr (reg 0) (reg 1) (imm12 0)) }
{
    Instr::Jalr {
        rd: Reg::ZERO,
        rs1: Reg::RA,
        imm: Imm12::from_bits(0),
    }
}
