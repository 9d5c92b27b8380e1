// RV32IM instruction words, both ways: an enumeration with a variant a mnemonic, its word, and the
// instruction of a word (RISC-V Unprivileged ISA 20191213, chapters 2 and 7).
#![tactic(auto)]

mod decoding;
mod encoding;
mod fields;
mod instruction;

pub use decoding::decode;
pub use encoding::{encode, one_instruction_a_word};
pub use fields::{Bits12, Imm12, Imm13, Imm20, Imm21, Reg, Shamt};
pub use instruction::Instr;
