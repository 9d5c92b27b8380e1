// The fields of an instruction: registers, immediates and shift amounts, each in its range by its type.
// A field keeps its raw bits, as they stand in the word; `new` and `get` speak of the number that they mean.

ghost use Rattle.std.specs.Prelude.{◌≡◌, ℕ, ℤ, ◌+◌, ◌-◌, ◌*◌, ◌%◌, ◌<◌, ◌≤ℤ◌, pos, negsuc, ◌↔◌, IsSome, IfSome};
ghost use Rattle.rv_code.specs.Signed.{signed, signed_twice, IsEven};

/// A register, x0 to x31.
#[derive(Clone, Copy)]
pub struct Reg {
    /// The number itself.
    pub bits: u32,
    pub ghost ok: { bits < 32 },
}

impl Reg {
    /// x0
    pub const ZERO: Reg = Reg { bits: 0 };
    /// x1
    pub const RA: Reg = Reg { bits: 1 };
    /// x2
    pub const SP: Reg = Reg { bits: 2 };
    /// x3
    pub const GP: Reg = Reg { bits: 3 };
    /// x4
    pub const TP: Reg = Reg { bits: 4 };
    /// x5
    pub const T0: Reg = Reg { bits: 5 };
    /// x6
    pub const T1: Reg = Reg { bits: 6 };
    /// x7
    pub const T2: Reg = Reg { bits: 7 };
    /// x8
    pub const S0: Reg = Reg { bits: 8 };
    /// x9
    pub const S1: Reg = Reg { bits: 9 };
    /// x10
    pub const A0: Reg = Reg { bits: 10 };
    /// x11
    pub const A1: Reg = Reg { bits: 11 };
    /// x12
    pub const A2: Reg = Reg { bits: 12 };
    /// x13
    pub const A3: Reg = Reg { bits: 13 };
    /// x14
    pub const A4: Reg = Reg { bits: 14 };
    /// x15
    pub const A5: Reg = Reg { bits: 15 };
    /// x16
    pub const A6: Reg = Reg { bits: 16 };
    /// x17
    pub const A7: Reg = Reg { bits: 17 };
    /// x18
    pub const S2: Reg = Reg { bits: 18 };
    /// x19
    pub const S3: Reg = Reg { bits: 19 };
    /// x20
    pub const S4: Reg = Reg { bits: 20 };
    /// x21
    pub const S5: Reg = Reg { bits: 21 };
    /// x22
    pub const S6: Reg = Reg { bits: 22 };
    /// x23
    pub const S7: Reg = Reg { bits: 23 };
    /// x24
    pub const S8: Reg = Reg { bits: 24 };
    /// x25
    pub const S9: Reg = Reg { bits: 25 };
    /// x26
    pub const S10: Reg = Reg { bits: 26 };
    /// x27
    pub const S11: Reg = Reg { bits: 27 };
    /// x28
    pub const T3: Reg = Reg { bits: 28 };
    /// x29
    pub const T4: Reg = Reg { bits: 29 };
    /// x30
    pub const T5: Reg = Reg { bits: 30 };
    /// x31
    pub const T6: Reg = Reg { bits: 31 };

    /// The field whose bits are `bits`.
    pub fn from_bits(bits: u32) -> Self
        requires { bits < 32 }
        ensures { result.bits ≡ bits }
    {
        Reg { bits }
    }

    /// The field of the number `v`, from 0 to 31.
    pub fn new(v: i32) -> Option<Self>
        ensures some { IsSome result ↔ (pos 0 ≤ℤ v) × (v ≤ℤ pos 31) }
        ensures value { IfSome result (λ field. v ≡ pos field.bits) }
    {
        if v < 0 || v > 31 {
            None
        } else {
            Some(Reg { bits: v as u32 })
        }
    }

    /// The number of the field.
    pub fn get(self) -> i32
        ensures { result ≡ pos self.bits }
    {
        self.bits as i32
    }
}

/// The immediate of the formats I and S: a number of twelve bits with a sign.
#[derive(Clone, Copy)]
pub struct Imm12 {
    /// The twelve bits, imm[11:0].
    pub bits: u32,
    pub ghost ok: { bits < 4096 },
}

impl Imm12 {
    /// The field whose twelve bits are `bits`.
    pub fn from_bits(bits: u32) -> Self
        requires { bits < 4096 }
        ensures { result.bits ≡ bits }
    {
        Imm12 { bits }
    }

    /// The field of the number `v`, from -2048 to 2047.
    pub fn new(v: i32) -> Option<Self>
        ensures some { IsSome result ↔ (negsuc 2047 ≤ℤ v) × (v ≤ℤ pos 2047) }
        ensures value { IfSome result (λ field. v ≡ signed 2048 field.bits) }
    {
        if v < -2048 || v > 2047 {
            None
        } else if v < 0 {
            Some(Imm12 {
                bits: (v + 4096) as u32,
            })
        } else {
            Some(Imm12 { bits: v as u32 })
        }
    }

    /// The number of the field.
    pub fn get(self) -> i32
        ensures { result ≡ signed 2048 self.bits }
    {
        if self.bits < 2048 {
            self.bits as i32
        } else {
            self.bits as i32 - 4096
        }
    }
}

/// The immediate of the format B: an even number of thirteen bits with a sign.
#[derive(Clone, Copy)]
pub struct Imm13 {
    /// The bits of the immediate but for bit 0, imm[12:1].
    pub half: u32,
    pub ghost ok: { half < 4096 },
}

impl Imm13 {
    /// The field whose bits imm[12:1] are `half`.
    pub fn from_half(half: u32) -> Self
        requires { half < 4096 }
        ensures { result.half ≡ half }
    {
        Imm13 { half }
    }

    /// The field of the even number `v`, from -4096 to 4094.
    pub fn new(v: i32) -> Option<Self>
        ensures some { IsSome result ↔ (negsuc 4095 ≤ℤ v) × (v ≤ℤ pos 4094) × IsEven v }
        ensures value { IfSome result (λ field. v ≡ signed_twice 2048 field.half) }
    {
        if v < -4096 || v > 4094 {
            return None;
        }
        let shifted = (v + 4096) as u32;
        if shifted % 2 != 0 {
            None
        } else if shifted < 4096 {
            Some(Imm13 {
                half: shifted / 2 + 2048,
            })
        } else {
            Some(Imm13 {
                half: shifted / 2 - 2048,
            })
        }
    }

    /// The number of the field.
    pub fn get(self) -> i32
        ensures { result ≡ signed_twice 2048 self.half }
    {
        let twice = self.half as i32 * 2;
        if self.half < 2048 {
            twice
        } else {
            twice - 8192
        }
    }
}

/// The immediate of the format U: the upper twenty bits of a word.
#[derive(Clone, Copy)]
pub struct Imm20 {
    /// The number itself.
    pub bits: u32,
    pub ghost ok: { bits < 1048576 },
}

impl Imm20 {
    /// The field whose bits are `bits`.
    pub fn from_bits(bits: u32) -> Self
        requires { bits < 1048576 }
        ensures { result.bits ≡ bits }
    {
        Imm20 { bits }
    }

    /// The field of the number `v`, from 0 to 1048575.
    pub fn new(v: i32) -> Option<Self>
        ensures some { IsSome result ↔ (pos 0 ≤ℤ v) × (v ≤ℤ pos 1048575) }
        ensures value { IfSome result (λ field. v ≡ pos field.bits) }
    {
        if v < 0 || v > 1048575 {
            None
        } else {
            Some(Imm20 { bits: v as u32 })
        }
    }

    /// The number of the field.
    pub fn get(self) -> i32
        ensures { result ≡ pos self.bits }
    {
        self.bits as i32
    }
}

/// The immediate of the format J: an even number of twenty-one bits with a sign.
#[derive(Clone, Copy)]
pub struct Imm21 {
    /// The bits of the immediate but for bit 0, imm[20:1].
    pub half: u32,
    pub ghost ok: { half < 1048576 },
}

impl Imm21 {
    /// The field whose bits imm[20:1] are `half`.
    pub fn from_half(half: u32) -> Self
        requires { half < 1048576 }
        ensures { result.half ≡ half }
    {
        Imm21 { half }
    }

    /// The field of the even number `v`, from -1048576 to 1048574.
    pub fn new(v: i32) -> Option<Self>
        ensures some { IsSome result ↔ (negsuc 1048575 ≤ℤ v) × (v ≤ℤ pos 1048574) × IsEven v }
        ensures value { IfSome result (λ field. v ≡ signed_twice 524288 field.half) }
    {
        if v < -1048576 || v > 1048574 {
            return None;
        }
        let shifted = (v + 1048576) as u32;
        if shifted % 2 != 0 {
            None
        } else if shifted < 1048576 {
            Some(Imm21 {
                half: shifted / 2 + 524288,
            })
        } else {
            Some(Imm21 {
                half: shifted / 2 - 524288,
            })
        }
    }

    /// The number of the field.
    pub fn get(self) -> i32
        ensures { result ≡ signed_twice 524288 self.half }
    {
        let twice = self.half as i32 * 2;
        if self.half < 524288 {
            twice
        } else {
            twice - 2097152
        }
    }
}

/// A shift amount.
#[derive(Clone, Copy)]
pub struct Shamt {
    /// The number itself.
    pub bits: u32,
    pub ghost ok: { bits < 32 },
}

impl Shamt {
    /// The field whose bits are `bits`.
    pub fn from_bits(bits: u32) -> Self
        requires { bits < 32 }
        ensures { result.bits ≡ bits }
    {
        Shamt { bits }
    }

    /// The field of the number `v`, from 0 to 31.
    pub fn new(v: i32) -> Option<Self>
        ensures some { IsSome result ↔ (pos 0 ≤ℤ v) × (v ≤ℤ pos 31) }
        ensures value { IfSome result (λ field. v ≡ pos field.bits) }
    {
        if v < 0 || v > 31 {
            None
        } else {
            Some(Shamt { bits: v as u32 })
        }
    }

    /// The number of the field.
    pub fn get(self) -> i32
        ensures { result ≡ pos self.bits }
    {
        self.bits as i32
    }
}

/// The upper twelve bits of FENCE, kept as they are.
#[derive(Clone, Copy)]
pub struct Bits12 {
    /// The number itself.
    pub bits: u32,
    pub ghost ok: { bits < 4096 },
}

impl Bits12 {
    /// The field whose bits are `bits`.
    pub fn from_bits(bits: u32) -> Self
        requires { bits < 4096 }
        ensures { result.bits ≡ bits }
    {
        Bits12 { bits }
    }

    /// The field of the number `v`, from 0 to 4095.
    pub fn new(v: i32) -> Option<Self>
        ensures some { IsSome result ↔ (pos 0 ≤ℤ v) × (v ≤ℤ pos 4095) }
        ensures value { IfSome result (λ field. v ≡ pos field.bits) }
    {
        if v < 0 || v > 4095 {
            None
        } else {
            Some(Bits12 { bits: v as u32 })
        }
    }

    /// The number of the field.
    pub fn get(self) -> i32
        ensures { result ≡ pos self.bits }
    {
        self.bits as i32
    }
}
