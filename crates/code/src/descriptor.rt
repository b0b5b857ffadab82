// The descriptor of an array's cells, which an operand holds as one number.
ghost use Rattle.std.specs.Prelude.{◌≡◌, IfSome};
ghost use Rattle.code.specs.Descriptors.{Unpacks, low_bound, packed, range_ok, unpacked};

// The cells `first` to `first + count - 1`; the low bound is held as `biased_low`, 10,000 more.
#[derive(Clone, Copy)]
pub struct Descriptor {
    pub first: usize,
    pub count: usize,
    pub biased_low: u64,
}

// The three parts of an operand; `pack` gives the operand back.
impl From<u64> for Descriptor {
    ghost from_gives = { Unpacks };

    fn from(operand: u64) -> Descriptor {
        Descriptor {
            first: (operand % 4_096) as usize,
            count: (operand / 4_096 % 4_096) as usize,
            biased_low: operand / 16_777_216,
        }
    }
}

impl Descriptor {
    // The operand of the three parts, if they have one.
    pub fn pack(self) -> Option<u64>
        ensures value { result ≡ packed self }
        ensures undone { IfSome result (λ x. unpacked x ≡ self) }
    {
        if self.first < 4_096 && self.count < 4_096 && self.biased_low < 1 << 40 {
            Some(self.first as u64 + 4_096 * self.count as u64 + 16_777_216 * self.biased_low)
        } else {
            None
        }
    }

    // Whether it names at least one cell, only cells below `cells`, and a low bound within 9,999 of 0.
    pub fn lies_below(self, cells: u32) -> bool
        ensures { result ≡ range_ok cells self }
    {
        let cells = cells as usize;
        self.count >= 1
            && self.count <= cells
            && self.first <= cells - self.count
            && self.low_bound().is_some()
    }

    // The low bound, if it is within 9,999 of 0.
    pub fn low_bound(self) -> Option<i32>
        ensures { result ≡ low_bound self }
    {
        if self.biased_low >= 1 && self.biased_low <= 19_999 {
            Some(self.biased_low as i32 - 10_000)
        } else {
            None
        }
    }
}
