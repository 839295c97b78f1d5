// Signed numbers as a sign and a size, so that dividing the size cuts toward zero; the first implementation takes i64, and the two
// are to differ.
ghost use Rattle.std.specs.Prelude.{◌≡◌, ◌+◌, ◌-◌, ◌*◌, ◌≤◌};

use std::ops::{Add, Mul, Neg, Sub};

// 10^9, the unit of the fractions.
pub(crate) const E: u64 = 1_000_000_000;

// A number: its size, and whether it stands below zero.
#[derive(Clone, Copy)]
pub(crate) struct Signed {
    pub(crate) minus: bool,
    pub(crate) size: u64,
}

impl Signed {
    // a - b of two numbers that are not below zero.
    pub(crate) fn difference(a: u64, b: u64) -> Signed
        ensures { result.size ≡ (a - b) + (b - a) }
    {
        Signed {
            minus: a < b,
            size: a.abs_diff(b),
        }
    }
}

impl From<u64> for Signed {
    ghost from_gives = { λ size r. r.size ≡ size };

    fn from(size: u64) -> Signed {
        Signed { minus: false, size }
    }
}

impl Neg for Signed {
    type Output = Signed;

    ghost neg_gives = { λ a r. r.size ≡ a.size };

    fn neg(self) -> Signed {
        Signed {
            minus: !self.minus,
            size: self.size,
        }
    }
}

impl Add for Signed {
    type Output = Signed;

    ghost can_add = { λ a b. (a.size ≤ 10000000000) × (b.size ≤ 10000000000) };

    ghost add_gives = { λ a b r. r.size ≤ a.size + b.size };

    fn add(self, other: Signed) -> Signed {
        if self.minus == other.minus {
            Signed {
                minus: self.minus,
                size: self.size + other.size,
            }
        } else if self.size < other.size {
            Signed {
                minus: other.minus,
                size: other.size - self.size,
            }
        } else {
            Signed {
                minus: self.minus,
                size: self.size - other.size,
            }
        }
    }
}

impl Sub for Signed {
    type Output = Signed;

    ghost can_sub = { λ a b. (a.size ≤ 10000000000) × (b.size ≤ 10000000000) };

    ghost sub_gives = { λ a b r. r.size ≤ a.size + b.size };

    fn sub(self, other: Signed) -> Signed {
        self + -other
    }
}

// a × b / E: the product of two fractions.
impl Mul for Signed {
    type Output = Signed;

    ghost can_mul = { λ a b. (a.size ≤ 1200000000) × (b.size ≤ 5000000000) };

    ghost mul_gives = { λ a b r. (b.size ≤ 1000000000 → r.size ≤ a.size) × (r.size ≤ 5 * a.size) };

    fn mul(self, other: Signed) -> Signed {
        Signed {
            minus: self.minus != other.minus,
            size: self.size * other.size / E,
        }
    }
}
