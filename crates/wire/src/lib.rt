// Big-endian numbers in a slice of bytes: 8, 16 and 32 bits, and 32 bits signed. And numbers with the lowest byte first, which are for
// comparing bytes.
#![tactic(auto)]

ghost use Rattle.std.specs.Prelude.{◌≡◌, ◌+◌, ◌^◌, ◌≤◌, ◌<◌, ℕ, length};
ghost use Rattle.std.specs.Int.{w32};
ghost use Rattle.std.proofs.Common.{to_z, of_z, rules};
ghost use Rattle.wire.specs.Be.{be, put};
ghost use Rattle.wire.specs.Le.{le};

// A number that takes WIDTH bytes, and its bits as a number from 0 up.
pub trait Number: Copy {
    const WIDTH: usize;

    ghost WIDTH: { ℕ };

    ghost of_bits: { ℕ → Self };

    ghost bits: { Self → ℕ };

    fn of_bits(n: u32) -> Self
        requires { n < 256 ^ WIDTH }
        ensures { result ≡ of_bits n };

    fn bits(self) -> u32
        ensures { result ≡ bits self };

    // The number in the bytes of s from `at` on: in a line, which the compiler makes one load; by a loop over the bytes, the judgement of
    // a record takes 61 instructions in place of 51.
    fn read(s: &[u8], at: usize) -> Self
        requires { at + WIDTH ≤ length s.now }
        ensures { result ≡ of_bits (be WIDTH s.now at) };

    ghost short: { WIDTH ≤ 4 };
}

impl Number for u8 {
    const WIDTH: usize = 1;

    ghost WIDTH = { 1 };

    ghost of_bits = { λ n. n };

    ghost bits = { λ n. n };

    ghost short = { Prim.search rules };

    fn of_bits(n: u32) -> u8 {
        n as u8
    }

    fn bits(self) -> u32 {
        u32::from(self)
    }

    fn read(s: &[u8], at: usize) -> u8 {
        s[at]
    }
}

impl Number for u16 {
    const WIDTH: usize = 2;

    ghost WIDTH = { 2 };

    ghost of_bits = { λ n. n };

    ghost bits = { λ n. n };

    ghost short = { Prim.search rules };

    fn of_bits(n: u32) -> u16 {
        n as u16
    }

    fn bits(self) -> u32 {
        u32::from(self)
    }

    fn read(s: &[u8], at: usize) -> u16 {
        u16::from(s[at]) * 256 + u16::from(s[at + 1])
    }
}

impl Number for u32 {
    const WIDTH: usize = 4;

    ghost WIDTH = { 4 };

    ghost of_bits = { λ n. n };

    ghost bits = { λ n. n };

    ghost short = { Prim.search rules };

    fn of_bits(n: u32) -> u32 {
        n
    }

    fn bits(self) -> u32 {
        self
    }

    fn read(s: &[u8], at: usize) -> u32 {
        u32::from(u16::read(s, at)) * 65536 + u32::from(u16::read(s, at + 2))
    }
}

impl Number for i32 {
    const WIDTH: usize = 4;

    ghost WIDTH = { 4 };

    ghost of_bits = { to_z w32 };

    ghost bits = { of_z w32 };

    ghost short = { Prim.search rules };

    fn of_bits(n: u32) -> i32 {
        n.cast_signed()
    }

    fn bits(self) -> u32 {
        self.cast_unsigned()
    }

    fn read(s: &[u8], at: usize) -> i32 {
        u32::read(s, at).cast_signed()
    }
}

// The number in the bytes of s from `at` on.
pub fn get<T: Number>(s: &[u8], at: usize) -> T
    requires { at + T.WIDTH ≤ length s.now }
    ensures { result ≡ T.of_bits (be T.WIDTH s.now at) }
{
    T::read(s, at)
}

// The same with the lowest byte first.
pub fn low<T: Number>(s: &[u8], at: usize) -> T
    requires { at + T.WIDTH ≤ length s.now }
    ensures { result ≡ T.of_bits (le T.WIDTH s.now at) }
{
    let mut number: u32 = 0;
    for i in (0..T::WIDTH).rev() {
        number = number * 256 + u32::from(s[at + i]);
    }
    T::of_bits(number)
}

// The bytes of v, stored from `at` on.
pub fn put<T: Number>(s: &mut [u8], at: usize, v: T)
    requires { at + T.WIDTH ≤ length s.old }
    ensures { s.new ≡ put T.WIDTH s.old at (T.bits v) }
{
    let mut bits = v.bits();
    for i in (0..T::WIDTH).rev() {
        s[at + i] = (bits % 256) as u8;
        bits = bits / 256;
    }
}
