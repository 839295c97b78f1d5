// Rows of three numbers, written into a lent buffer as far as it reaches.
#![tactic(auto)]

ghost use Rattle.std.specs.Prelude.{◌≡◌, ◌≤◌, set};
ghost use Rattle.ground.specs.Puts.{Puts};

// A buffer, and the place after the rows that were written into it.
#[derive(Drop)]
pub struct Rows<'a> {
    pub buffer: &'a mut [u32],
    pub at: usize,
}

// One number at a place, where that is within the buffer.
fn store(buffer: &mut [u32], at: usize, v: u32)
    ensures { buffer.new ≡ set buffer.old at v }
{
    if at < buffer.len() {
        buffer[at] = v;
    }
}

impl<'a> Rows<'a> {
    // No rows yet, at the buffer's start.
    pub fn new(buffer: &'a mut [u32]) -> Rows<'a>
        ensures same_reference { result.buffer.ghost_name ≡ buffer.entry.ghost_name }
        ensures unchanged { result.buffer.now ≡ buffer.old }
        ensures start { result.at ≡ 0 }
    {
        Rows { buffer, at: 0 }
    }

    // One row behind the others.
    pub fn put(&mut self, row: [u32; 3])
        requires { self.old.at ≤ 1000000 }
        ensures { Puts row self.old self.new }
    {
        let at = self.at;
        let [a, b, c] = row;
        store(self.buffer, at, a);
        store(self.buffer, at + 1, b);
        store(self.buffer, at + 2, c);
        self.at = at + 3;
    }
}
