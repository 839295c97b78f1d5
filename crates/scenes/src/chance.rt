// Made numbers: xorshift from a fixed seed.
ghost use Rattle.std.specs.Prelude.{◌≡◌, ◌/◌, ◌%◌, ◌<◌, ◌^◌, ◌↔◌, IsTrue};
ghost use Rattle.scenes.specs.Chance.{turned};

// Where the made numbers start.
pub const SEED: u64 = 88_172_645_463_325_252;

// One turn of xorshift on 64 bits.
#[tactic(auto, unfolding(crate::specs::Chance::turned))]
pub fn mixed(x: u64) -> u64
    ensures { result ≡ turned x }
{
    let a = x ^ (x << 13);
    let b = a ^ (a >> 7);
    b ^ (b << 17)
}

// A row of made numbers.
#[derive(Debug, Drop)]
pub struct Chance {
    pub state: u64,
}

impl Chance {
    // The row from a seed on.
    pub fn new(seed: u64) -> Chance
        ensures { result.state ≡ seed }
    {
        Chance { state: seed }
    }

    // The next made number, below n.
    pub fn below(&mut self, n: u32) -> u32
        requires { 0 < n }
        ensures drawn { result ≡ self.new.state / 2 ^ 32 % n }
        ensures next { self.new.state ≡ turned self.old.state }
        ensures within { result < n }
    {
        self.state = mixed(self.state);
        (self.state / 4_294_967_296) as u32 % n
    }

    // True once in n times.
    pub fn once_in(&mut self, n: u32) -> bool
        requires { 0 < n }
        ensures drawn { IsTrue result ↔ (self.new.state / 2 ^ 32 % n ≡ 0) }
        ensures next { self.new.state ≡ turned self.old.state }
    {
        self.below(n) == 0
    }
}
