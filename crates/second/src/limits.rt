// The square that S is held to for two classes at a column; 0 where there is none.
ghost use Rattle.std.specs.Prelude.{◌<◌};

pub fn limit(a: u32, b: u32, column: u32) -> u64
    ensures { result < 100000000000000 }
{
    second_rule::limit(u64::from(a), u64::from(b), u64::from(column))
}
