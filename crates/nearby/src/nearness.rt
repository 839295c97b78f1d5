// The channels to which no column applies: their records are passed over.
ghost use Rattle.std.specs.Prelude.{◌≤◌, length, ◌≡◌};
ghost use Rattle.nearby.specs.Positions.{Asked, Free, Held};

// The channels at a difference from one are not free.
fn hold(free: &mut [bool; 256], channel: usize, d: usize)
    requires { (Asked channel) × (d ≤ 54) }
    ensures { Held channel d free.old free.new }
{
    free[(channel + d) % 256] = false;
    free[(channel - d) % 256] = false;
}

// For each channel, at its number's last byte, whether no column applies to it and this one: made once for a walk and lent on.
pub fn free_of(channel: usize) -> [bool; 256]
    requires { Asked channel }
    ensures { Free channel result }
{
    let mut free = [true; 256];
    hold(&mut free, channel, 0);
    hold(&mut free, channel, 1);
    hold(&mut free, channel, 2);
    hold(&mut free, channel, 3);
    hold(&mut free, channel, 53);
    hold(&mut free, channel, 54);
    free
}
