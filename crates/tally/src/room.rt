// The room that a question is asked with.
ghost use Rattle.std.specs.Prelude.{◌<◌};

use super::shown::{extra_of, number_of};
use scenes::Chance;

// Places that are plenty more than needed.
pub const PLENTY: usize = 300;

// The places that an answer to a question with one place of room calls for; 64 where it is refused for another reason.
pub fn needed(answer: u64) -> usize
    ensures { result < 4294967296 }
{
    match number_of(answer) {
        0 | 22 => extra_of(answer) as usize,
        _ => 64,
    }
}

// Room for so many places: exactly, one less, a few more, a part, or plenty.
pub fn room_for(chance: &mut Chance, need: usize) -> usize
    requires { need < 4294967296 }
{
    match chance.below(6) {
        0 | 1 => need,
        2 => need.saturating_sub(1),
        3 => need + chance.below(40) as usize,
        4 => need + PLENTY,
        _ => chance.below(1 + (need % 65_536) as u32) as usize,
    }
}
