// Rows of three numbers in a buffer.
ghost use Rattle.std.specs.Prelude.{◌≡◌, ◌+◌, ◌-◌, ◌^◌, ◌≤◌, min, length, IfOk, MatchResult};
ghost use Rattle.std.specs.Borrow.{MutBor};
ghost use Rattle.second.specs.declared.rows.Rows.{Rows};

use super::answer::Refusal;
use std::slice::IterMut;

// A buffer that rows are put into: each is written where there is room, and counted in any case.
#[derive(Drop)]
pub(crate) struct Rows<'a> {
    free: IterMut<'a, [u32; 3]>,
    numbers: u32,
}

impl<'a> Rows<'a> {
    // An empty buffer.
    pub(crate) fn new(room: &'a mut [u32]) -> Rows<'a>
        ensures { result.numbers ≡ 0 }
    {
        let (places, _) = room.as_chunks_mut::<3>();
        Rows {
            free: places.iter_mut(),
            numbers: 0,
        }
    }

    // Puts a row behind those before it. Those of a table are far below 2^32, so the count is exact.
    pub(crate) fn push(&mut self, row: [u32; 3])
        ensures { self.new.numbers ≡ min (self.old.numbers + 3) (2 ^ 32 - 1) }
    {
        if let Some(place) = self.free.next() {
            *place = row;
        }
        self.numbers = self.numbers.saturating_add(3);
    }

    // How many numbers the rows are.
    pub(crate) fn numbers(&self) -> u32
        ensures { result ≡ self.now.numbers }
    {
        self.numbers
    }
}

// Puts rows into a buffer if all fit, counting them before; gives how many numbers they are.
pub(crate) fn put_all<F: Fn(&mut Rows<'_>)>(room: &mut [u32], put: F) -> Result<u32, Refusal>
    requires { F.IsAlwaysCallable put }
    ensures fits { IfOk result (λ need. need ≤ length room.old) }
    ensures counted { (empty full : MutBor Rows) × (empty.now.numbers ≡ 0) × F.post put empty tt full × MatchResult result (λ need. need ≡ full.now.numbers) (λ refusal. refusal ≡ Refusal.NoRoom full.now.numbers) }
{
    let mut counted = Rows::new(&mut []);
    put(&mut counted);
    let need = counted.numbers();
    if room.len() < need as usize {
        return Err(Refusal::NoRoom(need));
    }
    put(&mut Rows::new(room));
    Ok(need)
}
