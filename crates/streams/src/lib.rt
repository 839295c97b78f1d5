// Standard input and output: the one place where bytes come from the system and are handed to it.
#![tactic(auto)]

ghost use Rattle.std.specs.Prelude.{◌≡◌, ◌+◌, ◌≤◌, length, take};
ghost use Rattle.streams.specs.Pieces.{Roomed};
ghost use Rattle.streams.specs.Tells.{Came, Tells};

// Standard output.
const OUT: i32 = 1;

// The bytes of a buffer for the input, or for a text.
pub const SPACE: usize = 65_536;

// A write that did not take all that it was handed.
#[derive(Clone, Copy, Debug, PartialEq, Eq)]
pub struct Unwritten;

// A buffer for the input, or for a text.
pub fn space() -> [u8; SPACE]
    ensures { 65536 ≡ length result }
{
    io::large_buffer()
}

// Reads into the buffer until it is full or the input ends; answers how many bytes.
pub fn read(fd: i32, input: &mut [u8]) -> usize
    ensures upper_bound { result ≤ length input.new }
    ensures came { Came (take result input.new) }
{
    io::read_full(fd, input)
}

// Hands over a text; the mark goes on by as many bytes.
pub fn hand(text: &[u8], mark: &mut usize) -> Result<(), Unwritten>
    ensures { Tells text.now mark.old mark.new result }
{
    if !io::write_all(OUT, text) {
        return Err(Unwritten);
    }
    *mark = mark.wrapping_add(text.len());
    Ok(())
}

// Makes room for so many bytes more behind a place in a text: where too few are left, what waits before it is handed over.
pub fn room(text: &[u8], at: &mut usize, need: usize, mark: &mut usize) -> Result<(), Unwritten>
    requires { (at.old ≤ length text.now) × (need ≤ length text.now) }
    ensures need_in_bounds { at.new + need ≤ length text.now }
    ensures roomed { Roomed text.now at.old mark.old at.new mark.new result }
{
    if need <= text.len() - *at {
        return Ok(());
    }
    let handed = hand(&text[..*at], mark);
    *at = 0;
    handed
}
