// Lines of decimal numbers, put behind the text in a buffer of bytes.
#![tactic(auto)]

ghost use Rattle.std.specs.Prelude.{◌+◌, ◌*◌, ◌/◌, ◌≤◌, length};
ghost use Rattle.ground.specs.Lists.{span, each};
ghost use Rattle.lines.specs.Lines.{number_then, numbers_line, clear_line, short_line, refused_line, line_at};
ghost use Rattle.lines.specs.Puts.{Puts};

mod buffer;

pub use buffer::Text;
use refusals::Refusal;

// The longest line of three numbers of ten digits, and the byte after each; and that of five.
pub const LINE: usize = 33;

pub const REASON_LINE: usize = 55;

// A word.
fn put_word(text: &mut Text, word: &[u8])
    requires { text.old.at + length word.now ≤ length text.old.bytes.now }
    ensures { Puts word.now text.old text.new }
{
    let end = text.at + word.len();
    text.bytes[text.at..end].copy_from_slice(word);
    text.at = end;
}

// A number in decimal and the byte after it.
fn put_number(text: &mut Text, n: u32, byte: u8)
    requires { text.old.at + 11 ≤ length text.old.bytes.now }
    ensures puts { Puts (number_then n byte) text.old text.new }
    ensures upper_bound { text.new.at ≤ text.old.at + 11 }
{
    let mut digits = [0u8; 20];
    let count = io::decimal(u64::from(n), &mut digits);
    put_word(text, &digits[..count]);
    put_word(text, &[byte]);
}

// A line of numbers.
pub fn put_numbers(text: &mut Text, numbers: &[u32])
    requires { text.old.at + 11 * length numbers.now ≤ length text.old.bytes.now }
    ensures puts { Puts (numbers_line numbers.now) text.old text.new }
    ensures upper_bound { text.new.at ≤ text.old.at + 11 * length numbers.now }
{
    let Some((last, before)) = numbers.split_last() else {
        return;
    };
    for number in before {
        put_number(text, *number, b' ');
    }
    put_number(text, *last, b'\n');
}

// The line `clear`.
pub fn put_clear(text: &mut Text)
    requires { text.old.at + 33 ≤ length text.old.bytes.now }
    ensures puts { Puts clear_line text.old text.new }
    ensures upper_bound { text.new.at ≤ text.old.at + 33 }
{
    put_word(text, b"clear\n");
}

// The lines of rows, whose numbers come in threes.
pub fn put_lines(text: &mut Text, rows: &[u32])
    requires { text.old.at + 33 * (length rows.now / 3) ≤ length text.old.bytes.now }
    ensures puts { Puts (each (line_at rows.now) (span 0 (length rows.now / 3))) text.old text.new }
    ensures upper_bound { text.new.at ≤ text.old.at + 33 * (length rows.now / 3) }
{
    for i in 0..rows.len() / 3 {
        let k = 3 * i;
        put_numbers(text, &[rows[k], rows[k + 1], rows[k + 2]]);
    }
}

// The line `short K`.
pub fn put_heading(text: &mut Text, k: u32)
    requires { text.old.at + 33 ≤ length text.old.bytes.now }
    ensures puts { Puts (short_line k) text.old text.new }
    ensures upper_bound { text.new.at ≤ text.old.at + 33 }
{
    put_word(text, b"short ");
    put_number(text, k, b'\n');
}

// The line `refused N P`.
pub fn put_refusal(text: &mut Text, refusal: Refusal)
    requires { text.old.at + 33 ≤ length text.old.bytes.now }
    ensures puts { Puts (refused_line refusal) text.old text.new }
    ensures upper_bound { text.new.at ≤ text.old.at + 33 }
{
    put_word(text, b"refused ");
    put_number(text, refusal.number, b' ');
    put_number(text, refusal.extra, b'\n');
}
