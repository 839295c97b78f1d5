// The input that shows a difference. It is written by the kit's `io`: with `println!` each function that compares would take the
// runtime and answer a Result, and no test has more to say of a failed write than that the stored output is not there.
ghost use Rattle.std.specs.Prelude.{◌<◌};

use cases::Question;

// The refusal's number of an answer, 0 where it is granted. An answer is one word, as the library's exports give it.
pub(crate) fn number_of(answer: u64) -> u64 {
    answer >> 32
}

// The low half of an answer.
pub(crate) fn extra_of(answer: u64) -> u64
    ensures { result < 4294967296 }
{
    answer % 4_294_967_296
}

// Writes a space and a number.
pub(crate) fn print_number(value: u64) {
    io::write_all(1, b" ");
    io::print_decimal(1, value);
}

// Writes a question with its numbers, the coordinates as words.
fn print_question(q: Question) {
    io::write_all(
        1,
        b"difference in question (read 0, distance 1, add 2, withdraw 3, move 4, check 5, arrange 6, reason 7), id, standard, channel, last, class, zone, two sites:",
    );
    print_number(q.kind as u64);
    for number in [
        q.id,
        q.standard,
        q.channel,
        q.last,
        q.class,
        q.zone,
        q.site.lat,
        q.site.lon,
        q.other.lat,
        q.other.lon,
    ] {
        print_number(u64::from(number));
    }
}

// Writes an answer as its number and its value.
fn print_answer(answer: u64) {
    print_number(number_of(answer));
    print_number(extra_of(answer));
}

// Writes bytes in hexadecimal digits.
fn print_bytes(bytes: &[u8]) {
    for &byte in bytes {
        io::print_hex(1, u64::from(byte), 2);
    }
    io::write_all(1, b"\n");
}

// Writes the question, both answers, the room, up to where the buffers are alike, and the table.
pub(crate) fn report(q: Question, table: &[u8], room: usize, one: u64, two: u64, at: usize) {
    print_question(q);
    io::write_all(1, b"\nfirst answer, second answer, room, places alike:");
    print_answer(one);
    print_answer(two);
    print_number(room as u64);
    print_number(at as u64);
    io::write_all(1, b"\ntable ");
    print_bytes(table);
}

// Writes that an answer is not the paper's.
pub fn unlike(q: Question, table: &[u8], answer: u64, paper: u64) -> bool {
    io::write_all(1, b"the second number is the paper's\n");
    report(q, table, 0, answer, paper, 0);
    false
}
