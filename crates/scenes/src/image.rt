// Table images, written field by field.
ghost use Rattle.std.specs.Prelude.{◌≡◌, ℕ, List, ◌%◌, ◌+◌, ◌*◌, ◌≤◌};
ghost use Rattle.scenes.specs.Image.{header, put_at};
ghost use Rattle.scenes.specs.Sizes.{most_records, version_of};

use super::sizes::version_for;
use super::words::Site;

// A record's fields, any numbers, for what is out of range is asked too.
#[derive(Clone, Copy)]
pub struct Record {
    pub id: u32,
    pub channel: u32,
    pub class: u32,
    pub flags: u32,
    pub site: Site,
}

impl Record {
    // Its 16 bytes as one number, with the lowest 16 bits of the channel and the lowest 8 of the class and of the flags.
    pub(crate) fn word(self) -> u128 {
        u128::from(self.id) << 96
            | u128::from(self.channel % 65_536) << 80
            | u128::from(self.class % 256) << 72
            | u128::from(self.flags % 256) << 64
            | u128::from(self.site.lat) << 32
            | u128::from(self.site.lon)
    }
}

// A field of a record.
#[derive(Clone, Copy)]
pub(crate) enum Field {
    Id,
    Channel,
    Class,
    Flags,
    Latitude,
    Longitude,
}

impl Field {
    // The field with a number, 0 to 5; the last behind them.
    pub(crate) fn by_number(k: u32) -> Field {
        match k {
            0 => Field::Id,
            1 => Field::Channel,
            2 => Field::Class,
            3 => Field::Flags,
            4 => Field::Latitude,
            _ => Field::Longitude,
        }
    }

    // Where it starts in the record at a position.
    pub(crate) fn of(self, position: u32) -> usize {
        let within = match self {
            Field::Id => 0,
            Field::Channel => 4,
            Field::Class => 6,
            Field::Flags => 7,
            Field::Latitude => 8,
            Field::Longitude => 12,
        };
        start_of(position) + within
    }
}

// Where the record at a position starts.
pub(crate) fn start_of(position: u32) -> usize
    ensures { result ≡ 8 + 16 * position }
{
    8 + 16 * position as usize
}

// Writes bytes from a place on, where there is room.
pub fn put<const N: usize>(table: &mut [u8], at: usize, bytes: [u8; N])
    ensures { table.new ≡ put_at N table.old at bytes.entry }
{
    if at < table.len() {
        let room = bytes.len().min(table.len() - at);
        table[at..at + room].copy_from_slice(&bytes[..room]);
    }
}

// The lowest 16 bits.
pub(crate) fn low_half(x: u32) -> u16
    ensures { result ≡ x % 65536 }
{
    (x % 65_536) as u16
}

// Writes a header: the mark FMS, the lowest 16 bits of a version, the lowest 8 of a byte, and the lowest 16 of a count.
pub fn put_any_header(table: &mut [u8], version: u32, sixth: u32, count: u32)
    ensures { table.new ≡ put_at 8 table.old 0 (header version sixth count) }
{
    let [v, w] = low_half(version).to_be_bytes();
    let [c, d] = low_half(count).to_be_bytes();
    put(
        table,
        0,
        [b'F', b'M', b'S', v, w, (sixth % 256) as u8, c, d],
    );
}

// Writes the header of n stations.
pub fn put_header(table: &mut [u8], n: u32)
    ensures { table.new ≡ put_at 8 table.old 0 (header (version_of n) 0 n) }
{
    put_any_header(table, version_for(n), 0, n);
}

// Writes the record at a position.
pub fn put_record(table: &mut [u8], position: usize, record: Record)
    requires { position ≤ most_records }
    ensures { (bytes : List ℕ) × (table.new ≡ put_at 16 table.old (8 + 16 * position) bytes) }
{
    put(
        table,
        start_of(position as u32),
        record.word().to_be_bytes(),
    );
}
