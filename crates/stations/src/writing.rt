// Images written into a lent buffer: the header, a record, and records as they stand in another image.
ghost use Rattle.std.specs.Prelude.{◌≡◌, ◌+◌, ◌≤◌, length, take, drop};
ghost use Rattle.std.proofs.lemmas.List.Edits.{sets};
ghost use Rattle.stations.specs.Copying.{Copies};
ghost use Rattle.stations.specs.Encode.{record_of, header_of};

use crate::{MARK, Station};

// `FMS`, the version, a zero byte, the count.
pub fn put_header(image: &mut [u8], version: u16, n: u16)
    requires { 8 ≤ length image.old }
    ensures { image.new ≡ sets image.old 0 (header_of version n) }
{
    image[0] = MARK[0];
    image[1] = MARK[1];
    image[2] = MARK[2];
    wire::put(image, 3, version);
    image[5] = 0;
    wire::put(image, 6, n);
}

// The sixteen bytes of a record.
pub fn put_station(image: &mut [u8], at: usize, r: Station)
    requires { at + 16 ≤ length image.old }
    ensures { image.new ≡ sets image.old at (record_of r) }
{
    wire::put(image, at, r.id);
    wire::put(image, at + 4, r.channel);
    image[at + 6] = r.class;
    image[at + 7] = r.flags;
    wire::put(image, at + 8, r.latitude);
    wire::put(image, at + 12, r.longitude);
}

// So many bytes of the table from a place on, written from a place of the image on.
pub fn copy(table: &[u8], from: usize, image: &mut [u8], to: usize, count: usize)
    requires { Copies table.now from image.old to count }
    ensures { image.new ≡ sets image.old to (take count (drop from table.now)) }
{
    for k in 0..count {
        image[to + k] = table[from + k];
    }
}
