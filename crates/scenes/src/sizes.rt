// How many records tables have, and the version for so many.
ghost use Rattle.std.specs.Prelude.{◌≡◌};
ghost use Rattle.scenes.specs.Sizes.{version_of};

// The most records of a table of version 1.
pub const LINE: u32 = 2_000;

// The most records of a table of version 2.
pub const LIMIT: u32 = 4_000;

// The most records of a made table: two more.
pub const MOST: u32 = LIMIT + 2;

// The bytes of the longest image.
pub const IMAGE_BYTES: usize = 8 + 16 * LIMIT as usize;

// Room for the longest made table, and for what damage puts behind it.
pub const TABLE_BYTES: usize = 8 + 16 * MOST as usize + 33;

// The version for n records.
pub(crate) fn version_for(n: u32) -> u32
    ensures { result ≡ version_of n }
{
    if n <= LINE { 1 } else { 2 }
}
