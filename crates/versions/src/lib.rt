// The versions of the image, and how many records each carries.
#![tactic(auto)]

ghost use Rattle.std.specs.Prelude.{◌≡◌, leb};
ghost use Rattle.versions.specs.Version.{known, carries, top, limit, version_for};

// The line between the versions.
const LINE: usize = 2000;

// The flags of a record: bit 0.
const FLAGS: u8 = 1;

// No list is longer.
pub const LIMIT: usize = 4000;

// The bytes of a header, and of a record, in every version.
pub const HEADER: usize = 8;

pub const RECORD: usize = 16;

// The papers have this version. It stays a number: `known` and `carries` answer for any that an image may hold.
#[tactic(auto, unfolding(crate::specs::Version::known))]
pub fn is_known(version: u16) -> bool
    ensures { result ≡ known version }
{
    matches!(version, 1 | 2)
}

// It carries so many records.
#[tactic(auto, unfolding(crate::specs::Version::carries, crate::specs::Version::line, crate::specs::Version::limit))]
pub fn is_carried(version: u16, n: usize) -> bool
    ensures { result ≡ carries version n }
{
    match version {
        1 => n <= LINE,
        2 => LINE < n && n <= LIMIT,
        _ => false,
    }
}

// The highest flags of its records.
#[tactic(auto, unfolding(crate::specs::Version::top))]
pub fn top_of(version: u16) -> u8
    ensures { result ≡ top version }
{
    FLAGS
}

// A list of so many records takes no more.
#[tactic(auto, unfolding(crate::specs::Version::limit))]
pub fn is_full(n: usize) -> bool
    ensures { result ≡ leb limit n }
{
    LIMIT <= n
}

// The version that a list of n records calls for.
#[tactic(auto, using(crate::proofs::Versions::calls_one, crate::proofs::Versions::calls_two), unfolding(crate::specs::Version::line))]
pub fn version_for(n: usize) -> u16
    ensures { result ≡ version_for n }
{
    if n <= LINE { 1 } else { 2 }
}
