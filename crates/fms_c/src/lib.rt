// The questions for C and C++: what include/fms.h declares, each by the function of the same name of `fms`.
#![tactic(auto)]

ghost use Rattle.std.specs.Prelude.{◌≡◌};
ghost use Rattle.part73.specs.TableA.{table_a};
ghost use Rattle.squares.specs.Squares.{limit_for};
ghost use Rattle.desk.specs.Questions.{read_of, distance_of};
ghost use Rattle.changes.specs.Changes.{add as adding, withdraw as withdrawing, move as moving, changed_for};
ghost use Rattle.fms.specs.Packed.{Says, Packed, newcomer as asked, proposal, wanted};
ghost use Rattle.checks.specs.Check.{checked_for};
ghost use Rattle.arrangements.specs.Arrange.{arranged_for};
ghost use Rattle.reasons.specs.Reason.{reasoned_for};
ghost use Rattle.fms.specs.Reason.{Explained};

#[unsafe(no_mangle)]
pub extern "C" fn fms_read(table: &[u8]) -> u64
    ensures { Says (read_of table.now) result }
{
    fms::fms_read(table)
}

#[unsafe(no_mangle)]
pub extern "C" fn fms_distance(lat1: i32, lon1: i32, lat2: i32, lon2: i32) -> u64
    ensures { Says (distance_of lat1 lon1 lat2 lon2) result }
{
    fms::fms_distance(lat1, lon1, lat2, lon2)
}

#[unsafe(no_mangle)]
pub extern "C" fn fms_add(
    table: &[u8],
    id: u32,
    channel: u32,
    class: u32,
    zone: u32,
    lat: i32,
    lon: i32,
    image: &mut [u8],
) -> u64
    ensures { Packed (changed_for table.now (adding (asked id channel class zone lat lon))) image.old image.new result }
{
    fms::fms_add(table, id, channel, class, zone, lat, lon, image)
}

#[unsafe(no_mangle)]
pub extern "C" fn fms_withdraw(table: &[u8], id: u32, image: &mut [u8]) -> u64
    ensures { Packed (changed_for table.now (withdrawing id)) image.old image.new result }
{
    fms::fms_withdraw(table, id, image)
}

#[unsafe(no_mangle)]
pub extern "C" fn fms_move(table: &[u8], id: u32, channel: u32, image: &mut [u8]) -> u64
    ensures { Packed (changed_for table.now (moving id channel)) image.old image.new result }
{
    fms::fms_move(table, id, channel, image)
}

#[unsafe(no_mangle)]
pub extern "C" fn fms_check(
    table: &[u8],
    channel: u32,
    class: u32,
    zone: u32,
    lat: i32,
    lon: i32,
    aside: u32,
    standard: u32,
    rows: &mut [u32],
) -> u64
    ensures { Packed (checked_for table.now (proposal channel class zone lat lon aside standard)) rows.old rows.new result }
{
    fms::fms_check(table, channel, class, zone, lat, lon, aside, standard, rows)
}

#[unsafe(no_mangle)]
pub extern "C" fn fms_arrange(
    table: &[u8],
    first: u32,
    last: u32,
    class: u32,
    zone: u32,
    lat: i32,
    lon: i32,
    aside: u32,
    standard: u32,
    rows: &mut [u32],
) -> u64
    ensures { Packed (arranged_for table.now (wanted first last class zone lat lon aside standard)) rows.old rows.new result }
{
    fms::fms_arrange(
        table, first, last, class, zone, lat, lon, aside, standard, rows,
    )
}

#[unsafe(no_mangle)]
pub extern "C" fn fms_reason(
    table: &[u8],
    channel: u32,
    class: u32,
    zone: u32,
    lat: i32,
    lon: i32,
    aside: u32,
    standard: u32,
    reason: &mut [u32; 4],
) -> u64
    ensures { Explained table.now (reasoned_for table.now (proposal channel class zone lat lon aside standard)) reason.old reason.new result }
{
    fms::fms_reason(
        table, channel, class, zone, lat, lon, aside, standard, reason,
    )
}

// The limit that S is held to for two classes in any order, at a column; 0 where there is none.
#[unsafe(no_mangle)]
pub extern "C" fn fms_limit(a: u32, b: u32, column: u32) -> u64
    ensures { result ≡ limit_for table_a a b column }
{
    fms::fms_limit(a, b, column)
}
