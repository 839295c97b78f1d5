// A question put to each of the two implementations.
use cases::{Kind, Question};
use scenes::Site;

// What answers the questions of the desk: a packed answer, and what is written behind it. The functions of both take their numbers one
// by one, since those of the C interface do.
pub trait Implementation {
    fn read(table: &[u8]) -> u64;

    fn distance(q: Question) -> u64;

    fn add(q: Question, table: &[u8], image: &mut [u8]) -> u64;

    fn withdraw(q: Question, table: &[u8], image: &mut [u8]) -> u64;

    fn move_to(q: Question, table: &[u8], image: &mut [u8]) -> u64;

    fn check(q: Question, table: &[u8], rows: &mut [u32]) -> u64;

    fn arrange(q: Question, table: &[u8], rows: &mut [u32]) -> u64;

    fn reason(q: Question, table: &[u8], told: &mut [u32; 4]) -> u64;

    // The limit of two classes at a column.
    fn limit(a: u32, b: u32, column: u32) -> u64;

    // The answer to read or distance.
    fn number(q: Question, table: &[u8]) -> u64 {
        if q.kind == Kind::Read {
            Self::read(table)
        } else {
            Self::distance(q)
        }
    }

    // The answer to add, withdraw or move.
    fn image(q: Question, table: &[u8], image: &mut [u8]) -> u64 {
        match q.kind {
            Kind::Add => Self::add(q, table, image),
            Kind::Withdraw => Self::withdraw(q, table, image),
            _ => Self::move_to(q, table, image),
        }
    }

    // The answer to check or arrange.
    fn rows(q: Question, table: &[u8], rows: &mut [u32]) -> u64 {
        if q.kind == Kind::Check {
            Self::check(q, table, rows)
        } else {
            Self::arrange(q, table, rows)
        }
    }
}

// The latitude and the longitude of a site.
fn signed(site: Site) -> (i32, i32) {
    (site.lat.cast_signed(), site.lon.cast_signed())
}

// The library's.
pub struct First;

impl Implementation for First {
    fn read(table: &[u8]) -> u64 {
        fms::fms_read(table)
    }

    fn distance(q: Question) -> u64 {
        let (lat, lon) = signed(q.site);
        let (lat2, lon2) = signed(q.other);
        fms::fms_distance(lat, lon, lat2, lon2)
    }

    fn add(q: Question, table: &[u8], image: &mut [u8]) -> u64 {
        let (lat, lon) = signed(q.site);
        fms::fms_add(table, q.id, q.channel, q.class, q.zone, lat, lon, image)
    }

    fn withdraw(q: Question, table: &[u8], image: &mut [u8]) -> u64 {
        fms::fms_withdraw(table, q.id, image)
    }

    fn move_to(q: Question, table: &[u8], image: &mut [u8]) -> u64 {
        fms::fms_move(table, q.id, q.channel, image)
    }

    fn check(q: Question, table: &[u8], rows: &mut [u32]) -> u64 {
        let (lat, lon) = signed(q.site);
        fms::fms_check(
            table, q.channel, q.class, q.zone, lat, lon, q.id, q.standard, rows,
        )
    }

    fn arrange(q: Question, table: &[u8], rows: &mut [u32]) -> u64 {
        let (lat, lon) = signed(q.site);
        fms::fms_arrange(
            table, q.channel, q.last, q.class, q.zone, lat, lon, q.id, q.standard, rows,
        )
    }

    fn reason(q: Question, table: &[u8], told: &mut [u32; 4]) -> u64 {
        let (lat, lon) = signed(q.site);
        fms::fms_reason(
            table, q.channel, q.class, q.zone, lat, lon, q.id, q.standard, told,
        )
    }

    fn limit(a: u32, b: u32, column: u32) -> u64 {
        fms::fms_limit(a, b, column)
    }
}

// The second one. It finds the function of each question by itself: a slip in that, on one side alone, shows as a difference.
pub struct Second;

impl Implementation for Second {
    fn number(q: Question, table: &[u8]) -> u64 {
        match q.kind {
            Kind::Read => Self::read(table),
            _ => Self::distance(q),
        }
    }

    fn image(q: Question, table: &[u8], image: &mut [u8]) -> u64 {
        match q.kind {
            Kind::Add => Self::add(q, table, image),
            Kind::Withdraw => Self::withdraw(q, table, image),
            _ => Self::move_to(q, table, image),
        }
    }

    fn rows(q: Question, table: &[u8], rows: &mut [u32]) -> u64 {
        match q.kind {
            Kind::Check => Self::check(q, table, rows),
            _ => Self::arrange(q, table, rows),
        }
    }

    fn read(table: &[u8]) -> u64 {
        second::read(table)
    }

    fn distance(q: Question) -> u64 {
        let (lat, lon) = signed(q.site);
        let (lat2, lon2) = signed(q.other);
        second::distance(lat, lon, lat2, lon2)
    }

    fn add(q: Question, table: &[u8], image: &mut [u8]) -> u64 {
        let (lat, lon) = signed(q.site);
        second::add(table, q.id, q.channel, q.class, q.zone, lat, lon, image)
    }

    fn withdraw(q: Question, table: &[u8], image: &mut [u8]) -> u64 {
        second::withdraw(table, q.id, image)
    }

    fn move_to(q: Question, table: &[u8], image: &mut [u8]) -> u64 {
        second::move_to(table, q.id, q.channel, image)
    }

    fn check(q: Question, table: &[u8], rows: &mut [u32]) -> u64 {
        let (lat, lon) = signed(q.site);
        second::check(
            table, q.channel, q.class, q.zone, lat, lon, q.id, q.standard, rows,
        )
    }

    fn arrange(q: Question, table: &[u8], rows: &mut [u32]) -> u64 {
        let (lat, lon) = signed(q.site);
        second::arrange(
            table, q.channel, q.last, q.class, q.zone, lat, lon, q.id, q.standard, rows,
        )
    }

    fn reason(q: Question, table: &[u8], told: &mut [u32; 4]) -> u64 {
        let (lat, lon) = signed(q.site);
        second::reason(
            table, q.channel, q.class, q.zone, lat, lon, q.id, q.standard, told,
        )
    }

    fn limit(a: u32, b: u32, column: u32) -> u64 {
        second::limit(a, b, column)
    }
}
