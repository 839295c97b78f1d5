// The runs of made cases.
ghost use Rattle.std.specs.Prelude.{◌≡◌, ◌+◌, ◌≤◌, ◌↔◌, IsTrue};
ghost use Rattle.scenes.specs.declared.styles.Style.TheVariants.{Repeating};
ghost use Rattle.scenes.specs.Sizes.{most_records, room};

use super::asking::{Ids, made_question, one_of};
use super::question::{Kind, Question};
use scenes::{Chance, LIMIT, LINE, Record, Style, damaged, made_table, repeat_some};

// What a run asks: one question; every question on a table, with arrange or without; or move or withdraw, of a station that mostly
// is there.
#[derive(Clone, Copy)]
pub enum Asked {
    One(Kind),
    All,
    AllButArrange,
    MoveOrWithdraw,
}

impl Asked {
    // The question of a case.
    fn kind(self, chance: &mut Chance) -> Kind {
        let on_table = [
            Kind::Check,
            Kind::Add,
            Kind::Move,
            Kind::Withdraw,
            Kind::Read,
            Kind::Reason,
            Kind::Arrange,
        ];
        match self {
            Asked::One(kind) => kind,
            Asked::All => one_of(chance, &on_table),
            Asked::AllButArrange => one_of(chance, &on_table[..6]),
            Asked::MoveOrWithdraw => one_of(chance, &on_table[2..4]),
        }
    }
}

// A run: how many cases, which question, at least and at most how many records, their style, damaged or not.
#[derive(Clone, Copy)]
pub struct Run {
    pub cases: u32,
    pub asked: Asked,
    pub fewest: u32,
    pub most: u32,
    pub style: Style,
    pub damage: bool,
    ghost few: { (fewest ≤ most) × (most ≤ most_records) },
}

// A run on tables of so many records to so many.
fn between(fewest: u32, most: u32, cases: u32, asked: Asked, style: Style) -> Run
    requires { (fewest ≤ most) × (most ≤ most_records) }
{
    Run {
        cases,
        asked,
        fewest,
        most,
        style,
        damage: false,
    }
}

// A run on tables of so many records, one less, and one or two more.
fn around(size: u32, cases: u32, asked: Asked, style: Style) -> Run
    requires { (1 ≤ size) × (size + 2 ≤ most_records) }
{
    between(size - 1, size + 2, cases, asked, style)
}

// How many runs there are.
pub const RUNS: usize = 26;

// The runs in a row.
pub fn made_runs() -> [Run; RUNS] {
    [
        // Distances at the limits, at the ends of the ranges, and out of range.
        between(0, 0, 26_000, Asked::One(Kind::Distance), Style::AtLimits),
        // Small tables at the limits.
        between(0, 12, 40_000, Asked::AllButArrange, Style::AtLimits),
        // Small tables, damaged.
        between(0, 4, 23_000, Asked::All, Style::AtLimits).damaged(),
        // Arrangements at the limits.
        between(0, 6, 5_000, Asked::One(Kind::Arrange), Style::AtLimits),
        // Arrangements beside more stations.
        between(7, 32, 400, Asked::One(Kind::Arrange), Style::Scattered),
        // Large tables.
        between(100, LIMIT, 300, Asked::AllButArrange, Style::Scattered),
        // Large tables, damaged.
        between(100, LIMIT, 200, Asked::AllButArrange, Style::Scattered).damaged(),
        // Around the line between the versions: all questions, damaged tables, arrangements, and more of the changes.
        around(LINE, 300, Asked::AllButArrange, Style::Scattered),
        around(LINE, 200, Asked::All, Style::Scattered).damaged(),
        around(LINE, 12, Asked::One(Kind::Arrange), Style::AtLimits),
        around(LINE, 200, Asked::One(Kind::Add), Style::Low),
        around(LINE, 300, Asked::MoveOrWithdraw, Style::Scattered),
        // The same around the limit, and stations that are all short.
        around(LIMIT, 360, Asked::AllButArrange, Style::Scattered),
        around(LIMIT, 200, Asked::All, Style::Scattered).damaged(),
        around(LIMIT, 24, Asked::One(Kind::Arrange), Style::AtLimits),
        around(LIMIT, 240, Asked::One(Kind::Add), Style::Low),
        around(LIMIT, 150, Asked::MoveOrWithdraw, Style::Scattered),
        around(LIMIT, 50, Asked::One(Kind::Check), Style::Crowded),
        // Reasons among equals.
        between(0, 16, 8_000, Asked::One(Kind::Reason), Style::Equals),
        // Reasons in damaged tables.
        between(0, 4, 3_000, Asked::One(Kind::Reason), Style::Equals).damaged(),
        // Reasons in large tables.
        between(100, LIMIT, 60, Asked::One(Kind::Reason), Style::Equals),
        // Distances across the 180th meridian.
        between(0, 0, 5_000, Asked::One(Kind::Distance), Style::Astride),
        // All questions across the 180th meridian.
        between(0, 8, 7_000, Asked::All, Style::Astride),
        // Tables in which records repeat others; the same, damaged; and large ones.
        between(1, 11, 12_000, Asked::All, Style::Repeating),
        between(1, 6, 6_000, Asked::All, Style::Repeating).damaged(),
        around(LIMIT, 60, Asked::AllButArrange, Style::Repeating),
    ]
}

impl Run {
    // The same on damaged tables.
    fn damaged(mut self) -> Run {
        self.damage = true;
        self
    }

    // Whether records repeat others in its tables.
    pub fn repeats(&self) -> bool
        ensures { IsTrue result ↔ (self.now.style ≡ Repeating) }
    {
        self.style == Style::Repeating
    }

    // Writes the table of a question, and gives its length.
    fn put_table(self, chance: &mut Chance, q: Question, ids: Ids, table: &mut [u8]) -> usize
        ensures { result ≤ room }
    {
        let style = match self.style {
            Style::Astride | Style::Repeating => Style::any(chance),
            style => style,
        };
        let asked = Record {
            id: q.id,
            channel: q.channel,
            class: q.class,
            flags: 0,
            site: q.site,
        };
        let length = made_table(chance, asked, ids.first, ids.count as usize, style, table);
        if self.repeats() {
            repeat_some(chance, table, ids.count);
        }
        if self.damage {
            damaged(chance, table, ids.count, length)
        } else {
            length
        }
    }

    // Makes a question and its table, and gives it with the table's length.
    pub fn made_case(self, chance: &mut Chance, table: &mut [u8]) -> (Question, usize)
        ensures { result.1 ≤ room }
    {
        let kind = self.asked.kind(chance);
        let count = self.fewest + chance.below(self.most - self.fewest + 1);
        let ids = Ids::drawn(chance, count);
        let q = made_question(chance, kind, self.style, ids);
        let length = self.put_table(chance, q, ids, table);
        (q, length)
    }
}
