// Made questions.
ghost use Rattle.std.specs.Prelude.{◌≡◌, ◌<◌, ◌≤◌, length};
ghost use Rattle.scenes.specs.Sizes.{most_records};

use super::question::{Kind, Question};
use scenes::{Chance, Site, Style, any_site, at_limit, site_astride};

// So many records are many: the second implementation is slow to arrange beside them.
const MANY: u32 = 100;

// How often a number of a question is out of range: once in 2 times, or once in 40.
#[derive(Clone, Copy)]
enum Odds {
    Even,
    Long,
}

impl Odds {
    // Mostly long.
    fn drawn(chance: &mut Chance) -> Odds {
        if chance.once_in(12) {
            Odds::Even
        } else {
            Odds::Long
        }
    }

    // Whether a number is out of range this time.
    fn hit(self, chance: &mut Chance) -> bool {
        match self {
            Odds::Even => chance.once_in(2),
            Odds::Long => chance.once_in(40),
        }
    }
}

// The first id of a table.
pub fn first_id(chance: &mut Chance) -> u32
    ensures { 0 < result }
{
    match chance.below(6) {
        0 => 65_530,
        1 => 16_777_210,
        2 => 2_147_483_640,
        3 => 4_294_967_200,
        4 => 1 + chance.below(300),
        _ => 1,
    }
}

// The ids of a table: they rise by 3 from the first.
#[derive(Clone, Copy)]
pub struct Ids {
    pub first: u32,
    pub count: u32,
    pub ghost few: { count ≤ most_records },
}

impl Ids {
    // So many, from a made number on.
    pub fn drawn(chance: &mut Chance, count: u32) -> Ids
        requires { count ≤ most_records }
        ensures { (result.count ≡ count) × (0 < result.first) }
    {
        Ids {
            first: first_id(chance),
            count,
        }
    }

    // One that a question leaves aside: 0, one of the table, seldom one behind it, or any.
    fn aside(self, chance: &mut Chance) -> u32 {
        if chance.once_in(3) {
            return 0;
        }
        if chance.once_in(16) {
            return chance.below(4_294_967_295);
        }
        let p = chance.below(8 * self.count + 1) / 8;
        self.first.wrapping_add(3 * p)
    }

    // That of a question: to check, arrange or reason, one left aside; else one of the table, to add one beside it, or 0, or any.
    fn asked(self, chance: &mut Chance, kind: Kind) -> u32 {
        if matches!(kind, Kind::Check | Kind::Arrange | Kind::Reason) {
            return self.aside(chance);
        }
        if chance.once_in(16) {
            return 0;
        }
        if chance.once_in(8) {
            return chance.below(4_294_967_295);
        }
        let id = self.first.wrapping_add(3 * chance.below(self.count + 1));
        if kind == Kind::Add {
            id.wrapping_add(1).wrapping_sub(chance.below(3))
        } else {
            id
        }
    }
}

// One of some values. Where one of them is made only when its turn comes, a `match` stands in place of this.
pub(crate) fn one_of<T: Copy>(chance: &mut Chance, values: &[T]) -> T
    requires { (0 < length values.now) × (length values.now ≤ 100) }
{
    values[chance.below(values.len() as u32) as usize]
}

// A channel that cannot be asked.
fn other_channel(chance: &mut Chance) -> u32 {
    match chance.below(6) {
        0 => 220,
        1 => 301,
        2 => 0,
        3 => 65_786,
        4 => 4_294_967_295,
        _ => 201 + chance.below(20),
    }
}

// A channel.
fn asked_channel(chance: &mut Chance, odds: Odds) -> u32 {
    if odds.hit(chance) {
        other_channel(chance)
    } else {
        221 + chance.below(80)
    }
}

// A class that a zone permits.
fn permitted(chance: &mut Chance, zone: u32) -> u32 {
    if zone <= 2 {
        chance.below(3)
    } else {
        one_of(chance, &[0, 3, 4, 5, 6, 7])
    }
}

// A class for a zone, none or not permitted where a number is out of range.
fn asked_class(chance: &mut Chance, zone: u32, odds: Odds) -> u32 {
    if odds.hit(chance) {
        one_of(chance, &[8, 256, 4_294_967_295])
    } else if odds.hit(chance) {
        chance.below(8)
    } else {
        permitted(chance, zone)
    }
}

// A zone.
fn asked_zone(chance: &mut Chance, zone: u32, odds: Odds) -> u32 {
    if odds.hit(chance) {
        one_of(chance, &[0, 4, 257, 4_294_967_295])
    } else {
        zone
    }
}

// A standard: Table A or the lesser table.
fn asked_standard(chance: &mut Chance, odds: Odds) -> u32 {
    if odds.hit(chance) {
        one_of(
            chance,
            &[3, 256, 257, 258, 65_537, 2_147_483_649, 4_294_967_295, 0],
        )
    } else {
        1 + chance.below(2)
    }
}

// Sites that are out of range.
const OTHER_SITES: [Site; 6] = [
    Site {
        lat: 270_001,
        lon: 0,
    },
    Site {
        lat: 4_294_697_295,
        lon: 648_000,
    },
    Site {
        lat: 0,
        lon: 648_001,
    },
    Site {
        lat: 270_000,
        lon: 4_294_319_295,
    },
    Site {
        lat: 0x8000_0000,
        lon: 0x7FFF_FFFF,
    },
    Site {
        lat: 0,
        lon: 0x8000_0000,
    },
];

// A site for a style of table.
fn asked_site(chance: &mut Chance, style: Style, odds: Odds) -> Site {
    if odds.hit(chance) {
        one_of(chance, &OTHER_SITES)
    } else if style == Style::Astride {
        site_astride(chance)
    } else {
        any_site(chance)
    }
}

// A second site: at a limit from the first, or made as the first.
fn other_end(chance: &mut Chance, from: Site, style: Style, odds: Odds) -> Site {
    if chance.once_in(4) {
        return asked_site(chance, style, odds);
    }
    let r = chance.below(480);
    at_limit(chance, from, r)
}

// The last channel: beside many records the same or the next; else the same, the last of all, one behind, or any.
fn asked_last(chance: &mut Chance, first: u32, count: u32, odds: Odds) -> u32 {
    if MANY <= count {
        return first.wrapping_add(chance.below(2));
    }
    match chance.below(4) {
        0 => first,
        1 => 300,
        2 => first.wrapping_add(chance.below(5)),
        _ => asked_channel(chance, odds),
    }
}

// A question of a kind about a table of a style whose records have such ids.
pub fn made_question<K: Into<Kind>, S: Into<Style>>(
    chance: &mut Chance,
    kind: K,
    style: S,
    ids: Ids,
) -> Question
    ensures { K.converts kind result.kind }
{
    let kind: Kind = kind.into();
    let style: Style = style.into();
    let odds = Odds::drawn(chance);
    let zone = 1 + chance.below(3);
    let site = asked_site(chance, style, odds);
    let other = other_end(chance, site, style, odds);
    let channel = asked_channel(chance, odds);
    Question {
        kind,
        id: ids.asked(chance, kind),
        standard: asked_standard(chance, odds),
        channel,
        last: asked_last(chance, channel, ids.count, odds),
        class: asked_class(chance, zone, odds),
        zone: asked_zone(chance, zone, odds),
        site,
        other,
    }
}
