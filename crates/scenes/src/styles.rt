// The styles of made tables.
ghost use Rattle.scenes.specs.Styles.{IsPlain};

use super::chance::Chance;

// How the records of a table are made around what is asked.
#[derive(Clone, Copy, Debug, PartialEq, Eq)]
pub enum Style {
    // Records at the limits of what is asked and of each other.
    AtLimits,
    // Records anywhere within some hundred km; that of the id that is asked at the limits of what is asked.
    Scattered,
    // Records on channels at or below 220 only.
    Low,
    // Records at the limits of what is asked, many of them as far from it as another one.
    Equals,
    // Records within some km of what is asked, on its channel or up to 3 beside: all are short to it.
    Crowded,
    // Records of any of these styles, around a site astride the 180th meridian.
    Astride,
    // Records of any of these styles but the last, of which some repeat an earlier one. In no other style does one.
    Repeating,
}

// The style of a number, from 0 in this order; any further one is astride, as all are from there on where records are made.
impl From<u32> for Style {
    ghost use Rattle.std.specs.Prelude.{◌≡◌, ◌≤◌, ◌<◌};
    ghost use Rattle.scenes.specs.declared.styles.Style.TheVariants.{Astride};
    ghost use Rattle.scenes.specs.Styles.{style_number};

    ghost from_gives = { λ n s. (n ≤ 6 → style_number s ≡ n) × (6 < n → s ≡ Astride) };

    fn from(number: u32) -> Style {
        match number {
            0 => Style::AtLimits,
            1 => Style::Scattered,
            2 => Style::Low,
            3 => Style::Equals,
            4 => Style::Crowded,
            6 => Style::Repeating,
            _ => Style::Astride,
        }
    }
}

impl Style {
    // Any of the first five.
    pub fn any(chance: &mut Chance) -> Style
        ensures { IsPlain result }
    {
        match chance.below(5) {
            0 => Style::AtLimits,
            1 => Style::Scattered,
            2 => Style::Low,
            3 => Style::Equals,
            _ => Style::Crowded,
        }
    }

    // Whether its records may repeat one another by chance.
    pub(crate) fn may_repeat(self) -> bool {
        !matches!(self, Style::Scattered | Style::Low)
    }
}
