// Coordinates as 32-bit words in two's complement, and as seconds from the southern and the western end of their ranges.
ghost use Rattle.std.specs.Prelude.{◌≤◌};
ghost use Rattle.scenes.specs.Sites.{IsInRange};

// Seconds of latitude from one end of the range to the other.
pub(crate) const LATITUDES: u32 = 540_000;

// Seconds of longitude from one end of the range to the other: the whole circle.
pub(crate) const LONGITUDES: u32 = 1_296_000;

// A latitude in range, as seconds north of the southern end.
#[derive(Clone, Copy)]
pub(crate) struct North {
    pub(crate) seconds: u32,
    ghost in_range: { seconds ≤ 540000 },
}

impl North {
    // A latitude so many seconds north of the southern end; the northern end where that is out of range.
    pub(crate) fn new(seconds: u32) -> North {
        North {
            seconds: seconds.min(LATITUDES),
        }
    }
}

// A longitude in range, as seconds east of the western end.
#[derive(Clone, Copy)]
pub(crate) struct East {
    pub(crate) seconds: u32,
    ghost in_range: { seconds ≤ 1296000 },
}

impl East {
    // A longitude so many seconds east of the western end; the eastern end where that is out of range.
    pub(crate) fn new(seconds: u32) -> East {
        East {
            seconds: seconds.min(LONGITUDES),
        }
    }

    // The longitude so many seconds farther east: past the eastern end it goes on from the western one.
    pub(crate) fn eastward(self, seconds: u32) -> East
        requires { seconds ≤ 1296000 }
    {
        let on = self.seconds + seconds;
        East {
            seconds: if on <= LONGITUDES {
                on
            } else {
                on - LONGITUDES
            },
        }
    }

    // The longitude so many seconds farther west.
    pub(crate) fn westward(self, seconds: u32) -> East
        requires { seconds ≤ 1296000 }
    {
        self.eastward(LONGITUDES - seconds)
    }
}

// A site in two words: any 32 bits, for a site out of range is asked too.
#[derive(Clone, Copy)]
pub struct Site {
    pub lat: u32,
    pub lon: u32,
}

impl Site {
    // The site at a latitude and a longitude.
    pub(crate) fn at(north: North, east: East) -> Site
        ensures { IsInRange result }
    {
        Site {
            lat: north.seconds.wrapping_sub(270_000),
            lon: east.seconds.wrapping_sub(648_000),
        }
    }

    // Its latitude, the northern end where that is out of range.
    pub(crate) fn north(self) -> North {
        North::new(self.lat.wrapping_add(270_000))
    }

    // Its longitude, the eastern end where that is out of range.
    pub(crate) fn east(self) -> East {
        East::new(self.lon.wrapping_add(648_000))
    }
}
