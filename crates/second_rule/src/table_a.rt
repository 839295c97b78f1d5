// Table A of §73.207(b)(1).
ghost use Rattle.std.specs.Prelude.{◌<◌, ◌≤◌, MatchOption};

use super::groups::in_column;

// The four separations of two classes, the lower code first.
fn relation(low: u64, high: u64) -> u64 {
    match (low, high) {
        // A to A, B1, B, C3, C2, C1, C0, C.
        (0, 0) => 115_072_031_010,
        (0, 1) => 143_096_048_012,
        (0, 2) => 178_113_069_015,
        (0, 3) => 142_089_042_012,
        (0, 4) => 166_106_055_015,
        (0, 5) => 200_133_075_022,
        (0, 6) => 215_152_086_025,
        (0, _) => 226_165_095_029,
        // B1 to B1, B, C3, C2, C1, C0, C.
        (1, 1) => 175_114_050_014,
        (1, 2) => 211_145_071_017,
        (1, 3) => 175_114_050_014,
        (1, 4) => 200_134_056_017,
        (1, 5) => 233_161_077_024,
        (1, 6) => 248_180_087_027,
        (1, _) => 259_193_105_031,
        // B to B, C3, C2, C1, C0, C.
        (2, 2) => 241_169_074_020,
        (2, 3) => 211_145_071_017,
        (2, 4) => 241_169_074_020,
        (2, 5) => 270_195_079_027,
        (2, 6) => 272_214_089_031,
        (2, _) => 274_217_105_035,
        // C3 to C3, C2, C1, C0, C.
        (3, 3) => 153_099_043_014,
        (3, 4) => 177_117_056_017,
        (3, 5) => 211_144_076_024,
        (3, 6) => 226_163_087_027,
        (3, _) => 237_176_096_031,
        // C2 to C2, C1, C0, C.
        (4, 4) => 190_130_058_020,
        (4, 5) => 224_158_079_027,
        (4, 6) => 239_176_089_031,
        (4, _) => 249_188_105_035,
        // C1 to C1, C0, C.
        (5, 5) => 245_177_082_034,
        (5, 6) => 259_196_094_037,
        (5, _) => 270_209_105_041,
        // C0 to C, and to C0; and C to C.
        (6, 7) => 281_220_105_045,
        (7, _) => 290_241_105_048,
        _ => 270_207_096_041,
    }
}

// The column of two channels, 0 to 3 from the left; 4 where there is no requirement. A number, for the reason writes it as one.
pub fn column(channel1: u64, channel2: u64) -> u64
    ensures { result ≤ 4 }
{
    match channel1.abs_diff(channel2) {
        0 => 0,
        1 => 1,
        2 | 3 => 2,
        53 | 54 => 3,
        _ => 4,
    }
}

// R of two classes in a column, in either order; none past the columns.
pub(crate) fn separation_in(class1: u64, class2: u64, column: u64) -> Option<u64>
    ensures { MatchOption result (Unit {0}) (λ r. (0 < r) × (r < 1000)) }
{
    if 3 < column {
        return None;
    }
    in_column(relation(class1.min(class2), class1.max(class2)), column)
}

// The square that S is held to for two classes at a column: R less half a km, in half kilometres, squared, and these of 5,000
// decimetres; 0 where there is no such class or column, for it is held beside what `fms_limit` of the C interface answers.
pub fn limit(class1: u64, class2: u64, column: u64) -> u64
    ensures { result < 100000000000000 }
{
    if class1 >= 8 || class2 >= 8 {
        return 0;
    }
    match separation_in(class1, class2, column) {
        Some(r) => {
            let halves = 2 * r - 1;
            halves * halves * 25_000_000
        }
        None => 0,
    }
}
