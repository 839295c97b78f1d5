// The table of §73.215(e), found by the last digits of the two classes.
ghost use Rattle.std.specs.Prelude.{◌<◌, MatchOption};

use super::groups::in_column;

// The groups of two classes, the lower code first: co-channel, 200 kHz, 400/600 kHz, and none; 0 where there is no such class.
fn relation(low: u64, high: u64) -> u64 {
    match (low % 10, high % 10) {
        // A to A, B1, B, C3, C2, C1, C0, C.
        (0, 0) => 92_049_025_000,
        (0, 1) => 119_072_042_000,
        (0, 2) => 143_096_063_000,
        (0, 3) => 119_072_036_000,
        (0, 4) => 143_089_049_000,
        (0, 5) => 178_111_069_000,
        (0, 6) => 193_130_080_000,
        (0, 7) => 203_142_089_000,
        // B1 to B1, B, C3, C2, C1, C0, C.
        (1, 1) => 143_096_044_000,
        (1, 2) => 178_114_065_000,
        (1, 3) => 143_096_044_000,
        (1, 4) => 175_114_050_000,
        (1, 5) => 200_134_071_000,
        (1, 6) => 215_153_081_000,
        (1, 7) => 233_165_099_000,
        // B to B, C3, C2, C1, C0, C.
        (2, 2) => 211_145_068_000,
        (2, 3) => 178_114_065_000,
        (2, 4) => 211_145_068_000,
        (2, 5) => 241_169_073_000,
        (2, 6) => 266_195_083_000,
        (2, 7) => 268_195_099_000,
        // C3 to C3, C2, C1, C0, C.
        (3, 3) => 142_089_037_000,
        (3, 4) => 166_106_050_000,
        (3, 5) => 200_133_070_000,
        (3, 6) => 215_152_081_000,
        (3, 7) => 226_165_090_000,
        // C2 to C2, C1, C0, C.
        (4, 4) => 177_117_052_000,
        (4, 5) => 211_144_073_000,
        (4, 6) => 227_163_083_000,
        (4, 7) => 237_176_096_000,
        // C1 to C1, C0, C.
        (5, 5) => 224_158_076_000,
        (5, 6) => 239_176_088_000,
        (5, 7) => 249_188_099_000,
        // C0 to C0, C; and C to C.
        (6, 6) => 259_196_090_000,
        (6, 7) => 270_207_099_000,
        (7, 7) => 270_209_099_000,
        _ => 0,
    }
}

// R of two classes in a column, in either order; none where the column is not listed.
pub(crate) fn lesser_in(class1: u64, class2: u64, column: u64) -> Option<u64>
    ensures { MatchOption result (Unit {0}) (λ r. (0 < r) × (r < 1000)) }
{
    if 2 < column {
        return None;
    }
    in_column(relation(class1.min(class2), class1.max(class2)), column)
}
