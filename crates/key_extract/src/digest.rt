//! Digests of keys of rows.
ghost use Rattle.std.specs.Prelude.{◌≡◌, ◌≤◌, ◌/◌, ◌^◌, List, ℕ};
ghost use Rattle.std.specs.Option.{option_copied};
ghost use Rattle.key_extract.specs.KeyDigests.{count_digest as the_count_digest, number_place as the_number_place, byte_place as the_byte_place, text_place as the_text_place, IsShort, cell_digest, optional_digest, part_digest, key_digest, probe_digest};
ghost use Rattle.key_extract.specs.declared.cell.Cell.TheVariants.{Text};

use crate::cell::{Cell, cell_at};
use crate::key::Part;

/// The digest of a key that is a number without a sign, for one's own keys. O(1).
pub fn count_digest(number: u64) -> u64
    ensures { result ≡ the_count_digest number }
{
    if number < 1 << 47 {
        number * (1 << 16)
    } else {
        (1 << 63) + number / 2
    }
}

// Whole numbers from -2^45 to 2^45 - 1 have places of their own.
const HALF: i64 = 1 << 45;

// The place of a whole number among 2^46: those below -2^45 have the first, and those from 2^45 on the last.
fn number_place(number: i64) -> u64
    ensures { result ≡ the_number_place number }
{
    if number < -HALF {
        0
    } else if number >= HALF {
        (1 << 46) - 1
    } else {
        (number + HALF) as u64
    }
}

// Where the part of each byte begins in a room of 4,096 places, and where the last one ends: a digit has 100 places, a small letter
// or one of ` -./:_` 78, a capital letter 11, another byte from the space on 2, and a control byte none.
static STARTS: [u16; 257] = [
    0, 0, 0, 0, 0, 0, 0, 0, 0, 0, 0, 0, 0, 0, 0, 0, 0, 0, 0, 0, 0, 0, 0, 0, 0, 0, 0, 0, 0, 0, 0, 0,
    0, 78, 80, 82, 84, 86, 88, 90, 92, 94, 96, 98, 100, 102, 180, 258, 336, 436, 536, 636, 736,
    836, 936, 1036, 1136, 1236, 1336, 1414, 1416, 1418, 1420, 1422, 1424, 1426, 1437, 1448, 1459,
    1470, 1481, 1492, 1503, 1514, 1525, 1536, 1547, 1558, 1569, 1580, 1591, 1602, 1613, 1624, 1635,
    1646, 1657, 1668, 1679, 1690, 1701, 1712, 1714, 1716, 1718, 1720, 1798, 1800, 1878, 1956, 2034,
    2112, 2190, 2268, 2346, 2424, 2502, 2580, 2658, 2736, 2814, 2892, 2970, 3048, 3126, 3204, 3282,
    3360, 3438, 3516, 3594, 3672, 3750, 3828, 3830, 3832, 3834, 3836, 3838, 3840, 3842, 3844, 3846,
    3848, 3850, 3852, 3854, 3856, 3858, 3860, 3862, 3864, 3866, 3868, 3870, 3872, 3874, 3876, 3878,
    3880, 3882, 3884, 3886, 3888, 3890, 3892, 3894, 3896, 3898, 3900, 3902, 3904, 3906, 3908, 3910,
    3912, 3914, 3916, 3918, 3920, 3922, 3924, 3926, 3928, 3930, 3932, 3934, 3936, 3938, 3940, 3942,
    3944, 3946, 3948, 3950, 3952, 3954, 3956, 3958, 3960, 3962, 3964, 3966, 3968, 3970, 3972, 3974,
    3976, 3978, 3980, 3982, 3984, 3986, 3988, 3990, 3992, 3994, 3996, 3998, 4000, 4002, 4004, 4006,
    4008, 4010, 4012, 4014, 4016, 4018, 4020, 4022, 4024, 4026, 4028, 4030, 4032, 4034, 4036, 4038,
    4040, 4042, 4044, 4046, 4048, 4050, 4052, 4054, 4056, 4058, 4060, 4062, 4064, 4066, 4068, 4070,
    4072, 4074, 4076, 4078, 4080, 4082, 4084, 4086, 4088, 4090, 4092, 4094,
];

// How many places there are for texts: a link keeps 46 bits of where a text stands.
const ROOM: u64 = 1 << 46;

// Where the part of a byte begins in a room, or that of 255 ends.
fn byte_place(room: u64, byte: usize) -> u64
    requires room { room ≤ 2 ^ 46 }
    requires byte { byte ≤ 256 }
    ensures { result ≡ the_byte_place room byte }
{
    room * STARTS[byte] as u64 / 4096
}

// The place of a text. Each byte narrows the room to its own part; where none is left, as after ten bytes, no further byte counts.
fn text_place(bytes: &[u8]) -> u64
    ensures place { result ≡ the_text_place (2 ^ 46) bytes.now }
    ensures most { result ≤ 2 ^ 46 }
{
    let (mut place, mut room) = (0, ROOM);
    for byte in bytes {
        if room == 0 {
            return place;
        }
        let start = byte_place(room, *byte as usize);
        room = byte_place(room, *byte as usize + 1) - start;
        place += start;
    }
    place
}

/// A law: of texts of at most eight bytes, each a digit, a small letter or one of `-./:_`, no two have the same upper 48 bits of
/// their digests.
pub fn short_texts_are_told_apart()
    ensures { (one other : List ℕ) → IsShort one → IsShort other → cell_digest (Text one) / 2 ^ 16 ≡ cell_digest (Text other) / 2 ^ 16 → one ≡ other }
{}

// The digest of a cell, or of a missing one.
fn digest_optional(cell: Option<&Cell>) -> u64
    ensures { result ≡ optional_digest (option_copied cell.entry) }
{
    match cell {
        None | Some(Cell::Null) => 0,
        Some(Cell::Int(number)) => number_place(*number) * (1 << 16),
        Some(Cell::Text(text)) => (1 << 62) + text_place(text.as_str().as_bytes()) * (1 << 16),
        Some(Cell::Bool(false)) => 2 << 62,
        Some(Cell::Bool(true)) => 3 << 62,
    }
}

// A falling part turns the order of digests.
fn digest_part(part: Part, cell: Option<&Cell>) -> u64
    ensures { result ≡ part_digest part (option_copied cell.entry) }
{
    let digest = digest_optional(cell);
    if part.falling { !digest } else { digest }
}

// The digest of the key of a row.
pub(crate) fn digest_row(parts: &[Part], row: &[Cell]) -> u64
    ensures { result ≡ key_digest parts.now row.now }
{
    match parts.first() {
        Some(part) => digest_part(*part, cell_at(row, part.column)),
        None => 0,
    }
}

// Where the cells of a probe stand among the digests of rows.
pub(crate) fn digest_cells(parts: &[Part], cells: &[Cell]) -> u64
    ensures { result ≡ probe_digest parts.now cells.now }
{
    match (parts.first(), cells.first()) {
        (Some(part), Some(cell)) => digest_part(*part, Some(cell)),
        _ => 0,
    }
}
