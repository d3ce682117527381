//! Tests of each refusal of a building, a factor row and a note, and of each field at its range's ends and one beyond.
use domain::{Factor, FactorNumbers};
use feed::{Note, NoteHead, read_building, read_factor_row};
use refusals::Refusal;
use std::test::Fail;

// area 10000, life 50, region 2, sun 2, type 1, reference 0
const BUILDING: [u8; 18] = [18, 0, 1, 0, 0x10, 0x27, 0, 0, 50, 0, 2, 0, 2, 0, 1, 0, 0, 0];

// code 7, amount 7,000,000, unit 1
const FACTOR: [u8; 14] = [14, 0, 2, 0, 7, 0, 0, 0, 0xC0, 0xCF, 0x6A, 0, 1, 0];

// The number by which reading is refused; none for a value.
fn refusal_number<T: Drop>(answer: Result<T, Refusal>) -> Option<u8> {
    answer.err().map(Refusal::number)
}

// Writes a field of the given width in bytes at the given offset.
fn put(note: &mut [u8], at: usize, width: usize, value: u32) {
    let field = note.iter_mut().skip(at).take(width);
    for (byte, new) in field.zip(value.to_le_bytes()) {
        *byte = new;
    }
}

#[test]
fn a_building(rt: HostRuntime) {
    // The offset and width of a field, its value, and the number by which it is refused.
    let cases: [(usize, usize, u32, Option<u8>); 29] = [
        (4, 4, 0, Some(4)),
        (4, 4, 1, None),
        (4, 4, 100_000_000, None),
        (4, 4, 100_000_001, Some(4)),
        (4, 4, 0xFFFF_FFFF, Some(4)),
        (8, 2, 0, Some(4)),
        (8, 2, 1, None),
        (8, 2, 100, None),
        (8, 2, 101, Some(4)),
        (8, 2, 0x0101, Some(4)),
        (10, 2, 0, Some(4)),
        (10, 2, 1, None),
        (10, 2, 5, None),
        (10, 2, 6, Some(4)),
        (12, 2, 0, Some(4)),
        (12, 2, 1, None),
        (12, 2, 4, None),
        (12, 2, 5, Some(4)),
        (14, 2, 0, Some(4)),
        (14, 2, 1, None),
        (14, 2, 8, None),
        (14, 2, 9, Some(4)),
        (16, 2, 0, None),
        (16, 2, 10_000, None),
        (16, 2, 10_001, Some(4)),
        (0, 2, 3, Some(1)),
        (0, 2, 19, Some(1)),
        (0, 2, 17, Some(3)),
        (2, 2, 2, Some(2)),
    ];
    for (at, width, value, expected) in cases {
        let mut note = BUILDING;
        put(&mut note, at, width, value);
        assert_eq!(rt; refusal_number(read_building(&note)), expected, "{value}");
    }
}

#[test]
fn a_factor_row(rt: HostRuntime) {
    let cases: [(usize, usize, u32, Option<u8>); 12] = [
        (4, 4, 0, None),
        (4, 4, 0xFFFF_FFFF, None),
        (8, 4, 0, None),
        (8, 4, 1_000_000_000, None),
        (8, 4, 1_000_000_001, Some(4)),
        (12, 2, 0, Some(4)),
        (12, 2, 1, None),
        (12, 2, 7, None),
        (12, 2, 8, Some(4)),
        (0, 2, 15, Some(1)),
        (0, 2, 13, Some(3)),
        (2, 2, 1, Some(2)),
    ];
    for (at, width, value, expected) in cases {
        let mut note = FACTOR;
        put(&mut note, at, width, value);
        assert_eq!(rt; refusal_number(read_factor_row(&note)), expected, "{value}");
    }
}

// The smallest number is reported: a wrong kind before a wrong length, and that before a field out of range.
#[test]
fn the_smallest_number(rt: HostRuntime) {
    let short = b"\x08\0\x01\0\0\0\0\0";
    assert_eq!(rt; refusal_number(read_building(short)), Some(3));
    assert_eq!(rt; refusal_number(read_factor_row(short)), Some(2));
    assert_eq!(rt; refusal_number(Note::read(short)), Some(3));
    assert_eq!(rt; refusal_number(read_building(b"")), Some(1));
    assert_eq!(rt; refusal_number(read_factor_row(b"")), Some(1));
    assert_eq!(rt; refusal_number(Note::read(b"")), Some(1));
    assert_eq!(rt; refusal_number(NoteHead::read(b"\x12\0\x01")), Some(1));
    assert_eq!(rt; refusal_number(NoteHead::read(b"\x03\0\x01\0")), Some(1));
    assert_eq!(rt; refusal_number(NoteHead::read(b"\x04\0\x01\0")), None);
}

// Notes of every kind that are too long or too short, and notes of unknown kinds. Trailing bytes do not make up for a
// short length.
#[test]
fn every_kind(rt: HostRuntime) {
    // The kind, the length, and the number by which the note is refused.
    let cases: [(u8, u8, Option<u8>); 15] = [
        (0, 18, Some(2)),
        (6, 36, Some(2)),
        (255, 4, Some(2)),
        (1, 17, Some(3)),
        (1, 19, Some(3)),
        (2, 13, Some(3)),
        (2, 15, Some(3)),
        (3, 27, Some(3)),
        (3, 28, None),
        (3, 29, Some(3)),
        (4, 27, Some(3)),
        (4, 28, None),
        (4, 29, Some(3)),
        (5, 11, Some(3)),
        (5, 13, Some(3)),
    ];
    for (kind, length, expected) in cases {
        let mut bytes = [0u8; 40];
        bytes[0] = length;
        bytes[2] = kind;
        assert_eq!(rt; refusal_number(Note::read(&bytes)), expected, "{kind}");
    }
}

// Bytes after the first note have no effect.
#[test]
fn trailing_bytes(rt: HostRuntime) -> Result<(), Fail> {
    let bytes = b"\x12\0\x01\0\x10\x27\0\0\x32\0\x02\0\x03\0\x01\0\x09\0\xFF\xFF";
    let building = read_building(bytes)?;
    assert_eq!(rt; building.area, 10_000);
    assert_eq!(rt; building.life, 50);
    assert_eq!(rt; u16::from(building.region), 2);
    assert_eq!(rt; building.sun, 3);
    assert_eq!(rt; u16::from(building.building_type), 1);
    assert_eq!(rt; building.reference, 9);
    let bytes = b"\x0E\0\x02\0\x07\0\0\0\xC0\xCF\x6A\0\x01\0\0";
    let row = read_factor_row(bytes)?;
    assert_eq!(rt; row.code, 7);
    assert_eq!(rt; row.factor.amount, 7_000_000);
    assert_eq!(rt; row.factor.unit, 1);
    Ok(())
}

// A row of a caller's list may be out of range, and then gives no factor.
#[test]
fn a_plain_row(rt: HostRuntime) {
    let cases: [(u32, u16, Option<u8>); 4] = [
        (1_000_000_000, 7, None),
        (1_000_000_001, 7, Some(4)),
        (0, 0, Some(4)),
        (0, 8, Some(4)),
    ];
    for (amount, unit, expected) in cases {
        let numbers = FactorNumbers { amount, unit };
        assert_eq!(rt;
            refusal_number(Factor::try_from(numbers)),
            expected,
            "{amount}"
        );
    }
}
