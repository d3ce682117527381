//! Tests of reading the sample feed, cut short at every length.
use feed::Reader;
use refusals::Refusal;
use std::test::Fail;

const FEED: &[u8; 198] = b"\
\x12\0\x01\0\x10\x27\0\0\x32\0\x02\0\x02\0\x01\0\0\0\
\x0e\0\x02\0\x07\0\0\0\xc0\xcf\x6a\0\x01\0\
\x0e\0\x02\0\x08\0\0\0\xa0\x86\x01\0\x07\0\
\x1c\0\x03\0\x01\0\0\0\0\0\0\0\x01\0\0\0\x07\0\0\0\xc4\x09\0\0\0\0\0\0\
\x0c\0\x05\0\x02\0\0\0\x02\0\0\0\
\x1c\0\x03\0\x02\0\0\0\x01\0\0\0\x01\0\0\0\x07\0\0\0\xe8\x03\0\0\0\0\0\0\
\x1c\0\x03\0\x03\0\0\0\0\0\0\0\x0c\0\0\0\x01\0\0\0\0\x2d\x31\x01\0\0\0\0\
\x1c\0\x03\0\x04\0\0\0\0\0\0\0\x16\0\0\0\x09\0\0\0\x01\0\0\0\0\0\0\0\
\x1c\0\x03\0\x05\0\0\0\0\0\0\0\x14\0\0\0\x08\0\0\0\xe0\x93\x04\0\0\0\0\0";

// Where the notes end.
const ENDS: [usize; 9] = [18, 32, 46, 74, 86, 114, 142, 170, 198];

#[test]
fn cut_at_every_length(rt: HostRuntime) -> Result<(), Fail> {
    let feed: &[u8] = FEED;
    for n in 0..=feed.len() {
        let mut reader = Reader::new(&feed[..n]);
        let mut end = 0;
        let mut notes = 0;
        for (place, next) in (1..).zip(ENDS) {
            if next > n {
                break;
            }
            let Ok(Some(part)) = reader.try_next() else {
                return Err(Fail::new("a note is missing"));
            };
            assert_eq!(rt; part.place, place);
            assert_eq!(rt; part.start, end);
            assert_eq!(rt; part.start.wrapping_add(part.bytes.len()), next);
            assert_eq!(rt; part.bytes.first().copied(), feed.get(end).copied());
            end = next;
            notes = place;
        }
        // Refused by `Unframed` (1).
        let expected = if n == end { Ok(None) } else { Err(1) };
        for _ in 0..3 {
            assert_eq!(rt; reader.try_next().map_err(Refusal::number), expected);
            let left = reader.rest();
            assert_eq!(rt; left.place, notes.wrapping_add(1));
            assert_eq!(rt; left.start, end);
            assert_eq!(rt; left.bytes.len().wrapping_add(end), n);
        }
    }
    Ok(())
}
