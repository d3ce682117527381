//! Tests of the largest feeds, for which no clause says that memory suffices, and of reading and writing that fail.
use feed::MAX_FEED_BYTES;
use listing::write_listing;
use pages::Figure;
use report::{PageLines, write_report};
use std::alloc::{AllocError, Global};
use std::io::{self, ErrorKind, Read, Write};
use std::test::Fail;

// area 10000, life 50, region 2, sun 2, type 1, reference 0
const BUILDING: [u8; 18] = [18, 0, 1, 0, 0x10, 0x27, 0, 0, 50, 0, 2, 0, 2, 0, 1, 0, 0, 0];

// A note of an unknown kind.
const UNKNOWN: [u8; 4] = [4, 0, 9, 0];

// code 7, amount 7,000,000, unit 1
const FACTOR: [u8; 14] = [14, 0, 2, 0, 7, 0, 0, 0, 0xC0, 0xCF, 0x6A, 0, 1, 0];

// number 1, revision 1
const WITHDRAWAL: [u8; 12] = [12, 0, 5, 0, 1, 0, 0, 0, 1, 0, 0, 0];

// A feed of 65,536 bytes: a building, `count` copies of a note, and zeros, which frame no note.
fn full_feed(alloc: Global, note: &[u8], count: usize) -> Result<Vec<u8>, AllocError> {
    let mut feed = Vec::new(alloc);
    feed.extend_from_slice(&BUILDING)?;
    for _ in 0..count {
        feed.extend_from_slice(note)?;
    }
    feed.resize(MAX_FEED_BYTES, 0)?;
    Ok(feed)
}

// The listing of such a feed. Its notes have the given length and words.
fn listing_lines(alloc: Global, count: usize, length: usize, words: &str) -> io::Result<Vec<u8>> {
    let mut text = Vec::new(alloc);
    text.write_all(b"1 at=0 building area=10000 life=50 region=2 sun=2 type=1 reference=0\n")?;
    let mut place = 2usize;
    let mut start = 18usize;
    for _ in 0..count {
        writeln!(text, "{place} at={start} {words}")?;
        place = place.wrapping_add(1);
        start = start.wrapping_add(length);
    }
    let left = MAX_FEED_BYTES.wrapping_sub(start);
    writeln!(text, "{place} at={start} unframed left={left} refused 1")?;
    Ok(text)
}

// The report of such a feed. The sends from `first` on are refused by the given number, and the zeros by 1, so that
// nothing counts.
fn report_lines(alloc: Global, first: usize, count: usize, number: u8) -> io::Result<Vec<u8>> {
    let mut text = Vec::new(alloc);
    for place in first..=count {
        writeln!(text, "denied {place} {number}")?;
    }
    let last = count.wrapping_add(1);
    writeln!(text, "denied {last} 1")?;
    text.write_all(b"1 0 0\n2 0 0\n3 0 0\n4 0 0\ntotal 0 0\ngrade 2\n")?;
    Ok(text)
}

fn listing_bytes(alloc: Global, feed: &[u8]) -> io::Result<Vec<u8>> {
    let mut text = Vec::new(alloc);
    write_listing(alloc, feed, &mut text)?;
    Ok(text)
}

fn report_bytes(alloc: Global, feed: &[u8]) -> io::Result<Vec<u8>> {
    let mut text = Vec::new(alloc);
    write_report(alloc, feed, &mut text)?;
    Ok(text)
}

#[test]
fn of_unknown_kinds(rt: HostRuntime) -> Result<(), Fail> {
    let alloc = rt.alloc();
    let feed = full_feed(alloc, &UNKNOWN, 16_379)?;
    let words = "unknown kind=9 length=4 refused 2";
    assert!(rt; listing_bytes(alloc, feed.as_slice())? == listing_lines(alloc, 16_379, 4, words)?);
    assert!(rt; report_bytes(alloc, feed.as_slice())? == report_lines(alloc, 1, 16_379, 2)?);
    Ok(())
}

#[test]
fn of_factor_rows(rt: HostRuntime) -> Result<(), Fail> {
    let alloc = rt.alloc();
    let feed = full_feed(alloc, &FACTOR, 4_679)?;
    let words = "factor code=7 amount=7000000 unit=1";
    assert!(rt; listing_bytes(alloc, feed.as_slice())? == listing_lines(alloc, 4_679, 14, words)?);
    assert_eq!(rt;
        report_bytes(alloc, feed.as_slice())?.as_slice(),
        &b"denied 0 24\n"[..]
    );
    Ok(())
}

// The first is accepted, and the others repeat it.
#[test]
fn of_withdrawals(rt: HostRuntime) -> Result<(), Fail> {
    let alloc = rt.alloc();
    let feed = full_feed(alloc, &WITHDRAWAL, 5_459)?;
    let words = "withdrawal number=1 revision=1";
    assert!(rt; listing_bytes(alloc, feed.as_slice())? == listing_lines(alloc, 5_459, 12, words)?);
    assert!(rt; report_bytes(alloc, feed.as_slice())? == report_lines(alloc, 2, 5_459, 21)?);
    Ok(())
}

#[test]
fn of_one_byte_more(rt: HostRuntime) -> Result<(), Fail> {
    let alloc = rt.alloc();
    let mut feed = full_feed(alloc, &WITHDRAWAL, 5_459)?;
    feed.push(0)?;
    assert_eq!(rt;
        listing_bytes(alloc, feed.as_slice())?.as_slice(),
        &b"refused 25\n"[..]
    );
    assert_eq!(rt;
        report_bytes(alloc, feed.as_slice())?.as_slice(),
        &b"denied 0 25\n"[..]
    );
    Ok(())
}

#[test]
fn of_22_headings(rt: HostRuntime) -> Result<(), Fail> {
    let heading = Figure {
        kilograms: -1_000,
        count: 7,
    };
    let total = Figure {
        kilograms: -22_000,
        count: 154,
    };
    let mut expected = Vec::new(rt.alloc());
    for k in 1..=22 {
        writeln!(expected, "{k} -1000 7")?;
    }
    expected.write_all(b"total -22000 154\n")?;
    let headings = [heading; 22];
    let page = PageLines {
        headings: &headings,
        total,
    };
    let text = format!(in rt.alloc(); "{page}")?;
    assert_eq!(rt; text.as_str().as_bytes(), expected.as_slice());
    Ok(())
}

// A reader that gives its bytes, and then fails.
#[derive(Drop)]
struct BrokenReader<'a> {
    bytes: &'a [u8],
}

impl Read for BrokenReader<'_> {
    fn read(&mut self, buf: &mut [u8]) -> io::Result<usize> {
        if self.bytes.is_empty() {
            return Err(ErrorKind::BrokenPipe.into());
        }
        self.bytes.read(buf)
    }
}

// A writer that takes `room` bytes, and then fails.
#[derive(Drop)]
struct BrokenWriter {
    room: usize,
}

impl Write for BrokenWriter {
    fn write(&mut self, buf: &[u8]) -> io::Result<usize> {
        if self.room == 0 {
            return Err(ErrorKind::BrokenPipe.into());
        }
        let taken = buf.len().min(self.room);
        self.room -= taken;
        Ok(taken)
    }

    fn flush(&mut self) -> io::Result<()> {
        Ok(())
    }
}

// The bytes before the error have a report of their own, which must not be written.
#[test]
fn an_error_in_mid_stream(rt: HostRuntime) {
    let alloc = rt.alloc();
    let mut text = Vec::new(alloc);
    let reader = BrokenReader { bytes: &BUILDING };
    let answer = write_report(alloc, reader, &mut text).map_err(|error| error.kind());
    assert_eq!(rt; answer, Err(ErrorKind::BrokenPipe));
    assert!(rt; text.is_empty());
    let mut writer = BrokenWriter { room: 9 };
    let answer = write_report(alloc, &BUILDING[..], &mut writer).map_err(|error| error.kind());
    assert_eq!(rt; answer, Err(ErrorKind::BrokenPipe));
}
