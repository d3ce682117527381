//! Tests of listings, which were written by hand from the format.
use listing::listing;
use std::test::Fail;

#[test]
fn of_no_bytes(rt: HostRuntime) -> Result<(), Fail> {
    assert_eq!(rt; listing(rt.alloc(), b"")?.as_str(), "end at=0\n");
    Ok(())
}

// Every kind of note, some with fields at their largest; every refusal of a note; and last a note cut short.
#[test]
fn of_a_damaged_feed(rt: HostRuntime) -> Result<(), Fail> {
    let feed = b"\
\x11\0\x01\0\x01\0\0\0\x01\0\x01\0\x01\0\x01\0\0\
\x0e\0\x02\0\x01\x02\0\0\0\0\0\0\x08\0\
\x04\0\x06\0\
\x05\0\x02\x01\x09\
\x1c\0\x03\0\xff\xff\xff\xff\xfe\xff\xff\xff\xff\xff\xfe\xff\xff\xff\xff\xff\xff\xff\xff\xff\xff\xff\xff\xff\
\x1c\0\x04\0\x01\0\0\0\x02\0\0\0\x03\0\x04\0\x05\0\0\0\0\0\0\0\0\0\xe0\x3f\
\x0c\0\x05\0\x04\x03\x02\x01\x08\x07\x06\x05\
\x12\0\x01\0\0\xe1\xf5\x05\x64\0\x05\0\x04\0\x08\0\x10\x27\
\x0e\0\x02\0\xff\xff\xff\xff\0\xca\x9a\x3b\x07\0\
\x1b\0\x03\0\0\0\0\0\0\0\0\0\0\0\0";
    let expected = "\
1 at=0 building kind=1 length=17 refused 3
2 at=17 factor kind=2 length=14 refused 4
3 at=31 unknown kind=6 length=4 refused 2
4 at=35 unknown kind=258 length=5 refused 2
5 at=40 entry number=4294967295 revision=4294967294 row=65535 span=65534 code=4294967295 quantity=18446744073709551615 unbooked
6 at=68 measured number=1 revision=2 row=3 span=4 code=5 bits=4602678819172646912 unbooked
7 at=96 withdrawal number=16909060 revision=84281096
8 at=108 building area=100000000 life=100 region=5 sun=4 type=8 reference=10000
9 at=126 factor code=4294967295 amount=1000000000 unit=7
10 at=140 unframed left=15 refused 1
";
    assert_eq!(rt; listing(rt.alloc(), feed)?.as_str(), expected);
    Ok(())
}

// A building of 50 years, its own factors, and entries: each calculation method, and each refusal for content.
#[test]
fn of_booked_entries(rt: HostRuntime) -> Result<(), Fail> {
    let feed = b"\
\x12\0\x01\0\x10\x27\0\0\x32\0\x02\0\x02\0\x01\0\0\0\
\x0e\0\x02\0\x07\0\0\0\x05\0\0\0\x01\0\
\x0e\0\x02\0\x07\0\0\0\x09\0\0\0\x01\0\
\x0e\0\x02\0\x09\0\0\0\x01\xca\x9a\x3b\x01\0\
\x0e\0\x02\0\x09\0\0\0\x0a\x05\0\0\x05\0\
\x0e\0\x02\0\x08\0\0\0\0\xca\x9a\x3b\x02\0\
\x0d\0\x02\0\x03\0\0\0\x01\0\0\0\x01\
\x0e\0\x02\0\x06\0\0\0\x04\0\0\0\x06\0\
\x1c\0\x03\0\x01\0\0\0\0\0\0\0\x01\0\0\0\x07\0\0\0\xe8\x03\0\0\0\0\0\0\
\x1c\0\x03\0\x02\0\0\0\0\0\0\0\x01\0\0\0\x47\x42\x0f\0\xd0\x07\0\0\0\0\0\0\
\x1c\0\x03\0\x03\0\0\0\0\0\0\0\x02\0\xf4\x01\x09\0\0\0\x30\x75\0\0\0\0\0\0\
\x1c\0\x03\0\x04\0\0\0\0\0\0\0\x08\0\x10\x27\x09\0\0\0\x01\0\0\0\0\0\0\0\
\x1c\0\x03\0\x05\0\0\0\0\0\0\0\x15\0\x0f\0\x66\0\0\0\xe8\x03\0\0\0\0\0\0\
\x1c\0\x03\0\x06\0\0\0\0\0\0\0\x15\0\x64\0\x66\0\0\0\x01\0\0\0\0\0\0\0\
\x1c\0\x03\0\x07\0\0\0\0\0\0\0\x11\0\x01\0\x08\0\0\0\x01\0\0\0\0\0\0\0\
\x1c\0\x03\0\x08\0\0\0\0\0\0\0\x11\0\x14\0\x08\0\0\0\x01\0\0\0\0\0\0\0\
\x1c\0\x03\0\x09\0\0\0\0\0\0\0\x11\0\x3c\0\x08\0\0\0\x01\0\0\0\0\0\0\0\
\x1c\0\x03\0\x0a\0\0\0\0\0\0\0\x09\0\0\0\x06\0\0\0\xa8\x61\0\0\0\0\0\0\
\x1c\0\x03\0\x0b\0\0\0\0\0\0\0\x16\0\0\0\x06\0\0\0\xc4\x09\0\0\0\0\0\0\
\x1c\0\x04\0\x0c\0\0\0\0\0\0\0\x0c\0\0\0\x01\0\0\0\0\0\0\0\0\0\xb0\x3f\
\x1c\0\x04\0\x0d\0\0\0\0\0\0\0\x0c\0\0\0\x01\0\0\0\0\0\0\0\0\0\0\x80\
\x1c\0\x04\0\x0e\0\0\0\0\0\0\0\x0b\0\0\0\x07\0\0\0\0\0\0\0\x80\x84\x2e\x41\
\x1c\0\x03\0\x0f\0\0\0\0\0\0\0\0\0\0\0\x07\0\0\0\x01\0\0\0\0\0\0\0\
\x1c\0\x03\0\x10\0\0\0\0\0\0\0\x17\0\0\0\x07\0\0\0\x01\0\0\0\0\0\0\0\
\x1c\0\x03\0\x11\0\0\0\0\0\0\0\x01\0\x01\0\x07\0\0\0\x01\0\0\0\0\0\0\0\
\x1c\0\x03\0\x12\0\0\0\0\0\0\0\x02\0\x11\x27\x09\0\0\0\x01\0\0\0\0\0\0\0\
\x1c\0\x03\0\x13\0\0\0\0\0\0\0\x11\0\0\0\x08\0\0\0\x01\0\0\0\0\0\0\0\
\x1c\0\x03\0\x14\0\0\0\0\0\0\0\x15\0\x65\0\x66\0\0\0\x01\0\0\0\0\0\0\0\
\x1c\0\x03\0\x15\0\0\0\0\0\0\0\x01\0\0\0\x07\0\0\0\x01\xca\x9a\x3b\0\0\0\0\
\x1c\0\x04\0\x16\0\0\0\0\0\0\0\x01\0\0\0\x07\0\0\0\x01\0\0\0\x80\x84\x2e\x41\
\x1c\0\x04\0\x17\0\0\0\0\0\0\0\x01\0\0\0\x07\0\0\0\0\0\0\0\0\0\xf0\xbf\
\x1c\0\x04\0\x18\0\0\0\0\0\0\0\x01\0\0\0\x07\0\0\0\x01\0\0\0\0\0\xf8\x7f\
\x1c\0\x04\0\x19\0\0\0\0\0\0\0\x01\0\0\0\x07\0\0\0\0\0\0\0\0\0\xf0\x7f\
\x1c\0\x04\0\x1a\0\0\0\0\0\0\0\x01\0\0\0\x07\0\0\0\0\0\0\0\0\0\xf0\xff\
\x1c\0\x03\0\x1b\0\0\0\0\0\0\0\x01\0\0\0\x03\0\0\0\x01\0\0\0\0\0\0\0\
\x1c\0\x03\0\x1c\0\0\0\0\0\0\0\x01\0\0\0\x43\x42\x0f\0\x01\0\0\0\0\0\0\0\
\x1c\0\x03\0\x1d\0\0\0\0\0\0\0\x01\0\0\0\x48\x42\x0f\0\x01\0\0\0\0\0\0\0\
\x1c\0\x03\0\x1e\0\0\0\0\0\0\0\x01\0\0\0\xa5\x42\x0f\0\x01\0\0\0\0\0\0\0\
\x1c\0\x03\0\x1f\0\0\0\0\0\0\0\x01\0\0\0\x09\0\0\0\x01\0\0\0\0\0\0\0\
\x1c\0\x03\0\x20\0\0\0\0\0\0\0\x02\0\x01\0\x07\0\0\0\x01\0\0\0\0\0\0\0\
\x1c\0\x03\0\x21\0\0\0\0\0\0\0\x15\0\x01\0\x07\0\0\0\x01\0\0\0\0\0\0\0\
\x1c\0\x03\0\x22\0\0\0\0\0\0\0\x0b\0\0\0\x08\0\0\0\0\xca\x9a\x3b\0\0\0\0\
\x0e\0\x02\0\x03\0\0\0\x01\0\0\0\x01\0\
\x1c\0\x03\0\x23\0\0\0\0\0\0\0\x01\0\0\0\x03\0\0\0\x01\0\0\0\0\0\0\0";
    let expected = "\
1 at=0 building area=10000 life=50 region=2 sun=2 type=1 reference=0
2 at=18 factor code=7 amount=5 unit=1
3 at=32 factor code=7 amount=9 unit=1
4 at=46 factor kind=2 length=14 refused 4
5 at=60 factor code=9 amount=1290 unit=5
6 at=74 factor code=8 amount=1000000000 unit=2
7 at=88 factor kind=2 length=13 refused 3
8 at=101 factor code=6 amount=4 unit=6
9 at=115 entry number=1 revision=0 row=1 span=0 code=7 quantity=1000 thousandths=1000 grams=1
10 at=143 entry number=2 revision=0 row=1 span=0 code=1000007 quantity=2000 thousandths=2000 grams=1
11 at=171 entry number=3 revision=0 row=2 span=500 code=9 quantity=30000 thousandths=30000 grams=1935000
12 at=199 entry number=4 revision=0 row=8 span=10000 code=9 quantity=1 thousandths=1 grams=1290
13 at=227 entry number=5 revision=0 row=21 span=15 code=102 quantity=1000 thousandths=1000 grams=4766667
14 at=255 entry number=6 revision=0 row=21 span=100 code=102 quantity=1 thousandths=1 grams=715
15 at=283 entry number=7 revision=0 row=17 span=1 code=8 quantity=1 thousandths=1 grams=5000000
16 at=311 entry number=8 revision=0 row=17 span=20 code=8 quantity=1 thousandths=1 grams=200000
17 at=339 entry number=9 revision=0 row=17 span=60 code=8 quantity=1 thousandths=1 grams=0
18 at=367 entry number=10 revision=0 row=9 span=0 code=6 quantity=25000 thousandths=25000 grams=-10
19 at=395 entry number=11 revision=0 row=22 span=0 code=6 quantity=2500 thousandths=2500 grams=1
20 at=423 measured number=12 revision=0 row=12 span=0 code=1 bits=4589168020290535424 thousandths=63 grams=1575
21 at=451 measured number=13 revision=0 row=12 span=0 code=1 bits=9223372036854775808 thousandths=0 grams=0
22 at=479 measured number=14 revision=0 row=11 span=0 code=7 bits=4696837146684686336 thousandths=1000000000 grams=25000000
23 at=507 entry number=15 revision=0 row=0 span=0 code=7 quantity=1 refused 5
24 at=535 entry number=16 revision=0 row=23 span=0 code=7 quantity=1 refused 5
25 at=563 entry number=17 revision=0 row=1 span=1 code=7 quantity=1 refused 6
26 at=591 entry number=18 revision=0 row=2 span=10001 code=9 quantity=1 refused 6
27 at=619 entry number=19 revision=0 row=17 span=0 code=8 quantity=1 refused 6
28 at=647 entry number=20 revision=0 row=21 span=101 code=102 quantity=1 refused 6
29 at=675 entry number=21 revision=0 row=1 span=0 code=7 quantity=1000000001 refused 7
30 at=703 measured number=22 revision=0 row=1 span=0 code=7 bits=4696837146684686337 refused 7
31 at=731 measured number=23 revision=0 row=1 span=0 code=7 bits=13830554455654793216 refused 7
32 at=759 measured number=24 revision=0 row=1 span=0 code=7 bits=9221120237041090561 refused 7
33 at=787 measured number=25 revision=0 row=1 span=0 code=7 bits=9218868437227405312 refused 7
34 at=815 measured number=26 revision=0 row=1 span=0 code=7 bits=18442240474082181120 refused 7
35 at=843 entry number=27 revision=0 row=1 span=0 code=3 quantity=1 refused 8 asked=3 lacking=3
36 at=871 entry number=28 revision=0 row=1 span=0 code=1000003 quantity=1 refused 8 asked=1000003 lacking=3
37 at=899 entry number=29 revision=0 row=1 span=0 code=1000008 quantity=1 refused 8 asked=1000008 lacking=1000008
38 at=927 entry number=30 revision=0 row=1 span=0 code=1000101 quantity=1 refused 8 asked=1000101 lacking=1000101
39 at=955 entry number=31 revision=0 row=1 span=0 code=9 quantity=1 refused 9
40 at=983 entry number=32 revision=0 row=2 span=1 code=7 quantity=1 refused 9
41 at=1011 entry number=33 revision=0 row=21 span=1 code=7 quantity=1 refused 9
42 at=1039 entry number=34 revision=0 row=11 span=0 code=8 quantity=1000000000 refused 10
43 at=1067 factor code=3 amount=1 unit=1
44 at=1081 entry number=35 revision=0 row=1 span=0 code=3 quantity=1 refused 8 asked=3 lacking=3
end at=1109
";
    assert_eq!(rt; listing(rt.alloc(), feed)?.as_str(), expected);
    Ok(())
}
