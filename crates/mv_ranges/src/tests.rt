use crate::Ranges;
use std::alloc::{AllocError, Global};

/// The keys from one on, up to another or without end, but one if it isn't empty, and the timestamp of who has walked them.
type Scan = (&'static [u8], Option<&'static [u8]>, &'static [u8], u64);

const SCANS: [Scan; 4] = [
    (b"b", Some(b"d"), b"", 7),
    (b"c", Some(b"f"), b"e", 5),
    (b"m", None, b"", 6),
    // Empty.
    (b"x", Some(b"w"), b"", 9),
];

/// Keys, and the mark over each once all of them were walked: at each edge, just before it and between.
const OVER: [(&[u8], u64); 16] = [
    (b"", 0),
    (b"a\xff", 0),
    (b"b", 7),
    (b"b\0", 7),
    (b"c", 7),
    (b"c\xff", 7),
    (b"d", 5),
    (b"e", 0),
    (b"e\0", 5),
    (b"e\xff", 5),
    (b"f", 0),
    (b"l\xff", 0),
    (b"m", 6),
    (b"w", 6),
    (b"x", 6),
    (b"\xff\xff", 6),
];

fn walked(alloc: Global, scans: &[Scan]) -> Result<Ranges, AllocError> {
    let mut ranges = Ranges::new(alloc);
    for (from, to, but, reader) in scans {
        walk(alloc, &mut ranges, from, *to, but, *reader)?;
    }
    Ok(ranges)
}

fn walk(
    alloc: Global,
    ranges: &mut Ranges,
    from: &[u8],
    to: Option<&[u8]>,
    but: &[u8],
    reader: u64,
) -> Result<(), AllocError> {
    let mut keys = Vec::new(alloc);
    if !but.is_empty() {
        let mut key = Vec::new(alloc);
        key.extend_from_slice(but)?;
        keys.push(key)?;
    }
    ranges.mark(from, to, &keys, reader)
}

fn is_over(alloc: Global, ranges: &Ranges, key: &[u8], mark: u64) -> bool {
    let mut copy = Vec::new(alloc);
    copy.extend_from_slice(key).is_ok() && ranges.over(&copy) == mark
}

/// The first wrong row.
fn wrong_over(alloc: Global) -> Result<Option<usize>, AllocError> {
    let ranges = walked(alloc, &SCANS)?;
    for (index, (key, mark)) in OVER.iter().enumerate() {
        if !is_over(alloc, &ranges, key, *mark) {
            return Ok(Some(index));
        }
    }
    Ok(None)
}

#[test]
fn overlapping(rt: HostRuntime) {
    assert_eq!(rt; wrong_over(rt.alloc()), Ok(None), "the first wrong row");
}

/// How many boundaries there are, with a scan that adds none, and how many are left after each low water.
fn left(alloc: Global) -> Result<(usize, usize, usize, usize), AllocError> {
    let mut ranges = walked(alloc, &SCANS)?;
    ranges.mark(b"b", Some(b"d"), &[], 7)?;
    let all = ranges.len();
    ranges.low_water(5);
    let above = ranges.len();
    let stays = is_over(alloc, &ranges, b"c", 7) && is_over(alloc, &ranges, b"m", 6);
    ranges.low_water(6);
    let last = ranges.len();
    ranges.low_water(7);
    Ok((all, if stays { above } else { 0 }, last, ranges.len()))
}

#[test]
fn all_dropped(rt: HostRuntime) {
    assert_eq!(rt; left(rt.alloc()), Ok((6, 3, 2, 0)));
}
