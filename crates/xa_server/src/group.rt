//! A group by its name.
use std::fs::{self, Files};
use std::io::Read;

// What says which groups there are (group(5)): in each line a name, a password and a number, with `:` between them.
const GROUPS: &str = "/etc/group";

// The most bytes of it that are read.
const MOST_BYTES: u64 = 1_048_576;

/// The number of a group that is named, or given as its number. None if there is none of this name.
pub(crate) fn group_number<R: AllocGlobal + Files>(rt: &R, group: &str) -> Option<u32> {
    if let Ok(number) = group.parse::<u32>() {
        return Some(number);
    }
    let mut file = fs::open(rt, GROUPS).ok()?.take(MOST_BYTES);
    let mut text = Vec::new(rt.alloc());
    file.read_to_end(&mut text).ok()?;
    for line in text.as_slice().split(|byte| *byte == b'\n') {
        if let Some(number) = number_in(line, group) {
            return Some(number);
        }
    }
    None
}

// The number in a line, if that is the group's.
fn number_in(line: &[u8], group: &str) -> Option<u32> {
    let rest = line.strip_prefix(group.as_bytes())?.strip_prefix(b":")?;
    let password = rest.iter().position(|byte| *byte == b':')?;
    let rest = &rest[password + 1..];
    let end = rest
        .iter()
        .position(|byte| *byte == b':')
        .unwrap_or(rest.len());
    std::str::from_utf8(&rest[..end]).ok()?.parse::<u32>().ok()
}
