use crate::fault::UsersFault;

/// The line of a text that a fault is about, counted from 1: where the text is no TOML, or the first that begins with
/// the user's name, in brackets or as a key, with quotes or without. It is for a message: nothing is proved of which
/// line it is.
pub fn line_of(text: &str, fault: &UsersFault) -> Option<u64> {
    match fault {
        UsersFault::NoToml { line } => Some(*line),
        UsersFault::Name { name }
        | UsersFault::Members { name }
        | UsersFault::Role { name }
        | UsersFault::Verifier { name } => first_line(text, name.as_str()),
        UsersFault::Memory | UsersFault::TooMany | UsersFault::Nobody => None,
    }
}

fn first_line(text: &str, name: &str) -> Option<u64> {
    let mut number = 1u64;
    for line in text.lines() {
        if begins_with(line.as_bytes(), name.as_bytes()) {
            return Some(number);
        }
        number = number.saturating_add(1);
    }
    None
}

// Whether the line begins with the name, and no longer one.
fn begins_with(line: &[u8], name: &[u8]) -> bool {
    let start = line
        .iter()
        .position(|byte| !is_before(*byte))
        .unwrap_or(line.len());
    match line[start..].strip_prefix(name) {
        Some([next, ..]) => !is_of_name(*next),
        Some([]) => true,
        None => false,
    }
}

fn is_before(byte: u8) -> bool {
    matches!(byte, b' ' | b'\t' | b'[' | b'"' | b'\'')
}

fn is_of_name(byte: u8) -> bool {
    matches!(byte, b'a'..=b'z' | b'A'..=b'Z' | b'0'..=b'9' | b'-' | b'_' | b'@')
}
