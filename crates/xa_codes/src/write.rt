use crate::bytes::Bytes;

/// What a branch leaves at a key: a value, or nothing after a delete.
#[derive(Debug, Drop)]
pub struct Write {
    pub key: Bytes,
    pub value: Option<Bytes>,
}
