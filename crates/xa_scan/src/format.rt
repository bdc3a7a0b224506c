/// How the records of a log are printed: in words, or as a JSON object a line.
#[derive(Clone, Copy, Debug, PartialEq, Eq)]
pub enum Format {
    Text,
    Json,
}
