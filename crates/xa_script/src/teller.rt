/// Who is told of lines that ask nothing.
pub trait Teller {
    /// A line, of which this many stand before it, asks nothing.
    fn tell(&mut self, index: u64, line: &[u8]);
}
