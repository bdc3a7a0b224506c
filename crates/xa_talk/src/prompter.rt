/// Who is told that a script's next line is awaited.
pub trait Prompter {
    fn prompt(&mut self);
}
