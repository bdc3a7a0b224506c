use xa_script::Style;

/// How a script is talked.
#[derive(Clone, Copy, Debug, PartialEq, Eq)]
pub struct Manner {
    /// How a reply's line shows the reply.
    pub style: Style,
    /// The first reply that is an error ends the script, once it is written.
    pub is_strict: bool,
    /// It is typed at a terminal: the line `help` is answered with the calls.
    pub is_typed: bool,
}
