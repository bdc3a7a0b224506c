/// How a reply's line shows the reply.
#[derive(Clone, Copy, Debug, PartialEq, Eq)]
pub struct Style {
    /// Behind the code stands C193's name of it: `104 XA_RBOTHER LogFull`, and not `104 LogFull`.
    pub has_names: bool,
    /// A value is shown as text in quotes: `"v"`, and not `76`.
    pub has_texts: bool,
}
