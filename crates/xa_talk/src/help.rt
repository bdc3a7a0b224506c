//! What a script that is typed can ask for: its calls.
ghost use Rattle.std.specs.Prelude.{◌≡◌};
ghost use Rattle.xa_talk.specs.Help.{asks_help, help_text};

use crate::manner::Manner;

/// Whether a line asks for help.
pub(crate) fn asks_help(manner: Manner, line: &[u8]) -> bool
    ensures { result ≡ asks_help manner.is_typed line.now }
{
    manner.is_typed && line == b"help".as_slice()
}

/// The calls with their arguments, a line each.
pub(crate) fn help_text() -> &'static str
    ensures { result.now ≡ help_text }
{
    "connect\nN hangup\nN open F NAME\nN close F\nN start F X\nN end F X\nN prepare F X\nN commit F X\nN rollback F X\nN forget F X\nN recover F COUNT\nN get K\nN put K V\nN delete K\nN decide commit X\nN decide rollback X\nN doom X\nN restart\nN trim\nN timeout S\nN tick M\nN branches COUNT\nN branches COUNT X\nN status\nN hello\nN metrics\nN disconnect M\nN sessions X\nN shutdown\n"
}
