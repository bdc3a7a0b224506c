//! Which arguments the words themselves give.
ghost use Rattle.std.specs.Prelude.{◌≡◌};
ghost use Rattle.clap.specs.Matches.{found_of};
ghost use Rattle.clap.specs.Walk.{rows_of};
ghost use Rattle.xa_words.specs.Given.{is_given, is_words};

use clap::ArgMatches;
use clap::parser::ValueSource;

/// Whether the words themselves give an argument. A default is none of the words.
pub(crate) fn is_given(matches: &ArgMatches<'_>, id: &str) -> bool
    ensures { result ≡ is_given id.now (rows_of (found_of matches.now)) }
{
    is_words(matches.value_source(id))
}

fn is_words(source: Option<ValueSource>) -> bool
    ensures { result ≡ is_words source }
{
    match source {
        Some(ValueSource::CommandLine) => true,
        _ => false,
    }
}
