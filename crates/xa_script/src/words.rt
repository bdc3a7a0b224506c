//! The words of a line, of which text in quotes is one.
ghost use Rattle.std.specs.Prelude.{◌≡◌, ◌∷◌};
ghost use Rattle.std.specs.Option.{option_copied, option_map};
ghost use Rattle.xa_script.specs.Words.{ends_word, is_within, next_place, one_of, place_behind, two_of, words, words_behind};

/// Where the reading of a word is.
#[derive(Clone, Copy, Debug, PartialEq, Eq)]
pub enum Place {
    /// In front of its first character.
    Front,
    /// Outside of quotes.
    Bare,
    /// Within the quotes that it began with.
    Quoted,
    /// There, after a backslash.
    Escaped,
}

/// The first word of a line, and what stands after the blank that ends it.
pub fn first_word(line: &[u8]) -> (&[u8], Option<&[u8]>)
    ensures { words line.now ≡ result.0.now ∷ words_behind (option_copied result.1) }
{
    let mut place = Place::Front;
    for index in 0..line.len() {
        let character = line[index];
        if ends_word(place, character) {
            return (&line[..index], Some(&line[index + 1..]));
        }
        place = next_place(place, character);
    }
    (line, None)
}

/// Whether a word ends before a character.
fn ends_word(place: Place, character: u8) -> bool
    ensures { result ≡ ends_word place character }
{
    character == b' ' && !is_within(place)
}

/// Whether a place is within quotes.
fn is_within(place: Place) -> bool
    ensures { result ≡ is_within place }
{
    match place {
        Place::Front | Place::Bare => false,
        Place::Quoted | Place::Escaped => true,
    }
}

/// Where the reading is after one more character of the word.
fn next_place(place: Place, character: u8) -> Place
    ensures { result ≡ next_place place character }
{
    match place {
        Place::Front if character == b'"' => Place::Quoted,
        Place::Front | Place::Bare => Place::Bare,
        Place::Quoted if character == b'"' => Place::Bare,
        Place::Quoted if character == b'\\' => Place::Escaped,
        Place::Quoted | Place::Escaped => Place::Quoted,
    }
}

/// Whether a word begins with a quote, and lacks the one that ends the text.
pub fn is_unended(word: &[u8]) -> bool
    ensures { result ≡ is_within (place_behind Place.Front word.now) }
{
    let mut place = Place::Front;
    for character in word {
        place = next_place(place, *character);
    }
    is_within(place)
}

/// The word of a line that has one.
pub fn only_word(line: Option<&[u8]>) -> Option<&[u8]>
    ensures { option_copied result ≡ one_of (words_behind (option_copied line.entry)) }
{
    let (word, rest) = first_word(line?);
    match rest {
        None => Some(word),
        Some(_) => None,
    }
}

/// The words of a line that has two.
pub fn two_words(line: Option<&[u8]>) -> Option<(&[u8], &[u8])>
    ensures { option_map (λ pair. (pair.0.now, pair.1.now)) result
        ≡ two_of (words_behind (option_copied line.entry)) }
{
    let (first, rest) = first_word(line?);
    let second = only_word(rest)?;
    Some((first, second))
}
