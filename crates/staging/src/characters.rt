//! A text's characters, one after another.
ghost use Rattle.std.specs.Prelude.{◌≡◌, ◌∷◌, ◌<◌, [], false, length, MatchOption};
ghost use Rattle.std.specs.Str.{chars};
ghost use Rattle.staging.specs.Reading.{is_empty};
ghost use Rattle.staging.specs.inner.Scans.{begins_with};

/// The first character of a text, and what follows it.
pub(crate) fn first_char(text: &str) -> Option<(char, &str)>
    ensures { MatchOption result (chars text.now
        ≡ []) (λ taken. (chars text.now ≡ taken.0 ∷ chars taken.1.now)
        × (length taken.1.now < length text.now)) }
{
    let mut characters = text.chars();
    let first = characters.next()?;
    Some((first, characters.as_str()))
}

/// What follows a character at the front of a text.
pub(crate) fn after(text: &str, character: char) -> Option<&str>
    ensures exact { MatchOption result (begins_with character (chars text.now)
        ≡ false) (λ rest. chars text.now ≡ character ∷ chars rest.now) }
    ensures shorter { MatchOption result (begins_with character (chars text.now)
        ≡ false) (λ rest. length rest.now < length text.now) }
{
    let (first, rest) = first_char(text)?;
    if first == character { Some(rest) } else { None }
}

/// Checks whether a text has no character.
pub(crate) fn is_empty(text: &str) -> bool
    ensures { result ≡ is_empty (chars text.now) }
{
    match first_char(text) {
        None => true,
        Some(_) => false,
    }
}
