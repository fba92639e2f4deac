//! Where references, or expressions, begin in a text.
ghost use Rattle.std.specs.Prelude.{◌≡◌, ◌==◌};
ghost use Rattle.std.specs.List.{list_any};
ghost use Rattle.param_refs.specs.Grammar.{opens, is_escaped};
ghost use Rattle.param_refs.specs.inner.Scans.{IsOpening};

/// Where the first `$(` or `${` of a text begins, or the text's length.
pub(crate) fn opening(text: &str) -> usize
    ensures { IsOpening text.now result }
{
    let bytes = text.as_bytes();
    for at in 0..bytes.len() {
        if opens_here(&bytes[at..]) {
            return at;
        }
    }
    bytes.len()
}

/// Checks whether a text with `$(` or `${` has a backslash.
pub(crate) fn is_escaped(text: &str) -> bool
    ensures { result ≡ is_escaped text.now }
{
    opening(text) < text.len() && has_backslash(text)
}

fn opens_here(bytes: &[u8]) -> bool
    ensures { result ≡ opens bytes.now }
{
    bytes.len() > 1 && bytes[0] == b'$' && (bytes[1] == b'(' || bytes[1] == b'{')
}

pub(crate) fn has_backslash(text: &str) -> bool
    ensures { result ≡ list_any (λ b. b == 92) text.now }
{
    text.as_bytes().contains(&b'\\')
}
