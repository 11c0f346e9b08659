//! The words of a text, one after another where they stand.

ghost use Rattle.std.specs.Prelude.{◌≡◌, ◌<◌, ◌∷◌, [], length, Some, IfSome, IsNone};
ghost use Rattle.std.specs.Str.{IsUtf8};
ghost use Rattle.log_model.specs.Keys.{words};
ghost use Rattle.log_replay.specs.Words.{first_word};

// What stands before the first space, and what behind it.
fn split(text: &[u8]) -> (&[u8], &[u8])
    ensures { (result.0.now, result.1.now) ≡ first_word text.now }
{
    for (i, b) in text.iter().enumerate() {
        if *b == b' ' {
            return (&text[..i], &text[i + 1..]);
        }
    }
    (text, b"")
}

fn str_of(bytes: &[u8]) -> &str
    requires { IsUtf8 bytes.now }
    ensures { result.now ≡ bytes.now }
{
    match std::str::from_utf8(bytes) {
        Ok(text) => text,
        Err(_) => unreachable!(),
    }
}

/// The first word of a text, and what stands behind it; nothing where there is none.
pub fn next_word(text: &[u8]) -> Option<(&str, &[u8])>
    requires { IsUtf8 text.now }
    ensures first { IfSome result (λ found. words (Some text.now) ≡ found.0.now ∷ words (Some found.1.now)) }
    ensures utf8 { IfSome result (λ found. IsUtf8 found.1.now) }
    ensures shorter { IfSome result (λ found. length found.1.now < length text.now) }
    ensures none { IsNone result → words (Some text.now) ≡ [] }
{
    let mut rest = text;
    while rest.len() > 0 {
        let (word, behind) = split(rest);
        if !word.is_empty() {
            return Some((str_of(word), behind));
        }
        rest = behind;
    }
    None
}
