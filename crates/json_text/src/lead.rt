ghost use Rattle.std.specs.Prelude.{◌≡◌};
ghost use Rattle.json_text.specs.Reading.{lead_of};

/// What the first byte of a value says of it.
#[derive(Clone, Copy, Debug, PartialEq, Eq)]
pub enum Lead {
    Quote,
    Brace,
    Bracket,
    True,
    False,
    Null,
    Number,
    Other,
}

pub(crate) fn lead_of(bytes: &[u8]) -> Lead
    ensures { result ≡ lead_of bytes.now }
{
    match bytes {
        [b'"', ..] => Lead::Quote,
        [b'{', ..] => Lead::Brace,
        [b'[', ..] => Lead::Bracket,
        [b't', ..] => Lead::True,
        [b'f', ..] => Lead::False,
        [b'n', ..] => Lead::Null,
        [b'-' | b'0'..=b'9', ..] => Lead::Number,
        _ => Lead::Other,
    }
}
