ghost use Rattle.std.specs.Prelude.{◌≡◌};
ghost use Rattle.std.specs.Bool.{Decides};
ghost use Rattle.client_lines.specs.Finds.{FindsRest};

/// The bytes behind a beginning, if they have it.
pub(crate) fn strip<'a>(bytes: &'a [u8], head: &[u8]) -> Option<&'a [u8]>
    ensures { FindsRest bytes.now head.now result }
{
    bytes.strip_prefix(head)
}

/// Whether the bytes are a text.
pub(crate) fn is(bytes: &[u8], text: &[u8]) -> bool
    ensures { Decides result (bytes.now ≡ text.now) }
{
    bytes == text
}
