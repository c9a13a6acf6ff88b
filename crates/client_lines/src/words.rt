ghost use Rattle.std.specs.List.{flat_map};
ghost use Rattle.std.specs.Prelude.{◌++◌, length, ◌<◌, OnOk};
ghost use Rattle.client_lines.specs.Tokens.{line_text, spaced_part, spaced_parts};
ghost use Rattle.client_lines.specs.Sending.{Puts};
ghost use Rattle.transcript.specs.Texts.{ended};

use crate::outbox::Outbox;
use crate::token::{ReplyToken, put_token};
use disk_model::{Failed, Sink};
use doc_model::Text;

/// Buffers a reply line: its keyword first, then its arguments.
pub(crate) fn put_line<W: Sink>(
    outbox: &mut Outbox,
    sink: &mut W,
    first: &[u8],
    more: &[ReplyToken<'_>],
) -> Result<(), Failed>
    ensures { Puts W.written W.faults result outbox.old outbox.new sink.old sink.new (line_text first.now more.now) }
{
    put_words(outbox, sink, first, more)?;
    outbox.add(sink, b"\n")
}

fn put_words<W: Sink>(
    outbox: &mut Outbox,
    sink: &mut W,
    first: &[u8],
    more: &[ReplyToken<'_>],
) -> Result<(), Failed>
    ensures { Puts W.written W.faults result outbox.old outbox.new sink.old sink.new
        (first.now ++ spaced_parts more.now) }
{
    outbox.add(sink, first)?;
    put_parts(outbox, sink, more)
}

/// Buffers bytes and a line feed.
pub(crate) fn put_ended<W: Sink>(
    outbox: &mut Outbox,
    sink: &mut W,
    bytes: &[u8],
) -> Result<(), Failed>
    ensures { Puts W.written W.faults result outbox.old outbox.new sink.old sink.new (ended bytes.now) }
{
    outbox.add(sink, bytes)?;
    outbox.add(sink, b"\n")
}

/// Buffers a text and a line feed.
pub(crate) fn put_text<W: Sink>(
    outbox: &mut Outbox,
    sink: &mut W,
    text: &Text,
) -> Result<(), Failed>
    ensures { Puts W.written W.faults result outbox.old outbox.new sink.old sink.new (ended text.now) }
{
    put_ended(outbox, sink, text.as_str().as_bytes())
}

/// Buffers texts, each with a line feed.
pub(crate) fn put_texts<W: Sink>(
    outbox: &mut Outbox,
    sink: &mut W,
    texts: &[Text],
) -> Result<(), Failed>
    requires { length outbox.old < 65536 }
    ensures { Puts W.written W.faults result outbox.old outbox.new sink.old sink.new (flat_map ended texts.now) }
{
    for text in texts {
        put_text(outbox, sink, text)?;
    }
    Ok(())
}

fn put_parts<W: Sink>(
    outbox: &mut Outbox,
    sink: &mut W,
    tokens: &[ReplyToken<'_>],
) -> Result<(), Failed>
    requires { length outbox.old < 65536 }
    ensures { Puts W.written W.faults result outbox.old outbox.new sink.old sink.new (spaced_parts tokens.now) }
{
    for token in tokens {
        put_spaced(outbox, sink, token)?;
    }
    Ok(())
}

fn put_spaced<W: Sink>(
    outbox: &mut Outbox,
    sink: &mut W,
    token: &ReplyToken<'_>,
) -> Result<(), Failed>
    ensures { Puts W.written W.faults result outbox.old outbox.new sink.old sink.new (spaced_part token.now) }
{
    outbox.add(sink, b" ")?;
    put_token(outbox, sink, token)
}
