ghost use Rattle.std.specs.Prelude.{◌++◌, codes, length, ◌<◌, OnOk};
ghost use Rattle.client_lines.specs.Tokens.{doc_start, found_start};
ghost use Rattle.client_lines.specs.Sending.{Puts};
ghost use Rattle.transcript.specs.Texts.{ended};

use crate::outbox::Outbox;
use crate::token::ReplyToken;
use crate::words::{put_ended, put_line, put_text, put_texts};
use disk_model::{Failed, Sink};
use doc_model::Text;

/// Buffers a document: the line of its times, its collections, its root and the end.
pub(crate) fn put_doc<W: Sink>(
    outbox: &mut Outbox,
    sink: &mut W,
    times: &[ReplyToken<'_>],
    collections: &Text,
    root: &Text,
) -> Result<(), Failed>
    ensures { Puts W.written W.faults result outbox.old outbox.new sink.old sink.new
        (doc_start times.now collections.now ++ ended root.now ++ ended (codes "end")) }
{
    put_trees(outbox, sink, times, collections, root)?;
    put_ended(outbox, sink, b"end")
}

fn put_trees<W: Sink>(
    outbox: &mut Outbox,
    sink: &mut W,
    times: &[ReplyToken<'_>],
    collections: &Text,
    root: &Text,
) -> Result<(), Failed>
    ensures { Puts W.written W.faults result outbox.old outbox.new sink.old sink.new
        (doc_start times.now collections.now ++ ended root.now) }
{
    put_collections(outbox, sink, times, collections)?;
    put_text(outbox, sink, root)
}

fn put_collections<W: Sink>(
    outbox: &mut Outbox,
    sink: &mut W,
    times: &[ReplyToken<'_>],
    collections: &Text,
) -> Result<(), Failed>
    ensures { Puts W.written W.faults result outbox.old outbox.new sink.old sink.new
        (doc_start times.now collections.now) }
{
    put_line(outbox, sink, b"doc", times)?;
    put_text(outbox, sink, collections)
}

/// Buffers the URIs that a search found: the line of the count and the times, the URIs and the end.
pub(crate) fn put_found<W: Sink>(
    outbox: &mut Outbox,
    sink: &mut W,
    times: &[ReplyToken<'_>],
    uris: &[Text],
) -> Result<(), Failed>
    ensures { Puts W.written W.faults result outbox.old outbox.new sink.old sink.new
        (found_start times.now uris.now ++ ended (codes "end")) }
{
    put_uris(outbox, sink, times, uris)?;
    put_ended(outbox, sink, b"end")
}

fn put_uris<W: Sink>(
    outbox: &mut Outbox,
    sink: &mut W,
    times: &[ReplyToken<'_>],
    uris: &[Text],
) -> Result<(), Failed>
    ensures { Puts W.written W.faults result outbox.old outbox.new sink.old sink.new (found_start times.now uris.now) }
{
    put_line(outbox, sink, b"found", times)?;
    put_texts(outbox, sink, uris)
}
