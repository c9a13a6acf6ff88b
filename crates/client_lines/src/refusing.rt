//! The texts of refusals.

ghost use Rattle.std.specs.Prelude.{◌≡◌, ◌∷◌, []};
ghost use Rattle.std.specs.Fmt.{decimal};
ghost use Rattle.client_lines.specs.Tokens.{token_text};
ghost use Rattle.client_lines.specs.Sending.{Puts};
ghost use Rattle.transcript.specs.Texts.{text_of, bad_text, kind_text, line_of};
ghost use Rattle.transcript.specs.declared.reply.Reply.TheVariants as reply;

use crate::outbox::Outbox;
use crate::token::ReplyToken::{self, File, Number, Word};
use crate::words::put_line;
use disk_model::{Failed, FileName, Sink};
use doc_model::{Kind, Text};
use transcript::BadKind;

/// Buffers what is wrong with a line, and where.
pub(crate) fn put_bad<W: Sink>(
    outbox: &mut Outbox,
    sink: &mut W,
    kind: BadKind,
    place: u64,
) -> Result<(), Failed>
    ensures { Puts W.written W.faults result outbox.old outbox.new sink.old sink.new (text_of (reply.Bad kind place)) }
{
    let more = [Word(bad_text(kind)), Number(place)];
    put_line(outbox, sink, b"bad", &more)
}

/// Buffers the name and the kind of a range that no index has.
pub(crate) fn put_no_range<W: Sink>(
    outbox: &mut Outbox,
    sink: &mut W,
    name: &Text,
    kind: Kind,
) -> Result<(), Failed>
    ensures { Puts W.written W.faults result outbox.old outbox.new sink.old sink.new
        (text_of (reply.NoRange name.now kind)) }
{
    let more = [text_word(name), Word(kind_text(kind))];
    put_line(outbox, sink, b"norange", &more)
}

/// Buffers a URI that a commit names twice.
pub(crate) fn put_twice<W: Sink>(
    outbox: &mut Outbox,
    sink: &mut W,
    uri: &Text,
) -> Result<(), Failed>
    ensures { Puts W.written W.faults result outbox.old outbox.new sink.old sink.new (text_of (reply.Twice uri.now)) }
{
    put_line(outbox, sink, b"twice", &[text_word(uri)])
}

/// Buffers a URI whose live version isn't the expected one.
pub(crate) fn put_conflict<W: Sink>(
    outbox: &mut Outbox,
    sink: &mut W,
    uri: &Text,
    found: u64,
    front: u64,
) -> Result<(), Failed>
    ensures { Puts W.written W.faults result outbox.old outbox.new sink.old sink.new
        (text_of (reply.Conflict uri.now found front)) }
{
    let more = [text_word(uri), Number(found), Number(front)];
    put_line(outbox, sink, b"conflict", &more)
}

/// Buffers the file that is damaged, and where.
pub(crate) fn put_damaged<W: Sink>(
    outbox: &mut Outbox,
    sink: &mut W,
    file: FileName,
    place: u64,
) -> Result<(), Failed>
    ensures { Puts W.written W.faults result outbox.old outbox.new sink.old sink.new
        (text_of (reply.Damaged file place)) }
{
    put_line(outbox, sink, b"damaged", &[File(file), Number(place)])
}

/// Buffers a line of a keyword and two numbers.
pub(crate) fn put_pair<W: Sink>(
    outbox: &mut Outbox,
    sink: &mut W,
    keyword: &[u8],
    first: u64,
    second: u64,
) -> Result<(), Failed>
    ensures { Puts W.written W.faults result outbox.old outbox.new sink.old sink.new
        (line_of keyword.now (decimal first ∷ decimal second ∷ [])) }
{
    put_line(outbox, sink, keyword, &[Number(first), Number(second)])
}

fn text_word(text: &Text) -> ReplyToken<'_>
    ensures { token_text result ≡ text.now }
{
    Word(text.as_str().as_bytes())
}

fn kind_text(kind: Kind) -> &'static [u8]
    ensures { result.now ≡ kind_text kind }
{
    match kind {
        Kind::Decimal => b"decimal",
        Kind::Text => b"string",
    }
}

fn bad_text(kind: BadKind) -> &'static [u8]
    ensures { result.now ≡ bad_text kind }
{
    match kind {
        BadKind::Utf8 => b"utf8",
        BadKind::Syntax => b"syntax",
        BadKind::Uri => b"uri",
        BadKind::Json => b"json",
        BadKind::Depth => b"depth",
        BadKind::Number => b"number",
        BadKind::Query => b"query",
        BadKind::Ops => b"ops",
    }
}
