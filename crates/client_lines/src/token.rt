ghost use Rattle.std.specs.Prelude.{◌++◌, length, ◌<◌, OnOk};
ghost use Rattle.client_lines.specs.Tokens.{token_text};
ghost use Rattle.client_lines.specs.Sending.{Puts};
ghost use Rattle.std.specs.Fmt.{decimal};
ghost use Rattle.transcript.specs.Texts.{file_text};

use crate::outbox::Outbox;
use disk_model::{Failed, FileName, Sink};
use itoa::Buffer;

/// A token of a reply line.
#[derive(Clone, Copy)]
pub(crate) enum ReplyToken<'a> {
    Word(&'a [u8]),
    Number(u64),
    File(FileName),
}

/// Buffers a token.
pub(crate) fn put_token<W: Sink>(
    outbox: &mut Outbox,
    sink: &mut W,
    token: &ReplyToken<'_>,
) -> Result<(), Failed>
    ensures { Puts W.written W.faults result outbox.old outbox.new sink.old sink.new (token_text token.now) }
{
    match token {
        ReplyToken::Word(word) => outbox.add(sink, word),
        ReplyToken::Number(number) => put_number(outbox, sink, *number),
        ReplyToken::File(file) => put_file(outbox, sink, *file),
    }
}

fn put_number<W: Sink>(outbox: &mut Outbox, sink: &mut W, number: u64) -> Result<(), Failed>
    ensures { Puts W.written W.faults result outbox.old outbox.new sink.old sink.new (decimal number) }
{
    let mut buffer = Buffer::new();
    outbox.add(sink, buffer.format(number).as_bytes())
}

fn put_file<W: Sink>(outbox: &mut Outbox, sink: &mut W, file: FileName) -> Result<(), Failed>
    ensures { Puts W.written W.faults result outbox.old outbox.new sink.old sink.new (file_text file) }
{
    match file {
        FileName::Log(number) if number < 2 => put_numbered(
            outbox,
            sink,
            b"journal-",
            u64::from(number),
        ),
        FileName::Log(number) => put_numbered(outbox, sink, b"root-", u64::from(number - 2)),
        FileName::Sealed(number) => put_numbered(outbox, sink, b"file-", number),
    }
}

fn put_numbered<W: Sink>(
    outbox: &mut Outbox,
    sink: &mut W,
    name: &[u8],
    number: u64,
) -> Result<(), Failed>
    ensures { Puts W.written W.faults result outbox.old outbox.new sink.old sink.new (name.now ++ decimal number) }
{
    outbox.add(sink, name)?;
    put_number(outbox, sink, number)
}
