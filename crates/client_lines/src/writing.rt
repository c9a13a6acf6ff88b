ghost use Rattle.std.specs.Prelude.{◌≡◌, ◌∷◌};
ghost use Rattle.std.specs.Fmt.{decimal};
ghost use Rattle.client_lines.specs.Tokens.{spaced_parts};
ghost use Rattle.client_lines.specs.Sending.{Puts};
ghost use Rattle.transcript.specs.Texts.{text_of, spaced, at_of};
ghost use Rattle.transcript.specs.declared.reply.Reply.TheVariants as reply;

use crate::found::{put_doc, put_found};
use crate::outbox::Outbox;
use crate::refusing::{put_bad, put_conflict, put_damaged, put_no_range, put_pair, put_twice};
use crate::token::ReplyToken::{self, Number, Word};
use crate::words::{put_ended, put_line};
use disk_model::{Failed, Sink};
use transcript::{LONGEST_LINE, Reply};

/// The greatest depth of a query.
const MAX_DEPTH: u64 = doc_model::MAX_QUERY_DEPTH as u64;

/// The greatest number of queries and texts of a query.
const MAX_NODES: u64 = doc_model::MAX_QUERY_ITEMS as u64;

/// Buffers the text of a reply, and sends whenever the buffer is full. It takes no memory.
pub fn write_reply<W: Sink>(outbox: &mut Outbox, sink: &mut W, reply: &Reply) -> Result<(), Failed>
    ensures { Puts W.written W.faults result outbox.old outbox.new sink.old sink.new (text_of reply.now) }
{
    match reply {
        Reply::Ok(at) => put_line(outbox, sink, b"ok", &[Number(*at)]),
        Reply::Wished => put_line(outbox, sink, b"ok", &[Word(b"wish")]),
        Reply::Doc {
            created,
            at,
            front,
            collections,
            root,
        } => {
            put_doc(
                outbox,
                sink,
                &counted(*created, *at, *front),
                collections,
                root,
            )
        }
        Reply::NoDoc { at, front } => put_line(outbox, sink, b"none", &times(*at, *front)),
        Reply::Found { at, front, uris } => {
            put_found(
                outbox,
                sink,
                &counted(uris.len() as u64, *at, *front),
                uris.as_slice(),
            )
        }
        Reply::Estimate { count, at, front } => {
            put_line(outbox, sink, b"estimate", &counted(*count, *at, *front))
        }
        Reply::Stamp { front, merge } => put_stamp(outbox, sink, *front, *merge),
        Reply::Bye => put_ended(outbox, sink, b"bye"),
        Reply::Long => put_line(
            outbox,
            sink,
            b"bad",
            &[Word(b"long"), Number(LONGEST_LINE as u64)],
        ),
        Reply::Bad { kind, place } => put_bad(outbox, sink, *kind, *place),
        Reply::NoPin => put_ended(outbox, sink, b"nopin"),
        Reply::Deep => put_line(outbox, sink, b"bad", &[Word(b"deep"), Number(MAX_DEPTH)]),
        Reply::Many => put_line(outbox, sink, b"bad", &[Word(b"many"), Number(MAX_NODES)]),
        Reply::Directory => put_line(outbox, sink, b"bad", &[Word(b"directory")]),
        Reply::Near => put_line(outbox, sink, b"bad", &[Word(b"near")]),
        Reply::NoRange { name, kind } => put_no_range(outbox, sink, name, *kind),
        Reply::Old { asked, merge } => put_pair(outbox, sink, b"old", *asked, *merge),
        Reply::New { asked, front } => put_pair(outbox, sink, b"new", *asked, *front),
        Reply::Back { t, merge } => put_pair(outbox, sink, b"back", *t, *merge),
        Reply::Ahead { t, front } => put_pair(outbox, sink, b"ahead", *t, *front),
        Reply::Twice { uri } => put_twice(outbox, sink, uri),
        Reply::Conflict { uri, found, front } => put_conflict(outbox, sink, uri, *found, *front),
        Reply::Spent { front } => put_line(outbox, sink, b"spent", &[Number(*front)]),
        Reply::Down => put_ended(outbox, sink, b"down"),
        Reply::Fault => put_ended(outbox, sink, b"fault"),
        Reply::Damaged { file, place } => put_damaged(outbox, sink, *file, *place),
        Reply::Memory => put_ended(outbox, sink, b"memory"),
        Reply::Later => put_ended(outbox, sink, b"later"),
    }
}

// The front and the merge timestamp.
fn put_stamp<W: Sink>(
    outbox: &mut Outbox,
    sink: &mut W,
    front: u64,
    merge: u64,
) -> Result<(), Failed>
    ensures { Puts W.written W.faults result outbox.old outbox.new sink.old sink.new
        (text_of (reply.Stamp front merge)) }
{
    let more = [Number(front), Word(b"merge"), Number(merge)];
    put_line(outbox, sink, b"stamp", &more)
}

// The timestamp that was read, and the front.
fn times(at: u64, front: u64) -> [ReplyToken<'static>; 4]
    ensures { spaced_parts result ≡ spaced (at_of at front) }
{
    [Word(b"at"), Number(at), Word(b"of"), Number(front)]
}

// A count or a timestamp before them.
fn counted(count: u64, at: u64, front: u64) -> [ReplyToken<'static>; 5]
    ensures { spaced_parts result ≡ spaced (decimal count ∷ at_of at front) }
{
    [
        Number(count),
        Word(b"at"),
        Number(at),
        Word(b"of"),
        Number(front),
    ]
}
