//! The text of each reply that no session gives yet.

ghost use Rattle.std.specs.Prelude.{None};

use client_lines::{Outbox, write_reply};
use disk_model::{Failed, FileName, Sink};
use doc_model::{Text, Texts};
use std::alloc::Global;
use std::test::Fail;
use transcript::Reply;

/// Keeps what is written. Want of memory is a fault.
#[derive(Drop)]
struct Kept {
    bytes: Vec<u8>,
    writes: u64,
    faults: u64,
}

impl Sink for Kept {
    ghost written = { λ _. None };

    ghost faults = { λ s. s.faults };

    fn write(&mut self, bytes: &[u8]) -> Result<(), Failed> {
        self.writes = self.writes.saturating_add(1);
        if self.bytes.extend_from_slice(bytes).is_ok() {
            return Ok(());
        }
        self.faults = self.faults.saturating_add(1);
        Err(Failed)
    }

    fn faults(&self) -> u64 {
        self.faults
    }
}

fn empty_sink(alloc: Global) -> Kept {
    Kept {
        bytes: Vec::new(alloc),
        writes: 0,
        faults: 0,
    }
}

// What goes out of replies.
fn sent(alloc: Global, replies: &[Reply]) -> Result<Kept, Fail> {
    let mut outbox = Outbox::new(alloc)?;
    let mut sink = empty_sink(alloc);
    for reply in replies {
        write_reply(&mut outbox, &mut sink, reply)
            .ok()
            .ok_or("failed")?;
    }
    outbox.send(&mut sink).ok().ok_or("failed")?;
    Ok(sink)
}

// What is written of replies. It goes out in one write.
fn written(alloc: Global, replies: &[Reply]) -> Result<Vec<u8>, Fail> {
    let sink = sent(alloc, replies)?;
    if sink.writes != 1 {
        return Err("more writes than one".into());
    }
    Ok(sink.bytes)
}

// A document of the past.
fn doc(alloc: Global) -> Result<Reply, Fail> {
    Ok(Reply::Doc {
        created: 3,
        at: 5,
        front: 7,
        collections: Text::from_str(alloc, "[\"news\"]")?,
        root: Text::from_str(alloc, "{\"t\":\"fox\"}")?,
    })
}

fn found(alloc: Global) -> Result<Reply, Fail> {
    let mut uris = Texts::new(alloc);
    for uri in ["/a.json", "/b.json"] {
        uris.push(Text::from_str(alloc, uri)?)?;
    }
    Ok(Reply::Found {
        at: 5,
        front: 7,
        uris,
    })
}

#[test]
fn what_is_found_in_the_past_has_its_text(rt: HostRuntime) -> Result<(), Fail> {
    let alloc = rt.alloc();
    let none = Reply::NoDoc { at: 5, front: 7 };
    let estimate = Reply::Estimate {
        count: 2,
        at: 5,
        front: 7,
    };
    let replies = [doc(alloc)?, none, found(alloc)?, estimate];
    let want = "doc 3 at 5 of 7
[\"news\"]
{\"t\":\"fox\"}
end
none at 5 of 7
found 2 at 5 of 7
/a.json
/b.json
end
estimate 2 at 5 of 7
";
    assert_eq!(rt; written(alloc, &replies)?.as_slice(), want.as_bytes());
    Ok(())
}

#[test]
fn refused_times_and_uris_have_their_texts(rt: HostRuntime) -> Result<(), Fail> {
    let alloc = rt.alloc();
    let twice = Text::from_str(alloc, "/a.json")?;
    let uri = Text::from_str(alloc, "/a.json")?;
    let replies = [
        Reply::New { asked: 9, front: 7 },
        Reply::Back { t: 1, merge: 4 },
        Reply::Ahead { t: 9, front: 7 },
        Reply::Twice { uri: twice },
        Reply::Conflict {
            uri,
            found: 6,
            front: 7,
        },
    ];
    let want = "new 9 7
back 1 4
ahead 9 7
twice /a.json
conflict /a.json 6 7
";
    assert_eq!(rt; written(alloc, &replies)?.as_slice(), want.as_bytes());
    Ok(())
}

#[test]
fn wishes_and_faults_have_their_texts(rt: HostRuntime) -> Result<(), Fail> {
    let damaged = |file: FileName| Reply::Damaged { file, place: 20 };
    let replies = [
        Reply::Wished,
        Reply::NoPin,
        damaged(FileName::Log(1)),
        damaged(FileName::Log(3)),
        damaged(FileName::Sealed(12)),
        Reply::Memory,
    ];
    let want = "ok wish
nopin
damaged journal-1 20
damaged root-1 20
damaged file-12 20
memory
";
    assert_eq!(rt; written(rt.alloc(), &replies)?.as_slice(), want.as_bytes());
    Ok(())
}

// A reply of 140,000 bytes and its name.
fn long_reply(alloc: Global) -> Result<Reply, Fail> {
    let mut long = String::new(alloc);
    for _ in 0..20_000 {
        long.push_str("/a.json")?;
    }
    Ok(Reply::Twice {
        uri: Text::from_string(long),
    })
}

#[test]
fn a_reply_longer_than_the_buffer_comes_whole(rt: HostRuntime) -> Result<(), Fail> {
    let replies = [long_reply(rt.alloc())?];
    let sink = sent(rt.alloc(), &replies)?;
    assert_eq!(rt; (sink.bytes.len(), sink.writes), (140_007, 3));
    assert!(rt; sink.bytes.ends_with(b"/a.json/a.json\n"));
    Ok(())
}
