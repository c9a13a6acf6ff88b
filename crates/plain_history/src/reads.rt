ghost use Rattle.std.specs.Prelude.{◌≡◌, IfOk};
ghost use Rattle.std.specs.FinMap as map;

use crate::{Database, History};
use doc_meaning::{ReadReply, Version};
use doc_model::Text;
use std::alloc::{AllocError, Global};

impl History {
    ghost use Rattle.doc_meaning.specs.Replies.{reply_at, get_reply};
    ghost use Rattle.plain_history.specs.Histories.{history_of};

    /// What was found at a timestamp, or why nothing is read there.
    pub fn reply_at<T: Drop>(&self, at: u64, found: T) -> ReadReply<T>
        ensures { result ≡ reply_at (history_of self.now) at found }
    {
        let merge = self.merge();
        let front = self.front();
        if at < merge {
            ReadReply::Old { asked: at, merge }
        } else if front < at {
            ReadReply::New { asked: at, front }
        } else {
            ReadReply::Found(found)
        }
    }

    /// The version of a URI at a timestamp.
    pub fn get_reply(
        &self,
        alloc: Global,
        at: u64,
        uri: &Text,
    ) -> Result<ReadReply<Option<Version>>, AllocError>
        ensures { IfOk result (λ reply. reply ≡ get_reply (history_of self.now) at uri.now) }
    {
        let database = self.database_at(alloc, at)?;
        let found = version_of(alloc, &database, uri)?;
        Ok(self.reply_at(at, found))
    }
}

fn version_of(alloc: Global, database: &Database, uri: &Text) -> Result<Option<Version>, AllocError>
    ensures { IfOk result (λ found. found ≡ map.get database.now uri.now) }
{
    match database.get(uri) {
        Some(version) => Ok(Some(Version {
            document: version.document.copy(alloc)?,
            created: version.created,
        })),
        None => Ok(None),
    }
}
