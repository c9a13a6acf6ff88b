ghost use Rattle.std.specs.Prelude.{◌≡◌};

use crate::History;
use doc_meaning::ForgetReply;

impl History {
    ghost use Rattle.doc_meaning.specs.Replies.{forget_reply};
    ghost use Rattle.plain_history.specs.Histories.{history_of};

    /// The reply to a forget. `full` says that no log has room for one more entry.
    pub fn forget_reply(&self, t: u64, full: bool) -> ForgetReply
        ensures { result ≡ forget_reply full (history_of self.now) t }
    {
        let front = self.front();
        let merge = self.merge();
        if t < merge {
            ForgetReply::Back { t, merge }
        } else if front < t {
            ForgetReply::Ahead { t, front }
        } else if self.is_spent(full) {
            ForgetReply::Spent { front }
        } else {
            ForgetReply::Entered { at: front + 1 }
        }
    }
}
