ghost use Rattle.std.specs.Prelude.{◌≡◌, ◌+◌, ◌≤◌, length, drop};
ghost use Rattle.std.specs.List.{list_all, prefix_len};
ghost use Rattle.json_text.specs.Strings.{is_plain};

use crate::scan::plain_len;

/// How many bytes are tested at once: a test with no way out in between becomes vector code.
const GROUP: usize = 8;

fn all_plain(bytes: &[u8]) -> bool
    ensures { result ≡ list_all is_plain bytes.now }
{
    let mut all = true;
    for byte in bytes {
        all &= 0x20 <= *byte && *byte != b'"' && *byte != b'\\';
    }
    all
}

/// How many bytes stand in groups from the front on that need no escape.
fn plain_groups(bytes: &[u8]) -> usize
    ensures within { result ≤ length bytes.now }
    ensures plain { prefix_len is_plain bytes.now ≡ result + prefix_len is_plain (drop result bytes.now) }
{
    let mut n = 0;
    while GROUP <= bytes.len() - n && all_plain(&bytes[n..n + GROUP]) {
        n += GROUP;
    }
    n
}

/// How many bytes from the front on need no escape. A long run is passed over in groups.
pub(crate) fn run_len(bytes: &[u8]) -> usize
    ensures { result ≡ prefix_len is_plain bytes.now }
{
    let n = plain_groups(bytes);
    n + plain_len(&bytes[n..])
}
