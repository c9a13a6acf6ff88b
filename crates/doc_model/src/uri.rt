ghost use Rattle.std.specs.Prelude.{◌≡◌};
ghost use Rattle.doc_model.specs.Uri.{is_name, is_uri, is_uri_byte, is_rising, is_collections};
ghost use Rattle.std.specs.List.{list_all};

use crate::Text;
use crate::limits::{MAX_COLLECTIONS, MAX_NAME_BYTES};

fn is_name(text: &str) -> bool
    ensures { result ≡ is_name text.now }
{
    1 <= text.len() && text.len() <= MAX_NAME_BYTES
}

fn is_uri_byte(byte: u8) -> bool
    ensures { result ≡ is_uri_byte byte }
{
    0x21 <= byte && byte != 0x7F
}

fn are_uri_bytes(bytes: &[u8]) -> bool
    ensures { result ≡ list_all is_uri_byte bytes.now }
{
    bytes.iter().all(|byte| is_uri_byte(*byte))
}

/// Whether a text may be the URI of a document: 1 to 1,024 bytes, none below 0x21 and none 0x7F.
pub fn is_uri(text: &str) -> bool
    ensures { result ≡ is_uri text.now }
{
    is_name(text) && are_uri_bytes(text.as_bytes())
}

fn is_rising(names: &[Text]) -> bool
    ensures { result ≡ is_rising names.now }
{
    match names {
        [name, next, ..] => name < next && is_rising(&names[1..]),
        _ => true,
    }
}

fn are_names(names: &[Text]) -> bool
    ensures { result ≡ list_all is_name names.now }
{
    names.iter().all(|name| is_name(name.as_str()))
}

/// Whether names may be the collections of a document.
pub fn is_collections(names: &[Text]) -> bool
    ensures { result ≡ is_collections names.now }
{
    names.len() <= MAX_COLLECTIONS && are_names(names) && is_rising(names)
}
