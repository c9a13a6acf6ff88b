ghost use Rattle.std.specs.Prelude.{◌≡◌, ◌==◌, not};
ghost use Rattle.std.specs.List.{list_all, list_any};
ghost use Rattle.doc_meaning.specs.Meaning.{in_directory, is_inside};

use doc_model::Text;

/// Whether a URI is in one of the directories.
pub fn is_in_some_directory(infinite: bool, uri: &str, directories: &[Text]) -> bool
    ensures { result ≡ list_any (in_directory infinite uri.now) directories.now }
{
    directories.iter().any(|directory| in_directory(infinite, uri, directory.as_str()))
}

/// Whether behind the directory's URI there is more, and no slash in it unless any depth will do.
fn in_directory(infinite: bool, uri: &str, directory: &str) -> bool
    ensures { result ≡ in_directory infinite uri.now directory.now }
{
    let uri = uri.as_bytes();
    let directory = directory.as_bytes();
    uri.starts_with(directory) && is_inside(infinite, &uri[directory.len()..])
}

fn is_inside(infinite: bool, rest: &[u8]) -> bool
    ensures { result ≡ is_inside infinite rest.now }
{
    match rest {
        [] => false,
        _ => infinite || has_no_slash(rest),
    }
}

fn has_no_slash(rest: &[u8]) -> bool
    ensures { result ≡ list_all (λ b. not (b == 0x2F)) rest.now }
{
    rest.iter().all(|b| *b != b'/')
}
