ghost use Rattle.std.specs.Prelude.{◌≡◌, ◌==◌, not};
ghost use Rattle.std.specs.List.{list_all};
ghost use Rattle.doc_meaning.specs.Meaning.{in_directory, is_inside};

/// Whether a URI is in a directory: behind the directory's URI there is more, and no slash in it unless any
/// depth will do.
pub fn in_directory(infinite: bool, uri: &str, directory: &str) -> bool
    ensures { result ≡ in_directory infinite uri.now directory.now }
{
    let uri = uri.as_bytes();
    let directory = directory.as_bytes();
    uri.starts_with(directory) && is_inside(infinite, &uri[directory.len()..])
}

fn is_inside(infinite: bool, rest: &[u8]) -> bool
    ensures { result ≡ is_inside infinite rest.now }
{
    match rest {
        [] => false,
        _ => infinite || has_no_slash(rest),
    }
}

fn has_no_slash(rest: &[u8]) -> bool
    ensures { result ≡ list_all (λ b. not (b == 0x2F)) rest.now }
{
    rest.iter().all(|b| *b != b'/')
}
