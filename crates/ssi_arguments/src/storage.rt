//! Where `serve` keeps what it does, by its arguments.

ghost use Rattle.std.specs.Prelude.{◌≡◌, ◌==◌, drop, map, string_bytes};
ghost use Rattle.std.specs.List.{before_first};
ghost use Rattle.ssi_arguments.specs.Clauses.Storage.{has_option, storage_in};

/// Where `serve` keeps what it does.
#[derive(Clone, Copy, Debug, PartialEq, Eq)]
pub enum Storage {
    /// In memory, until it writes a history and a certificate to files.
    Files,
    /// In a folder, from one run to the next.
    Folder,
}

/// Returns the folder if the arguments are those of `serve` and one of its options is `--data`; the first string is the
/// program's name. `serve` has a form for each, with other arguments. A single form would need conflicts between arguments,
/// and then the parser's contracts don't say which arguments it refuses.
pub fn storage_of(arguments: &[String]) -> Storage
    ensures { result ≡ storage_in (drop 1 (map string_bytes arguments.now)) }
{
    match arguments {
        [_, command, given @ ..] if command.as_str() == "serve" && has_option(given, "--data") => {
            Storage::Folder
        }
        _ => Storage::Files,
    }
}

fn has_option(arguments: &[String], option: &str) -> bool
    ensures { result ≡ has_option option.now (map string_bytes arguments.now) }
{
    for argument in arguments {
        if argument.as_str() == "--" {
            return false;
        }
        if name_of(argument.as_str()) == option {
            return true;
        }
    }
    false
}

/// The option without the value that it may have after `=`.
fn name_of(argument: &str) -> &str
    ensures { result.now ≡ before_first (λ b. b == 61) argument.now }
{
    match argument.split_once('=') {
        Some((name, _)) => name,
        None => argument,
    }
}
