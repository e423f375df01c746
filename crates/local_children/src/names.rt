// The processors by their names.
ghost use Rattle.std.specs.Prelude.{◌≡◌, map, string_bytes};
ghost use Rattle.local_children.specs.Streams.{local_named, local_in};

use local_procs::Local;

/// The processor of a name: `builder`, `checker`, `chain` or `registry`. It takes no memory.
pub fn local_named(name: &str) -> Option<Local>
    ensures { result ≡ local_named name.now }
{
    if name == "builder" {
        return Some(Local::Builder);
    }
    if name == "checker" {
        return Some(Local::Checker);
    }
    if name == "chain" {
        return Some(Local::Chain);
    }
    if name == "registry" {
        return Some(Local::Registry);
    }
    None
}

/// The processor of a command, whose last two words are `serve` and its name. It takes no memory.
pub fn local_in(command: &[String]) -> Option<Local>
    ensures { result ≡ local_in (map string_bytes command.now) }
{
    match &command[command.len().saturating_sub(2)..] {
        [word, name] => {
            if word.as_str() == "serve" {
                local_named(name.as_str())
            } else {
                None
            }
        }
        _ => None,
    }
}
