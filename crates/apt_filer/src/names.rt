// The grammar of the names by which files are created.
ghost use Rattle.std.specs.Prelude.{◌≡◌, ◌==◌};
ghost use Rattle.std.specs.List.{list_all, slice_split};
ghost use Rattle.apt_filer.specs.Names.{is_info_name, is_type_name, is_package_name, is_plain, is_segment, is_relative_name, is_well_named};

use apt_base::is_dotted;
use wire_frames::Creation;

/// How many bytes a name has at most.
const MAX_NAME: usize = 1024;

/// How a creation names the file of a package, behind the package's name.
const INFO: &str = ".package-info";

/// The greatest number of a location: the output of native headers.
const LAST_LOCATION: u8 = 2;

fn is_info_name(text: &str) -> bool
    ensures { result ≡ is_info_name text.now }
{
    match text.strip_suffix(INFO) {
        None => false,
        Some(package) => is_dotted(package),
    }
}

/// Whether a source may have this name: identifiers joined by dots, none of them reserved (JLS 3.8,
/// 6.7), or the name of a package, not the empty one, and `.package-info` (JLS 7.4.1). It has at most
/// 1,024 bytes. It takes no memory.
#[tactic(auto, unfolding(crate::specs::Names::is_type_name))]
pub fn is_type_name(text: &str) -> bool
    ensures { result ≡ is_type_name text.now }
{
    text.len() <= MAX_NAME && (is_dotted(text) || is_info_name(text))
}

/// Whether a resource may have a package of this name: empty for the unnamed package, or identifiers
/// joined by dots, none of them reserved (JLS 7.4). It has at most 1,024 bytes. It takes no memory.
#[tactic(auto, unfolding(crate::specs::Names::is_package_name))]
pub fn is_package_name(text: &str) -> bool
    ensures { result ≡ is_package_name text.now }
{
    text.len() <= MAX_NAME && (text == "" || is_dotted(text))
}

fn is_plain(byte: u8) -> bool
    ensures { result ≡ is_plain byte }
{
    byte >= b' ' && byte != 0x7f && byte != b'\\'
}

fn has_plain_bytes_only(text: &[u8]) -> bool
    ensures { result ≡ list_all is_plain text.now }
{
    text.iter().all(|byte| is_plain(*byte))
}

fn is_segment(text: &[u8]) -> bool
    ensures { result ≡ is_segment text.now }
{
    text != b"".as_slice()
        && text != b".".as_slice()
        && text != b"..".as_slice()
        && has_plain_bytes_only(text)
}

fn has_segments_only(text: &[u8]) -> bool
    ensures { result ≡ list_all is_segment (slice_split (λ byte. byte == 47) text.now) }
{
    text.split(|byte| *byte == b'/').all(is_segment)
}

/// Whether a resource may have this name below its package: one or more segments joined by `/`, each
/// not empty, not `.` and not `..`, with no `\` and no control character below U+0020 or U+007F. It
/// has at most 1,024 bytes. It takes no memory.
#[tactic(auto, unfolding(crate::specs::Names::is_relative_name))]
pub fn is_relative_name(text: &str) -> bool
    ensures { result ≡ is_relative_name text.now }
{
    text.len() <= MAX_NAME && has_segments_only(text.as_bytes())
}

/// Whether the names of a creation are of the grammar, and its location is one of the three.
#[tactic(auto, unfolding(crate::specs::Names::is_well_named))]
pub(crate) fn is_well_named(creation: &Creation) -> bool
    ensures { result ≡ is_well_named creation.now }
{
    match creation {
        Creation::Source { name, .. } | Creation::Class { name, .. } => is_type_name(name.as_str()),
        Creation::Resource {
            location,
            package,
            relative,
            ..
        } => {
            *location <= LAST_LOCATION
                && is_package_name(package.as_str())
                && is_relative_name(relative.as_str())
        }
    }
}
