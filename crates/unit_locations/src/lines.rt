// The lines of elements.
ghost use Rattle.std.specs.Prelude.{◌≡◌};
ghost use Rattle.decl_elements.specs.Nodes.{root};
ghost use Rattle.decl_elements.specs.Shown.{node_of};
ghost use Rattle.decl_grammar.specs.declared.written.Lines.{out-Lines};
ghost use Rattle.unit_locations.specs.Lines.{lines_at, line_down};
ghost use Rattle.unit_locations.specs.LinesShown.{lines_of};

use decl_elements::Place;
use decl_grammar::Lines;
use decl_tree::Unit;

/// Lines on the way down: those of what is written, or the line of what the language adds, which has its type's.
#[derive(Clone, Copy)]
pub enum LinesAt<'a> {
    Written(&'a Lines),
    Added(u32),
}

// The line of what stands here.
fn line_here(lines: LinesAt<'_>) -> u32
    ensures { result ≡ (out-Lines (lines_of lines.entry)).line }
{
    match lines {
        LinesAt::Written(lines) => lines.line,
        LinesAt::Added(line) => line,
    }
}

// The lines of the child with this number.
fn lines_below<'a>(lines: LinesAt<'a>, at: u16) -> LinesAt<'a>
    ensures { lines_of result ≡ lines_at (lines_of lines.entry) at }
{
    match lines {
        LinesAt::Written(lines) => match lines.children.get(usize::from(at)) {
            Some(child) => LinesAt::Written(child),
            None => LinesAt::Added(lines.line),
        },
        LinesAt::Added(line) => LinesAt::Added(line),
    }
}

// The line of what stands at the end of a path below a place.
fn line_below(from: Place<'_>, lines: &Lines, path: &[u16]) -> Option<u32>
    ensures { result ≡ line_down path.now (node_of from.entry) lines.now }
{
    let mut place = from;
    let mut here = LinesAt::Written(lines);
    for at in path {
        let Some(child) = place.child(*at) else {
            return None;
        };
        here = lines_below(here, *at);
        place = child;
    }
    Some(line_here(here))
}

/// The line of what stands at a path of a unit with these lines: that of an element's name, of what the language adds to a type that of the
/// type's name, and of a package that of its `package`. `None` exactly where the path leads to no element. It takes no memory.
pub fn line_at(unit: &Unit, lines: &Lines, path: &[u16]) -> Option<u32>
    ensures { result ≡ line_down path.now (root unit.now) lines.now }
{
    line_below(Place::root(unit), lines, path)
}
