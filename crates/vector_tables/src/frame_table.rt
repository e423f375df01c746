// The table of frames.
ghost use Rattle.std.specs.Prelude.{◌≡◌, map};
ghost use Rattle.vector_tables.specs.FrameCases.{shown_frame_case};
ghost use Rattle.vector_tables.specs.FrameRows.{frame_rows};

use crate::frame_case::FrameCase;
use crate::verdict::Verdict;
use frame_forms::BadKind;

/// The cases of frames.
pub fn frame_cases() -> &'static [FrameCase<'static>]
    ensures { map shown_frame_case result.now ≡ frame_rows }
{
    &FRAME_CASES
}

// Bytes, and what they are to be.
static FRAME_CASES: [FrameCase<'static>; 102] = [
    // the frames of a build
    FrameCase {
        name: "Init for builder, level 11, no options",
        bytes: b"\x00\x00\x00\x12\x01\x00\x00\x00\x07builder\x00\x0b\x00\x00\x00\x00",
        expected: Verdict::Whole,
    },
    FrameCase {
        name: "Round 1 of builder",
        bytes: b"\x00\x00\x007\x02\x00\x00\x00\x01\x00\x00\x00\x00\x00\x01\x00\x00\x00\x10apt.demo.Builder\x00\x00\x00\x02\x00\x00\x00\x06a.Team\x00\x00\x00\x06a.User",
        expected: Verdict::Whole,
    },
    FrameCase {
        name: "Done without its last byte",
        bytes: b"\x00\x00\x00\x02A",
        expected: Verdict::Begun,
    },
    FrameCase {
        name: "Hello of builder",
        bytes: b"\x00\x00\x00L@\x00\x00\x00\x01\x00\x00\x00\x10apt.demo.Builder\x00\x00\x00\x01\x00\x00\x00*org.gradle.annotation.processing.isolating\x00",
        expected: Verdict::Whole,
    },
    FrameCase {
        name: "Hello of builder without its last byte",
        bytes: b"\x00\x00\x00L@\x00\x00\x00\x01\x00\x00\x00\x10apt.demo.Builder\x00\x00\x00\x01\x00\x00\x00*org.gradle.annotation.processing.isolating",
        expected: Verdict::Begun,
    },
    // each tag: the frames of the host, those of a child, and its questions
    FrameCase {
        name: "Init",
        bytes: b"\x00\x00\x00\x10\x01\x00\x00\x00\x05maker\x00\x0b\x00\x00\x00\x00",
        expected: Verdict::Whole,
    },
    FrameCase {
        name: "Round",
        bytes: b"\x00\x00\x00\x1d\x02\x00\x00\x00\x01\x00\x00\x00\x00\x00\x01\x00\x00\x00\x03q.A\x00\x00\x00\x01\x00\x00\x00\x03p.C",
        expected: Verdict::Whole,
    },
    FrameCase {
        name: "Elements",
        bytes: b"\x00\x00\x00\x1d\x10\x00\x00\x00\x02\x00\x00\x00\x03p.C\x00\x00\x00\x00\x00\x00\x00\x03p.C\x00\x00\x00\x01\x00\x01",
        expected: Verdict::Whole,
    },
    FrameCase {
        name: "Info",
        bytes: b"\x00\x00\x00\x11\x11\x02\x00A\x00\x00\x00\x01C\x00\x00\x00\x03p.C\x00",
        expected: Verdict::Whole,
    },
    FrameCase {
        name: "Texts",
        bytes: b"\x00\x00\x00\x11\x12\x00\x00\x00\x01\x00\x00\x00\x08A class.",
        expected: Verdict::Whole,
    },
    FrameCase {
        name: "Annotations",
        bytes: b"\x00\x00\x00!\x13\x00\x00\x00\x01\x01\x00\x00\x00\x03q.A\x00\x00\x00\x00\x00\x00\x00\x00\x00\x00\x00\x00\x01\x00\x00\x00\x01n\x00\x01",
        expected: Verdict::Whole,
    },
    FrameCase {
        name: "Values",
        bytes: b"\x00\x00\x00\x18\x14\x00\x00\x00\x01\x00\x00\x00\x05value\x01\x03\x00\x00\x00\x00\x00\x00\x00\x02",
        expected: Verdict::Whole,
    },
    FrameCase {
        name: "Mirrors",
        bytes: b"\x00\x00\x00\x0b\x15\x00\x00\x00\x01\x05\x01\x01\x04\x00\x03",
        expected: Verdict::Whole,
    },
    FrameCase {
        name: "Truth",
        bytes: b"\x00\x00\x00\x02\x16\x01",
        expected: Verdict::Whole,
    },
    FrameCase {
        name: "Created",
        bytes: b"\x00\x00\x00\x02\x17\x00",
        expected: Verdict::Whole,
    },
    FrameCase {
        name: "Noted",
        bytes: b"\x00\x00\x00\x01\x18",
        expected: Verdict::Whole,
    },
    FrameCase {
        name: "Refused",
        bytes: b"\x00\x00\x00\x02\x19\x00",
        expected: Verdict::Whole,
    },
    FrameCase {
        name: "Hello",
        bytes: b"\x00\x00\x00\x11@\x00\x00\x00\x01\x00\x00\x00\x03q.A\x00\x00\x00\x00\x00",
        expected: Verdict::Whole,
    },
    FrameCase {
        name: "Done",
        bytes: b"\x00\x00\x00\x02A\x01",
        expected: Verdict::Whole,
    },
    FrameCase {
        name: "CreateSource",
        bytes: b"\x00\x00\x00\x12B\x00\x00\x00\x03p.G\x00\x00\x00\x02hi\x00\x00\x00\x00",
        expected: Verdict::Whole,
    },
    FrameCase {
        name: "CreateResource",
        bytes: b"\x00\x00\x00\x16C\x01\x00\x00\x00\x01p\x00\x00\x00\x01x\x00\x00\x00\x02hi\x00\x00\x00\x00",
        expected: Verdict::Whole,
    },
    FrameCase {
        name: "CreateClass",
        bytes: b"\x00\x00\x00\x14D\x00\x00\x00\x03p.G\x00\x00\x00\x04\xca\xfe\xba\xbe\x00\x00\x00\x00",
        expected: Verdict::Whole,
    },
    FrameCase {
        name: "Message",
        bytes: b"\x00\x00\x00\x0bE\x03\x00\x00\x00\x00\x04note",
        expected: Verdict::Whole,
    },
    FrameCase {
        name: "TypeElement",
        bytes: b"\x00\x00\x00\x08P\x00\x00\x00\x03x.Y",
        expected: Verdict::Whole,
    },
    FrameCase {
        name: "PackageElement",
        bytes: b"\x00\x00\x00\x06Q\x00\x00\x00\x01p",
        expected: Verdict::Whole,
    },
    FrameCase {
        name: "Info, the question",
        bytes: b"\x00\x00\x00\x0eR\x00\x00\x00\x03p.C\x00\x00\x00\x01\x00\x01",
        expected: Verdict::Whole,
    },
    FrameCase {
        name: "Enclosing",
        bytes: b"\x00\x00\x00\x0eS\x00\x00\x00\x03p.C\x00\x00\x00\x01\x00\x01",
        expected: Verdict::Whole,
    },
    FrameCase {
        name: "Enclosed",
        bytes: b"\x00\x00\x00\x0cT\x00\x00\x00\x03p.C\x00\x00\x00\x00",
        expected: Verdict::Whole,
    },
    FrameCase {
        name: "TypeParameters",
        bytes: b"\x00\x00\x00\x0cU\x00\x00\x00\x03p.C\x00\x00\x00\x00",
        expected: Verdict::Whole,
    },
    FrameCase {
        name: "Parameters",
        bytes: b"\x00\x00\x00\x0eV\x00\x00\x00\x03p.C\x00\x00\x00\x01\x00\x01",
        expected: Verdict::Whole,
    },
    FrameCase {
        name: "PackageOf",
        bytes: b"\x00\x00\x00\x0eW\x00\x00\x00\x03p.C\x00\x00\x00\x01\x00\x01",
        expected: Verdict::Whole,
    },
    FrameCase {
        name: "DocComment",
        bytes: b"\x00\x00\x00\x10X\x00\x00\x00\x03p.C\x00\x00\x00\x02\x00\x01\x01\x02",
        expected: Verdict::Whole,
    },
    FrameCase {
        name: "Annotations, the question",
        bytes: b"\x00\x00\x00\x0cY\x00\x00\x00\x03p.C\x00\x00\x00\x00",
        expected: Verdict::Whole,
    },
    FrameCase {
        name: "AllAnnotations",
        bytes: b"\x00\x00\x00\x0cZ\x00\x00\x00\x03p.C\x00\x00\x00\x00",
        expected: Verdict::Whole,
    },
    FrameCase {
        name: "ValuesWithDefaults",
        bytes: b"\x00\x00\x00\x0e[\x00\x00\x00\x03p.C\x00\x00\x00\x00\x00\x00",
        expected: Verdict::Whole,
    },
    FrameCase {
        name: "DefaultValue",
        bytes: b"\x00\x00\x00\x0e\\\x00\x00\x00\x03q.A\x00\x00\x00\x01\x00\x00",
        expected: Verdict::Whole,
    },
    FrameCase {
        name: "ConstantValue",
        bytes: b"\x00\x00\x00\x0e]\x00\x00\x00\x03p.C\x00\x00\x00\x01\x00\x02",
        expected: Verdict::Whole,
    },
    FrameCase {
        name: "AllMembers",
        bytes: b"\x00\x00\x00\x0c^\x00\x00\x00\x03p.C\x00\x00\x00\x00",
        expected: Verdict::Whole,
    },
    FrameCase {
        name: "Overrides",
        bytes: b"\x00\x00\x00 _\x00\x00\x00\x01C\x00\x00\x00\x01\x00\x01\x00\x00\x00\x01B\x00\x00\x00\x01\x00\x00\x00\x00\x00\x01C\x00\x00\x00\x00",
        expected: Verdict::Whole,
    },
    FrameCase {
        name: "TypeOf",
        bytes: b"\x00\x00\x00\x0e`\x00\x00\x00\x03p.C\x00\x00\x00\x01\x00\x01",
        expected: Verdict::Whole,
    },
    FrameCase {
        name: "Superclass",
        bytes: b"\x00\x00\x00\x0ca\x00\x00\x00\x03p.C\x00\x00\x00\x00",
        expected: Verdict::Whole,
    },
    FrameCase {
        name: "Interfaces",
        bytes: b"\x00\x00\x00\x0cb\x00\x00\x00\x03p.C\x00\x00\x00\x00",
        expected: Verdict::Whole,
    },
    FrameCase {
        name: "Bounds",
        bytes: b"\x00\x00\x00\x0ec\x00\x00\x00\x03p.C\x00\x00\x00\x01\x00\x00",
        expected: Verdict::Whole,
    },
    FrameCase {
        name: "SameType",
        bytes: b"\x00\x00\x00\x05d\x00\x03\x00\x04",
        expected: Verdict::Whole,
    },
    FrameCase {
        name: "Subtype",
        bytes: b"\x00\x00\x00\x05e\x00\x03\x00\x04",
        expected: Verdict::Whole,
    },
    FrameCase {
        name: "Assignable",
        bytes: b"\x00\x00\x00\x14f\x00\x03\x01\x00\x00\x00\x03p.D\x00\x00\x00\x00\x00\x00\x00\x00\x00",
        expected: Verdict::Whole,
    },
    FrameCase {
        name: "Contains",
        bytes: b"\x00\x00\x00\x15g\x05\x00\x00\x01\x00\x00\x00\x03p.C\x00\x00\x00\x00\x00\x00\x00\x00\x00",
        expected: Verdict::Whole,
    },
    FrameCase {
        name: "Subsignature",
        bytes: b"\x00\x00\x00\x1fh\x06\x00\x00\x00\x00\x00\x00\x00\x01\x00\x03\x08\x00\x00\x00\x00\x06\x00\x00\x00\x00\x00\x00\x00\x00\x08\x00\x00\x00\x00",
        expected: Verdict::Whole,
    },
    FrameCase {
        name: "DirectSupertypes",
        bytes: b"\x00\x00\x00\x12i\x01\x00\x00\x00\x03p.C\x00\x00\x00\x00\x00\x00\x00\x00\x00",
        expected: Verdict::Whole,
    },
    FrameCase {
        name: "Erasure",
        bytes: b"\x00\x00\x00\x05j\x04\x04\x00\x03",
        expected: Verdict::Whole,
    },
    FrameCase {
        name: "Boxed",
        bytes: b"\x00\x00\x00\x03k\x00\x03",
        expected: Verdict::Whole,
    },
    FrameCase {
        name: "Unboxed",
        bytes: b"\x00\x00\x00 l\x01\x00\x00\x00\x11java.lang.Integer\x00\x00\x00\x00\x00\x00\x00\x00\x00",
        expected: Verdict::Whole,
    },
    FrameCase {
        name: "MemberType",
        bytes: b"\x00\x00\x00\x1fm\x01\x00\x00\x00\x03p.C\x00\x00\x00\x00\x00\x00\x00\x00\x00\x00\x00\x00\x03p.C\x00\x00\x00\x01\x00\x01",
        expected: Verdict::Whole,
    },
    FrameCase {
        name: "AsElement",
        bytes: b"\x00\x00\x00\x0fn\x03\x00\x00\x00\x03p.C\x00\x00\x00\x01\x00\x00",
        expected: Verdict::Whole,
    },
    FrameCase {
        name: "PrintType",
        bytes: b"\x00\x00\x00\x04o\x04\x00\x03",
        expected: Verdict::Whole,
    },
    FrameCase {
        name: "DeclaredType",
        bytes: b"\x00\x00\x00\x1ep\x00\x00\x00\x03p.C\x00\x00\x00\x00\x00\x00\x00\x01\x03\x00\x00\x00\x03p.D\x00\x00\x00\x01\x00\x00",
        expected: Verdict::Whole,
    },
    FrameCase {
        name: "ArrayType",
        bytes: b"\x00\x00\x00\x03q\x00\x03",
        expected: Verdict::Whole,
    },
    FrameCase {
        name: "AnnotatedWith",
        bytes: b"\x00\x00\x00\x08r\x00\x00\x00\x03q.A",
        expected: Verdict::Whole,
    },
    FrameCase {
        name: "Roots",
        bytes: b"\x00\x00\x00\x01s",
        expected: Verdict::Whole,
    },
    // options, origins, and a message at an element
    FrameCase {
        name: "Init with an option",
        bytes: b"\x00\x00\x00!\x01\x00\x00\x00\x05maker\x00\x0b\x00\x00\x00\x01\x00\x00\x00\x05debug\x00\x00\x00\x04true",
        expected: Verdict::Whole,
    },
    FrameCase {
        name: "CreateSource with an origin",
        bytes: b"\x00\x00\x00!B\x00\x00\x00\x03p.G\x00\x00\x00\x02hi\x00\x00\x00\x01\x00\x00\x00\x03p.C\x00\x00\x00\x02\x00\x01\x01\x02",
        expected: Verdict::Whole,
    },
    FrameCase {
        name: "Message at an element",
        bytes: b"\x00\x00\x00\x19E\x01\x01\x00\x00\x00\x03p.C\x00\x00\x00\x02\x00\x01\x01\x02\x00\x00\x00\x03odd",
        expected: Verdict::Whole,
    },
    // only the beginning of a frame
    FrameCase {
        name: "no bytes",
        bytes: b"",
        expected: Verdict::Begun,
    },
    FrameCase {
        name: "a length without its last byte",
        bytes: b"\x00\x00\x00",
        expected: Verdict::Begun,
    },
    FrameCase {
        name: "a length",
        bytes: b"\x00\x00\x00\x01",
        expected: Verdict::Begun,
    },
    FrameCase {
        name: "the greatest length",
        bytes: b"\x07\xff\xff\xfcP",
        expected: Verdict::Begun,
    },
    FrameCase {
        name: "a text without its last byte",
        bytes: b"\x00\x00\x00\x08P\x00\x00\x00\x03x.",
        expected: Verdict::Begun,
    },
    // the length: its fourth byte is bad, whatever comes behind it
    FrameCase {
        name: "the length 0",
        bytes: b"\x00\x00\x00\x00",
        expected: Verdict::Bad {
            place: 3,
            kind: BadKind::Length,
        },
    },
    FrameCase {
        name: "the length 0 with a tag behind it",
        bytes: b"\x00\x00\x00\x00A",
        expected: Verdict::Bad {
            place: 3,
            kind: BadKind::Length,
        },
    },
    FrameCase {
        name: "a length of one too many",
        bytes: b"\x07\xff\xff\xfd",
        expected: Verdict::Bad {
            place: 3,
            kind: BadKind::Length,
        },
    },
    FrameCase {
        name: "the greatest number",
        bytes: b"\xff\xff\xff\xffs",
        expected: Verdict::Bad {
            place: 3,
            kind: BadKind::Length,
        },
    },
    // a tag that no frame has; a byte earlier its length is bad, and a byte later the bool behind a tag
    FrameCase {
        name: "the tag 77",
        bytes: b"\x00\x00\x00\x01w",
        expected: Verdict::Bad {
            place: 4,
            kind: BadKind::Tag,
        },
    },
    FrameCase {
        name: "the tag 0",
        bytes: b"\x00\x00\x00\x09\x00",
        expected: Verdict::Bad {
            place: 4,
            kind: BadKind::Tag,
        },
    },
    FrameCase {
        name: "the tag 77 behind the length 0",
        bytes: b"\x00\x00\x00\x00w",
        expected: Verdict::Bad {
            place: 3,
            kind: BadKind::Length,
        },
    },
    FrameCase {
        name: "a bool of 77",
        bytes: b"\x00\x00\x00\x02Aw",
        expected: Verdict::Bad {
            place: 5,
            kind: BadKind::Field,
        },
    },
    // a number out of its range: a primitive type of 8, and the same a byte earlier and a byte later
    FrameCase {
        name: "Boxed of a primitive type of 8",
        bytes: b"\x00\x00\x00\x03k\x00\x08",
        expected: Verdict::Bad {
            place: 6,
            kind: BadKind::Field,
        },
    },
    FrameCase {
        name: "Boxed of a mirror of 11",
        bytes: b"\x00\x00\x00\x03k\x0b\x08",
        expected: Verdict::Bad {
            place: 5,
            kind: BadKind::Field,
        },
    },
    FrameCase {
        name: "Boxed of an array of a primitive type of 8",
        bytes: b"\x00\x00\x00\x04k\x04\x00\x08",
        expected: Verdict::Bad {
            place: 7,
            kind: BadKind::Field,
        },
    },
    FrameCase {
        name: "Done with a bool of 2",
        bytes: b"\x00\x00\x00\x02A\x02",
        expected: Verdict::Bad {
            place: 5,
            kind: BadKind::Field,
        },
    },
    FrameCase {
        name: "Created of 5",
        bytes: b"\x00\x00\x00\x02\x17\x05",
        expected: Verdict::Bad {
            place: 5,
            kind: BadKind::Field,
        },
    },
    // an opt that does not fit its wildcard, and the same a byte earlier and a byte later
    FrameCase {
        name: "? with a mirror",
        bytes: b"\x00\x00\x00\x06j\x05\x00\x01\x00\x03",
        expected: Verdict::Bad {
            place: 7,
            kind: BadKind::Field,
        },
    },
    FrameCase {
        name: "a wildcard of 3",
        bytes: b"\x00\x00\x00\x06j\x05\x03\x01\x00\x03",
        expected: Verdict::Bad {
            place: 6,
            kind: BadKind::Field,
        },
    },
    FrameCase {
        name: "an array of ? with a mirror",
        bytes: b"\x00\x00\x00\x07j\x04\x05\x00\x01\x00\x03",
        expected: Verdict::Bad {
            place: 8,
            kind: BadKind::Field,
        },
    },
    // a text of no characters: its last byte is bad, and the same a byte earlier and a byte later
    FrameCase {
        name: "a text of two bytes that are no characters",
        bytes: b"\x00\x00\x00\x07P\x00\x00\x00\x02\xc3(",
        expected: Verdict::Bad {
            place: 10,
            kind: BadKind::Field,
        },
    },
    FrameCase {
        name: "a text of one byte that is no character",
        bytes: b"\x00\x00\x00\x06P\x00\x00\x00\x01\xc3",
        expected: Verdict::Bad {
            place: 9,
            kind: BadKind::Field,
        },
    },
    FrameCase {
        name: "a text of three bytes that are no characters",
        bytes: b"\x00\x00\x00\x08P\x00\x00\x00\x03a\xc3(",
        expected: Verdict::Bad {
            place: 11,
            kind: BadKind::Field,
        },
    },
    // a text that is not greater than the one before it, and the same a byte earlier and a byte later
    FrameCase {
        name: "roots a.C and a.B",
        bytes: b"\x00\x00\x00\x1d\x02\x00\x00\x00\x01\x00\x00\x00\x00\x00\x00\x00\x00\x00\x02\x00\x00\x00\x03a.C\x00\x00\x00\x03a.B",
        expected: Verdict::Bad {
            place: 32,
            kind: BadKind::Field,
        },
    },
    FrameCase {
        name: "roots a.C and a.",
        bytes: b"\x00\x00\x00\x1c\x02\x00\x00\x00\x01\x00\x00\x00\x00\x00\x00\x00\x00\x00\x02\x00\x00\x00\x03a.C\x00\x00\x00\x02a.",
        expected: Verdict::Bad {
            place: 31,
            kind: BadKind::Field,
        },
    },
    FrameCase {
        name: "roots a.C and a.Ba",
        bytes: b"\x00\x00\x00\x1e\x02\x00\x00\x00\x01\x00\x00\x00\x00\x00\x00\x00\x00\x00\x02\x00\x00\x00\x03a.C\x00\x00\x00\x04a.Ba",
        expected: Verdict::Bad {
            place: 33,
            kind: BadKind::Field,
        },
    },
    FrameCase {
        name: "the root a.B twice",
        bytes: b"\x00\x00\x00\x1d\x02\x00\x00\x00\x01\x00\x00\x00\x00\x00\x00\x00\x00\x00\x02\x00\x00\x00\x03a.B\x00\x00\x00\x03a.B",
        expected: Verdict::Bad {
            place: 32,
            kind: BadKind::Field,
        },
    },
    FrameCase {
        name: "Hello with * twice",
        bytes: b"\x00\x00\x00\x14@\x00\x00\x00\x02\x00\x00\x00\x01*\x00\x00\x00\x01*\x00\x00\x00\x00\x00",
        expected: Verdict::Bad {
            place: 18,
            kind: BadKind::Field,
        },
    },
    // a name that is no pattern, and the same a byte earlier and a byte later
    FrameCase {
        name: "Hello with a.*.b",
        bytes: b"\x00\x00\x00\x13@\x00\x00\x00\x01\x00\x00\x00\x05a.*.b\x00\x00\x00\x00\x00",
        expected: Verdict::Bad {
            place: 17,
            kind: BadKind::Pattern,
        },
    },
    FrameCase {
        name: "Hello with a.*b",
        bytes: b"\x00\x00\x00\x12@\x00\x00\x00\x01\x00\x00\x00\x04a.*b\x00\x00\x00\x00\x00",
        expected: Verdict::Bad {
            place: 16,
            kind: BadKind::Pattern,
        },
    },
    FrameCase {
        name: "Hello with a.*.bc",
        bytes: b"\x00\x00\x00\x14@\x00\x00\x00\x01\x00\x00\x00\x06a.*.bc\x00\x00\x00\x00\x00",
        expected: Verdict::Bad {
            place: 18,
            kind: BadKind::Pattern,
        },
    },
    FrameCase {
        name: "Hello with an empty name",
        bytes: b"\x00\x00\x00\x0e@\x00\x00\x00\x01\x00\x00\x00\x00\x00\x00\x00\x00\x00",
        expected: Verdict::Bad {
            place: 12,
            kind: BadKind::Pattern,
        },
    },
    // a byte behind the last field, and the same a byte earlier and a byte later
    FrameCase {
        name: "Done with one byte more",
        bytes: b"\x00\x00\x00\x03A\x01\x00",
        expected: Verdict::Bad {
            place: 6,
            kind: BadKind::Rest,
        },
    },
    FrameCase {
        name: "Noted with one byte more",
        bytes: b"\x00\x00\x00\x02\x18\x00",
        expected: Verdict::Bad {
            place: 5,
            kind: BadKind::Rest,
        },
    },
    FrameCase {
        name: "Boxed with one byte more",
        bytes: b"\x00\x00\x00\x04k\x00\x03\x00",
        expected: Verdict::Bad {
            place: 7,
            kind: BadKind::Rest,
        },
    },
    // a frame that ends before its fields do, and the same a byte earlier and a byte later
    FrameCase {
        name: "Boxed without a primitive type",
        bytes: b"\x00\x00\x00\x02k\x00",
        expected: Verdict::Bad {
            place: 5,
            kind: BadKind::Field,
        },
    },
    FrameCase {
        name: "Done without its bool",
        bytes: b"\x00\x00\x00\x01A",
        expected: Verdict::Bad {
            place: 4,
            kind: BadKind::Field,
        },
    },
    FrameCase {
        name: "PrintType without the item of an array",
        bytes: b"\x00\x00\x00\x03o\x04\x04",
        expected: Verdict::Bad {
            place: 6,
            kind: BadKind::Field,
        },
    },
    FrameCase {
        name: "Hello that ends with a name that is no pattern",
        bytes: b"\x00\x00\x00\x0a@\x00\x00\x00\x01\x00\x00\x00\x01-",
        expected: Verdict::Bad {
            place: 13,
            kind: BadKind::Pattern,
        },
    },
];
