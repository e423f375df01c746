// What a question is looked up by: a number that equal questions have in common.
use apt_base::{Around, Boxed, ElementRef, Name};
use type_mirror::{BaseMirror, DeclaredMirror, ExecutableMirror, Mirror};
use wire_frames::Question;

// As many bytes a name is counted more than it has, for what holds it.
const BESIDE: usize = 64;

// The prime by which the parts of a question are mixed (FNV-1a).
const PRIME: u32 = 16_777_619;

/// A number of a question, and the bytes that it is counted as. Equal questions have equal digests.
#[derive(Clone, Copy)]
pub(crate) struct Digest {
    pub hash: u32,
    pub size: usize,
}

/// The digest of a question. It takes no memory.
pub(crate) fn digest_of(question: &Question) -> Digest {
    let mut digest = Digest {
        hash: 2_166_136_261,
        size: BESIDE,
    };
    digest.add(question.row().tag() as u32);
    digest.arguments(question);
    digest
}

impl Digest {
    fn add(&mut self, number: u32) {
        self.hash = (self.hash ^ number).wrapping_mul(PRIME);
    }

    fn count(&mut self, bytes: usize) {
        self.size = self.size.saturating_add(bytes);
    }

    fn name(&mut self, name: &Name) {
        let text = name.as_str();
        for byte in text.as_bytes() {
            self.add(*byte as u32);
        }
        self.add(256);
        self.count(text.len());
        self.count(BESIDE);
    }

    fn element(&mut self, at: &ElementRef) {
        self.name(&at.unit);
        for step in at.path.as_slice() {
            self.add(*step as u32);
            self.count(2);
        }
        self.add(65_536);
    }

    fn elements(&mut self, elements: &[ElementRef]) {
        for each in elements {
            self.element(each);
        }
    }

    fn around(&mut self, around: &[Around]) {
        for each in around {
            match each {
                Around::Array => self.add(1),
                Around::Extends => self.add(2),
                Around::Super => self.add(3),
            }
            self.count(1);
        }
    }

    #[cycle(digest)]
    fn mirror(&mut self, mirror: &Mirror) {
        self.around(mirror.around.as_slice());
        self.base(&mirror.base);
        self.count(BESIDE);
    }

    #[cycle(digest)]
    fn mirrors(&mut self, mirrors: &[Mirror]) {
        for each in mirrors {
            self.mirror(each);
        }
        self.add(4);
    }

    #[cycle(digest)]
    fn base(&mut self, base: &BaseMirror) {
        match base {
            BaseMirror::Primitive(kind) => self.add(16 + *kind as u32),
            BaseMirror::Declared(declared) => self.declared(declared),
            BaseMirror::Error(text) => self.name(text),
            BaseMirror::Variable(element) => {
                self.add(5);
                self.element(element);
            }
            BaseMirror::Wildcard => self.add(6),
            BaseMirror::Executable(executable) => self.executable(executable),
            BaseMirror::Nothing => self.add(7),
            BaseMirror::Void => self.add(8),
            BaseMirror::Null => self.add(9),
            BaseMirror::Package(name) => {
                self.add(10);
                self.name(name);
            }
        }
    }

    #[cycle(digest)]
    fn enclosing(&mut self, enclosing: &Option<Boxed<Mirror>>) {
        match enclosing {
            None => {}
            Some(mirror) => self.mirror(mirror.get()),
        }
    }

    #[cycle(digest)]
    fn declared(&mut self, declared: &DeclaredMirror) {
        self.element(&declared.element);
        self.enclosing(&declared.enclosing);
        self.mirrors(declared.arguments.as_slice());
    }

    #[cycle(digest)]
    fn executable(&mut self, executable: &ExecutableMirror) {
        self.elements(executable.variables.as_slice());
        self.mirrors(executable.parameters.as_slice());
        self.mirror(executable.result.get());
        self.mirrors(executable.thrown.as_slice());
    }

    fn arguments(&mut self, question: &Question) {
        match question {
            Question::Name(_, name) => self.name(name),
            Question::Element(_, at) => self.element(at),
            Question::Mirror(_, mirror) => self.mirror(mirror),
            Question::Mirrors(_, one, other) => {
                self.mirror(one);
                self.mirror(other);
            }
            Question::ValuesWithDefaults {
                element,
                annotation,
            } => {
                self.element(element);
                self.add(*annotation as u32);
            }
            Question::Overrides {
                overrider,
                overridden,
                in_type,
            } => {
                self.element(overrider);
                self.element(overridden);
                self.element(in_type);
            }
            Question::MemberType { container, element } => {
                self.mirror(container);
                self.element(element);
            }
            Question::DeclaredType { element, arguments } => {
                self.element(element);
                self.mirrors(arguments.as_slice());
            }
            Question::Roots => {}
        }
    }
}
