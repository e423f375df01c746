// The modifiers of an element, a bit each: those that are written, and those that the language implies.
ghost use Rattle.std.specs.Prelude.{◌≡◌, ◌&&◌, not, if◌then◌else◌};
ghost use Rattle.std.specs.List.{list_any};
ghost use Rattle.decl_tree.specs.declared.declaration.Member.{out-Member};
ghost use Rattle.decl_elements.specs.Modifiers.{has, is_interface, published, field_modifiers, method_modifiers, enum_access, constructor_modifiers, is_embodied, kind_modifiers, nested_modifiers, placed_modifiers, type_modifiers, access_by, default_constructor_modifiers, member_modifiers, modifiers};
ghost use Rattle.decl_elements.specs.Shown.{node_of};

use crate::Place;
use decl_tree::{Member, TypeDecl, TypeKind};

const NONE: u16 = 0;

const PUBLIC: u16 = 1;

const PRIVATE: u16 = 4;
// Public, protected and private.
const ACCESS: u16 = 7;

const ABSTRACT: u16 = 8;

const STATIC: u16 = 32;

const FINAL: u16 = 64;
// Private, default and static.
const WITH_BODY: u16 = 52;
// Static and final.
const CONSTANT: u16 = 96;
// Public, static and final.
const ENUM_CONSTANT: u16 = 97;
// Public and static.
const ENUM_METHOD: u16 = 33;

// Whether one of these is among the modifiers.
fn has(wanted: u16, modifiers: u16) -> bool
    ensures { result ≡ has wanted modifiers }
{
    modifiers & wanted != 0
}

fn is_interface(kind: TypeKind) -> bool
    ensures { result ≡ is_interface kind }
{
    match kind {
        TypeKind::Interface | TypeKind::AnnotationType => true,
        TypeKind::Enum | TypeKind::Class => false,
    }
}

fn published(kind: TypeKind, written: u16) -> u16
    ensures { result ≡ published kind written }
{
    let implied = if is_interface(kind) && !has(PRIVATE, written) {
        PUBLIC
    } else {
        NONE
    };
    written | implied
}

fn field_modifiers(kind: TypeKind, written: u16) -> u16
    ensures { result ≡ field_modifiers kind written }
{
    let implied = if is_interface(kind) { CONSTANT } else { NONE };
    published(kind, written) | implied
}

fn method_modifiers(kind: TypeKind, written: u16) -> u16
    ensures { result ≡ method_modifiers kind written }
{
    let implied = if is_interface(kind) && !has(WITH_BODY, written) {
        ABSTRACT
    } else {
        NONE
    };
    published(kind, written) | implied
}

fn enum_access(kind: TypeKind) -> u16
    ensures { result ≡ enum_access kind }
{
    match kind {
        TypeKind::Enum => PRIVATE,
        TypeKind::Class | TypeKind::AnnotationType | TypeKind::Interface => NONE,
    }
}

fn constructor_modifiers(kind: TypeKind, written: u16) -> u16
    ensures { result ≡ constructor_modifiers kind written }
{
    published(kind, written) | enum_access(kind)
}

// Whether a constant of an enum has a body.
fn is_embodied(members: &[Member]) -> bool
    ensures { result ≡ list_any (λ m. is_embodied (out-Member m)) members.now }
{
    for member in members {
        if let Member::Constant(constant) = member {
            if constant.body {
                return true;
            }
        }
    }
    false
}

fn kind_modifiers(kind: TypeKind, members: &[Member]) -> u16
    ensures { result ≡ kind_modifiers kind members.now }
{
    match kind {
        TypeKind::Enum => { if is_embodied(members) { NONE } else { FINAL } }
        TypeKind::Class => NONE,
        TypeKind::AnnotationType | TypeKind::Interface => ABSTRACT,
    }
}

fn nested_modifiers(around: TypeKind, kind: TypeKind) -> u16
    ensures { result ≡ nested_modifiers around kind }
{
    match kind {
        TypeKind::Class => { if is_interface(around) { STATIC } else { NONE } }
        TypeKind::Enum | TypeKind::AnnotationType | TypeKind::Interface => STATIC,
    }
}

fn placed_modifiers(around: Option<TypeKind>, declaration: &TypeDecl) -> u16
    ensures { result ≡ placed_modifiers around declaration.now }
{
    match around {
        None => declaration.modifiers,
        Some(around) => {
            published(around, declaration.modifiers) | nested_modifiers(around, declaration.kind)
        }
    }
}

fn type_modifiers(around: Option<TypeKind>, declaration: &TypeDecl) -> u16
    ensures { result ≡ type_modifiers around declaration.now }
{
    let placed = placed_modifiers(around, declaration);
    placed | kind_modifiers(declaration.kind, declaration.members.as_slice())
}

fn default_constructor_modifiers(around: Option<TypeKind>, declaration: &TypeDecl) -> u16
    ensures { result ≡ default_constructor_modifiers around declaration.now }
{
    match declaration.kind {
        TypeKind::Enum => PRIVATE,
        TypeKind::Class => type_modifiers(around, declaration) & ACCESS,
        TypeKind::AnnotationType | TypeKind::Interface => NONE,
    }
}

fn member_modifiers(kind: TypeKind, member: &Member) -> u16
    ensures { result ≡ member_modifiers kind (out-Member member.now) }
{
    match member {
        Member::Field(field) => field_modifiers(kind, field.modifiers),
        Member::Method(method) => method_modifiers(kind, method.modifiers),
        Member::Constructor(constructor) => constructor_modifiers(kind, constructor.modifiers),
        Member::Constant(_) => ENUM_CONSTANT,
        Member::Nested(declaration) => type_modifiers(Some(kind), declaration),
    }
}

impl<'a> Place<'a> {
    /// The modifiers of the element that stands here, a bit each: public, protected, private, abstract, default, static, final, transient, volatile, synchronized, native, strictfp, the lowest first. They are those that are written and those that the language implies (JLS 8.1.1, 8.5.1, 8.8.9, 8.9, 9.1.1, 9.3, 9.4, 9.5). A package and a type parameter have none. It takes no memory.
    #[tactic(auto, unfolding(crate::specs::Modifiers::modifiers))]
    pub fn modifiers(self) -> u16
        ensures { result ≡ modifiers (node_of self.entry) }
    {
        match self {
            Place::Package(_) | Place::TypeParameter(_) | Place::ValueOfName => NONE,
            Place::Top(declaration) => type_modifiers(None, declaration),
            Place::Inside(kind, member) => member_modifiers(kind, member),
            Place::Parameter(parameter) => parameter.modifiers,
            Place::DefaultConstructor(around, declaration) => {
                default_constructor_modifiers(around, declaration)
            }
            Place::Values | Place::ValueOf => ENUM_METHOD,
        }
    }
}
