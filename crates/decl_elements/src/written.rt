// What is written at a place, and the simple name of what stands there. None of these calls takes memory.
ghost use Rattle.std.specs.Prelude.{◌≡◌};
ghost use Rattle.std.specs.Option.{option_copied};
ghost use Rattle.decl_tree.specs.declared.declaration.Member.{out-Member};
ghost use Rattle.decl_elements.specs.Shown.{node_of};
ghost use Rattle.decl_elements.specs.SimpleNames.{member_name, simple_name};
ghost use Rattle.decl_elements.specs.Written.{member_annotations, body_annotations, annotations, declaration_of, field_of, default};

use crate::Place;
use decl_tree::{AnnotationText, Body, FieldDecl, Member, TypeDecl, ValueText};

fn member_name(member: &Member) -> &str
    ensures { result.now ≡ member_name (out-Member member.now) }
{
    match member {
        Member::Field(field) => field.name.as_str(),
        Member::Method(method) => method.name.as_str(),
        Member::Constructor(_) => "<init>",
        Member::Constant(constant) => constant.name.as_str(),
        Member::Nested(declaration) => declaration.name.as_str(),
    }
}

fn member_annotations(member: &Member) -> &[AnnotationText]
    ensures { result.now ≡ member_annotations (out-Member member.now) }
{
    match member {
        Member::Field(field) => field.annotations.as_slice(),
        Member::Method(method) => method.annotations.as_slice(),
        Member::Constructor(constructor) => constructor.annotations.as_slice(),
        Member::Constant(constant) => constant.annotations.as_slice(),
        Member::Nested(declaration) => declaration.annotations.as_slice(),
    }
}

fn body_annotations(body: &Body) -> &[AnnotationText]
    ensures { result.now ≡ body_annotations body.now }
{
    match body {
        Body::Declared(_) => &[],
        Body::Info(annotations, _) => annotations.as_slice(),
    }
}

impl<'a> Place<'a> {
    /// The simple name (JLS 6.2), of what the language adds too; a constructor has `<init>`, and a package
    /// none.
    #[tactic(auto, unfolding(crate::specs::SimpleNames::simple_name))]
    pub fn simple_name(self) -> &'a str
        ensures { result.now ≡ simple_name (node_of self.entry) }
    {
        match self {
            Place::Package(_) => "",
            Place::Top(declaration) => declaration.name.as_str(),
            Place::Inside(_, member) => member_name(member),
            Place::TypeParameter(parameter) => parameter.name.as_str(),
            Place::Parameter(parameter) => parameter.name.as_str(),
            Place::DefaultConstructor(_, _) => "<init>",
            Place::Values => "values",
            Place::ValueOf => "valueOf",
            Place::ValueOfName => "name",
        }
    }

    /// The declaration of a type, or `None` for anything else.
    pub fn declaration(self) -> Option<&'a TypeDecl>
        ensures { option_copied result ≡ declaration_of (node_of self.entry) }
    {
        match self {
            Place::Top(declaration) => Some(declaration),
            Place::Inside(_, Member::Nested(declaration)) => Some(declaration),
            _ => None,
        }
    }

    /// The field that is declared there, or `None`.
    pub fn field(self) -> Option<&'a FieldDecl>
        ensures { option_copied result ≡ field_of (node_of self.entry) }
    {
        match self {
            Place::Inside(_, Member::Field(field)) => Some(field),
            _ => None,
        }
    }

    /// The default of a method (JLS 9.6.2), or `None`.
    pub fn default(self) -> Option<&'a ValueText>
        ensures { option_copied result ≡ default (node_of self.entry) }
    {
        match self {
            Place::Inside(_, Member::Method(method)) => method.default.as_ref(),
            _ => None,
        }
    }

    /// The annotations that are written on what stands there, in order.
    #[tactic(auto, unfolding(crate::specs::Written::annotations))]
    pub fn annotations(self) -> &'a [AnnotationText]
        ensures { result.now ≡ annotations (node_of self.entry) }
    {
        match self {
            Place::Package(Some(unit)) => body_annotations(&unit.text().body),
            Place::Top(declaration) => declaration.annotations.as_slice(),
            Place::Inside(_, member) => member_annotations(member),
            Place::TypeParameter(parameter) => parameter.annotations.as_slice(),
            Place::Parameter(parameter) => parameter.annotations.as_slice(),
            _ => &[],
        }
    }
}
