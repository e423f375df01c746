// Makes members of what was read, and puts what they declare apart from the lines of it.
ghost use Rattle.std.specs.Prelude.{◌≡◌, ◌++◌, [], ◌∷◌, List, IfOk, MatchResult, map};
ghost use Rattle.decl_grammar.specs.declared.fault.ReadFault.TheVariants as faults;
ghost use Rattle.decl_grammar.specs.Reading.{UnlessMemory};
ghost use Rattle.decl_members.specs.NamedMembers.{fields_of};
ghost use Rattle.decl_grammar.specs.Grammar.{plain_type_params, plain_params, plain_members, line_alone, type_param_lines, param_lines, member_lines, type_with, in_dims, field_of, method_of, constructor_of, members_with};

use apt_base::{List, Name, NoMemory, copy_optional_name};
use decl_grammar::{
    Declarator, Lines, MemberAt, Modifiers, NameAt, ParamAt, Params, ReadFault, Signature, TypeAt,
    TypeParamAt, TypeRest, Unmodified,
};
use decl_tree::{
    AnnotationText, Around, ConstructorDecl, FieldDecl, Member, MethodDecl, Param, TypeDecl,
    TypeParam, TypeText, ValueText,
};
use std::alloc::Global;

// The lines of an element without children.
fn one_line(alloc: Global, line: u32) -> Lines
    ensures { result ≡ line_alone line }
{
    let children = List::new(alloc);
    Lines { line, children }
}

// Type parameters, and their lines.
fn apart_type_params(
    alloc: Global,
    parameters: List<TypeParamAt>,
) -> Result<(List<TypeParam>, List<Lines>), NoMemory>
    ensures params { IfOk result (λ x. x.0 ≡ plain_type_params parameters) }
    ensures lines { IfOk result (λ x. x.1 ≡ type_param_lines parameters) }
{
    let mut all = List::new(alloc);
    let mut lines = List::new(alloc);
    for each in parameters.into_vec() {
        let TypeParamAt { param, line } = each;
        all.push(param)?;
        lines.push(one_line(alloc, line))?;
    }
    Ok((all, lines))
}

// Parameters, and their lines behind others.
fn apart_params(
    alloc: Global,
    front: List<Lines>,
    params: List<ParamAt>,
) -> Result<(List<Param>, List<Lines>), NoMemory>
    ensures params { IfOk result (λ x. x.0 ≡ plain_params params) }
    ensures lines { IfOk result (λ x. x.1 ≡ front ++ param_lines params) }
{
    let mut all = List::new(alloc);
    let mut lines = front;
    for each in params.into_vec() {
        let ParamAt { param, line } = each;
        all.push(param)?;
        lines.push(one_line(alloc, line))?;
    }
    Ok((all, lines))
}

// Members, and their lines behind others.
fn apart_members(
    alloc: Global,
    front: List<Lines>,
    members: List<MemberAt>,
) -> Result<(List<Member>, List<Lines>), NoMemory>
    ensures members { IfOk result (λ x. x.0 ≡ plain_members members) }
    ensures lines { IfOk result (λ x. x.1 ≡ front ++ member_lines members) }
{
    let mut all = List::new(alloc);
    let mut lines = front;
    for each in members.into_vec() {
        let MemberAt {
            member,
            lines: inside,
        } = each;
        all.push(member)?;
        lines.push(inside)?;
    }
    Ok((all, lines))
}

/// A type with its modifiers, its doc comment and its lines.
pub fn type_at(
    alloc: Global,
    doc: Option<Name>,
    modifiers: Modifiers,
    rest: TypeRest,
) -> Result<TypeAt, NoMemory>
    ensures { IfOk result (λ t. t ≡ type_with doc modifiers rest) }
{
    let Modifiers { bits, annotations } = modifiers;
    let TypeRest {
        kind,
        name,
        parameters,
        superclass,
        interfaces,
        members,
    } = rest;
    let NameAt { name, line } = name;
    let (parameters, front) = apart_type_params(alloc, parameters)?;
    let (members, children) = apart_members(alloc, front, members)?;
    let declaration = TypeDecl {
        kind,
        name,
        modifiers: bits,
        annotations,
        doc,
        parameters,
        superclass,
        interfaces,
        members,
    };
    let lines = Lines { line, children };
    Ok(TypeAt { declaration, lines })
}

// The same type in the brackets behind a name.
fn in_brackets(dims: Vec<Around>, of: TypeText) -> Result<TypeText, NoMemory>
    ensures { IfOk result (λ t. t ≡ in_dims dims.items of) }
{
    let TypeText { around, base } = of;
    let mut items = dims;
    items.extend_from_slice(around.as_slice())?;
    let around = List::from_vec(items);
    Ok(TypeText { around, base })
}

// A copy of annotations.
fn copy_annotations(
    alloc: Global,
    items: &[AnnotationText],
) -> Result<List<AnnotationText>, NoMemory>
    ensures { IfOk result (λ list. list ≡ items.now) }
{
    let mut copies = List::new(alloc);
    let mut rest = items;
    'row: while let [each, after @ ..] = rest {
        copies.push(each.copy(alloc)?)?;
        rest = after;
    }
    Ok(copies)
}

// The type of a field, whose name has brackets behind it.
fn field_type(alloc: Global, of: &TypeText, declarator: &Declarator) -> Result<TypeText, NoMemory>
    ensures { IfOk result (λ t. t ≡ in_dims declarator.now.dims of.now) }
{
    let dims = Vec::from_slice(alloc, declarator.dims.as_slice())?;
    in_brackets(dims, of.copy(alloc)?)
}

// A copy of the constant of a field, where it has one.
fn copy_constant(alloc: Global, of: &Option<ValueText>) -> Result<Option<ValueText>, NoMemory>
    ensures { IfOk result (λ copy. copy ≡ of.now) }
{
    match of {
        None => Ok(None),
        Some(value) => Ok(Some(value.copy(alloc)?)),
    }
}

// One field of a declaration of fields.
fn field(
    alloc: Global,
    doc: &Option<Name>,
    modifiers: &Modifiers,
    of: &TypeText,
    declarator: &Declarator,
) -> Result<MemberAt, NoMemory>
    ensures { IfOk result (λ m. m ≡ field_of doc.now modifiers.now of.now declarator.now) }
{
    let member = Member::Field(FieldDecl {
        name: declarator.name.name.copy()?,
        modifiers: modifiers.bits,
        annotations: copy_annotations(alloc, modifiers.annotations.as_slice())?,
        doc: copy_optional_name(doc)?,
        of: field_type(alloc, of, declarator)?,
        constant: copy_constant(alloc, &declarator.constant)?,
    });
    let lines = one_line(alloc, declarator.name.line);
    Ok(MemberAt { member, lines })
}

// The fields of a declaration, put behind other members.
fn add_fields(
    alloc: Global,
    front: Vec<MemberAt>,
    doc: &Option<Name>,
    modifiers: &Modifiers,
    of: &TypeText,
    names: &[Declarator],
) -> Result<Vec<MemberAt>, NoMemory>
    ensures { IfOk result (λ v. v.items ≡ front.items ++ fields_of doc.now modifiers.now of.now names.now) }
{
    let mut all = front;
    let mut rest = names;
    'row: while let [next, after @ ..] = rest {
        all.push(field(alloc, doc, modifiers, of, next)?)?;
        rest = after;
    }
    Ok(all)
}

// A method from its parts.
fn method(
    alloc: Global,
    doc: Option<Name>,
    modifiers: Modifiers,
    parameters: List<TypeParamAt>,
    of: TypeText,
    name: NameAt,
    signature: Signature,
) -> Result<MemberAt, NoMemory>
    ensures { IfOk result (λ m. m ≡ method_of doc modifiers parameters of name signature) }
{
    let Modifiers { bits, annotations } = modifiers;
    let Signature {
        params,
        dims,
        thrown,
        default,
    } = signature;
    let Params { params, varargs } = params;
    let NameAt { name, line } = name;
    let result = in_brackets(dims.into_vec(), of)?;
    let (parameters, front) = apart_type_params(alloc, parameters)?;
    let (arguments, children) = apart_params(alloc, front, params)?;
    let member = Member::Method(MethodDecl {
        name,
        modifiers: bits,
        annotations,
        doc,
        parameters,
        result,
        arguments,
        varargs,
        thrown,
        default,
    });
    let lines = Lines { line, children };
    Ok(MemberAt { member, lines })
}

// A constructor from its parts.
fn constructor(
    alloc: Global,
    doc: Option<Name>,
    modifiers: Modifiers,
    line: u32,
    parameters: List<TypeParamAt>,
    signature: Signature,
) -> Result<MemberAt, NoMemory>
    ensures { IfOk result (λ m. m ≡ constructor_of doc modifiers line parameters signature) }
{
    let Modifiers { bits, annotations } = modifiers;
    let Signature { params, thrown, .. } = signature;
    let Params { params, varargs } = params;
    let (parameters, front) = apart_type_params(alloc, parameters)?;
    let (arguments, children) = apart_params(alloc, front, params)?;
    let member = Member::Constructor(ConstructorDecl {
        modifiers: bits,
        annotations,
        doc,
        parameters,
        arguments,
        varargs,
        thrown,
    });
    let lines = Lines { line, children };
    Ok(MemberAt { member, lines })
}

// The same members with one more.
fn with_one(front: Vec<MemberAt>, member: MemberAt) -> Result<Vec<MemberAt>, NoMemory>
    ensures { IfOk result (λ v. v.items ≡ front.items ++ member ∷ []) }
{
    let mut all = front;
    all.push(member)?;
    Ok(all)
}

// The members that a declaration gives, put behind others.
#[tactic(auto, using(decl_types::proofs::MemberFolds::none_behind))]
fn with_more(
    alloc: Global,
    front: Vec<MemberAt>,
    doc: Option<Name>,
    modifiers: Modifiers,
    unmodified: Unmodified,
) -> Result<Vec<MemberAt>, NoMemory>
    ensures { IfOk result (λ v. v.items ≡ front.items ++ members_with doc modifiers unmodified) }
{
    match unmodified {
        Unmodified::Nothing => Ok(front),
        Unmodified::Fields(of, declarators) => {
            add_fields(alloc, front, &doc, &modifiers, &of, declarators.as_slice())
        }
        Unmodified::Method(parameters, of, name, signature) => {
            let made = method(alloc, doc, modifiers, parameters, of, name, signature)?;
            with_one(front, made)
        }
        Unmodified::Constructor(line, parameters, signature) => {
            let made = constructor(alloc, doc, modifiers, line, parameters, signature)?;
            with_one(front, made)
        }
        Unmodified::Nested(rest) => {
            let TypeAt { declaration, lines } = type_at(alloc, doc, modifiers, rest)?;
            let member = Member::Nested(declaration);
            with_one(front, MemberAt { member, lines })
        }
    }
}

/// The members that a declaration gives, put behind others.
pub fn add_members(
    alloc: Global,
    front: Vec<MemberAt>,
    doc: Option<Name>,
    modifiers: Modifiers,
    unmodified: Unmodified,
) -> Result<Vec<MemberAt>, ReadFault>
    ensures { UnlessMemory result (λ v. v.items ≡ front.items ++ members_with doc modifiers unmodified) }
{
    match with_more(alloc, front, doc, modifiers, unmodified) {
        Ok(all) => Ok(all),
        Err(_) => Err(ReadFault::Memory),
    }
}
