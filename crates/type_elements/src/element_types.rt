// The types of elements.
ghost use Rattle.std.specs.Prelude.{◌≡◌, [], Some, IfOk};
ghost use Rattle.decl_tree.specs.declared.declaration.Member.{out-Member};
ghost use Rattle.decl_tree.specs.declared.declaration.Member.TheOpen.{Member-F};
ghost use Rattle.decl_elements.specs.Nodes.{Values, ValueOf};
ghost use Rattle.decl_elements.specs.Shown.{node_of};
ghost use Rattle.element_table.specs.TableElements.{node_at};
ghost use Rattle.type_layers.specs.Layers.{mirror_of, executable_mirror};
ghost use Rattle.type_layers.specs.Layers as layers;
ghost use Rattle.type_resolve.specs.Scopes.{IsElement};
ghost use Rattle.type_relations.specs.Elements as elements;
ghost use Rattle.type_relations.specs.Named.{string};
ghost use Rattle.type_elements.specs.TypeOf.{own_type, own_arguments, parameter_types, executable_type, member_type, node_type, type_of};

use apt_base::{ElementRef, List, NoMemory};
use decl_elements::Place;
use decl_tree::{ConstructorDecl, Member, MethodDecl, Param, TypeText};
use element_table::{Part, Table};
use std::alloc::Global;
use type_mirror::{BaseMirror, Mirror};
use type_relations::{
    around_of, array_of, canonical_name, class_type, executable, named_type, place_of,
    type_parameters, written_types_with,
};
use type_resolve::Resolver;

// ---- mirrors

#[tactic(auto, unfolding(type_layers::specs::Layers::mirror_of))]
fn variable(alloc: Global, at: &ElementRef) -> Result<Mirror, NoMemory>
    ensures { IfOk result (λ m. m ≡ mirror_of (layers.Variable at.now)) }
{
    let element = at.copy(alloc)?;
    Ok(Mirror::plain(alloc, BaseMirror::Variable(element)))
}

#[tactic(auto, unfolding(type_layers::specs::Layers::mirror_of))]
fn void(alloc: Global) -> Mirror
    ensures { result ≡ mirror_of layers.Void }
{
    Mirror::plain(alloc, BaseMirror::Void)
}

// ---- types

fn variables(alloc: Global, parameters: &[ElementRef]) -> Result<List<Mirror>, NoMemory>
    ensures { IfOk result (λ list. list ≡ own_arguments parameters.now) }
{
    let mut list = List::new(alloc);
    for each in parameters {
        let one = variable(alloc, each)?;
        list.push(one)?;
    }
    Ok(list)
}

// A type with its own type parameters as arguments.
fn own_type(alloc: Global, table: &Table, at: &ElementRef) -> Result<Mirror, NoMemory>
    ensures { IfOk result (λ m. m ≡ own_type table.now at.now) }
{
    let parameters = type_parameters(alloc, table, at)?;
    let arguments = variables(alloc, parameters.as_slice())?;
    let element = at.copy(alloc)?;
    Ok(class_type(alloc, element, arguments))
}

// The type around an element.
fn enclosing_type(alloc: Global, table: &Table, at: &ElementRef) -> Result<Mirror, NoMemory>
    ensures { IfOk result (λ m. m ≡ own_type table.now (elements.around_of table.now at.now)) }
{
    let around = around_of(alloc, table, at)?;
    own_type(alloc, table, &around)
}

// ---- methods and constructors

fn parameter_types(
    alloc: Global,
    resolver: &mut Resolver<'_>,
    at: &ElementRef,
    parameters: &[Param],
) -> Result<List<Mirror>, NoMemory>
    requires { IsElement resolver.old at.now }
    ensures value { IfOk result (λ list. list ≡ parameter_types resolver.old at.now parameters.now) }
    ensures kept { resolver.new ≡ resolver.old }
{
    let mut list = List::new(alloc);
    for each in parameters {
        let one = resolver.resolve_type(at, &each.of)?;
        list.push(one)?;
    }
    Ok(list)
}

fn executable_type(
    alloc: Global,
    resolver: &mut Resolver<'_>,
    at: &ElementRef,
    parameters: &[Param],
    outcome: Mirror,
    thrown: &[TypeText],
) -> Result<Mirror, NoMemory>
    requires { IsElement resolver.old at.now }
    ensures value { IfOk result (λ m. m ≡ executable_type resolver.old at.now parameters.now outcome thrown.now) }
    ensures kept { resolver.new ≡ resolver.old }
{
    let variables = type_parameters(alloc, resolver.table(), at)?;
    let parameters = parameter_types(alloc, resolver, at, parameters)?;
    let thrown = written_types_with(alloc, resolver, at, thrown)?;
    executable(alloc, variables, parameters, outcome, thrown)
}

fn method_type(
    alloc: Global,
    resolver: &mut Resolver<'_>,
    at: &ElementRef,
    method: &MethodDecl,
) -> Result<Mirror, NoMemory>
    requires { IsElement resolver.old at.now }
    ensures value { IfOk result (λ m. m ≡ member_type resolver.old at.now (Member-F.Method method.now)) }
    ensures kept { resolver.new ≡ resolver.old }
{
    let outcome = resolver.resolve_type(at, &method.result)?;
    let parameters = method.arguments.as_slice();
    let thrown = method.thrown.as_slice();
    executable_type(alloc, resolver, at, parameters, outcome, thrown)
}

fn constructor_type(
    alloc: Global,
    resolver: &mut Resolver<'_>,
    at: &ElementRef,
    constructor: &ConstructorDecl,
) -> Result<Mirror, NoMemory>
    requires { IsElement resolver.old at.now }
    ensures value { IfOk result (λ m. m ≡ member_type resolver.old at.now (Member-F.Constructor constructor.now)) }
    ensures kept { resolver.new ≡ resolver.old }
{
    let outcome = void(alloc);
    let parameters = constructor.arguments.as_slice();
    let thrown = constructor.thrown.as_slice();
    executable_type(alloc, resolver, at, parameters, outcome, thrown)
}

fn member_type(
    alloc: Global,
    resolver: &mut Resolver<'_>,
    at: &ElementRef,
    member: &Member,
) -> Result<Mirror, NoMemory>
    requires { IsElement resolver.old at.now }
    ensures value { IfOk result (λ m. m ≡ member_type resolver.old at.now (out-Member member.now)) }
    ensures kept { resolver.new ≡ resolver.old }
{
    match member {
        Member::Field(field) => resolver.resolve_type(at, &field.of),
        Member::Method(method) => method_type(alloc, resolver, at, method),
        Member::Constructor(constructor) => constructor_type(alloc, resolver, at, constructor),
        Member::Constant(_) => enclosing_type(alloc, resolver.table(), at),
        Member::Nested(_) => own_type(alloc, resolver.table(), at),
    }
}

// ---- what no source has

fn string(alloc: Global, table: &Table) -> Result<Mirror, NoMemory>
    ensures { IfOk result (λ m. m ≡ string table.now) }
{
    named_type(alloc, table, Part::Stub, "java.lang.String")
}

fn default_constructor_type(alloc: Global) -> Result<Mirror, NoMemory>
    ensures { IfOk result (λ m. m ≡ executable_mirror [] [] (mirror_of layers.Void) []) }
{
    executable(
        alloc,
        List::new(alloc),
        List::new(alloc),
        void(alloc),
        List::new(alloc),
    )
}

fn values_type(alloc: Global, table: &Table, at: &ElementRef) -> Result<Mirror, NoMemory>
    ensures { IfOk result (λ m. m ≡ node_type table.now at.now Values) }
{
    let constant = enclosing_type(alloc, table, at)?;
    let outcome = array_of(alloc, constant)?;
    executable(
        alloc,
        List::new(alloc),
        List::new(alloc),
        outcome,
        List::new(alloc),
    )
}

fn value_of_type(alloc: Global, table: &Table, at: &ElementRef) -> Result<Mirror, NoMemory>
    ensures { IfOk result (λ m. m ≡ node_type table.now at.now ValueOf) }
{
    let mut parameters = List::new(alloc);
    let name = string(alloc, table)?;
    parameters.push(name)?;
    let outcome = enclosing_type(alloc, table, at)?;
    executable(
        alloc,
        List::new(alloc),
        parameters,
        outcome,
        List::new(alloc),
    )
}

// ---- all elements

#[tactic(auto, unfolding(type_layers::specs::Layers::mirror_of))]
fn package_type(alloc: Global, table: &Table, at: &ElementRef) -> Result<Mirror, NoMemory>
    ensures { IfOk result (λ m. m ≡ mirror_of (layers.Package (elements.canonical_name table.now at.now))) }
{
    let name = canonical_name(alloc, table, at)?;
    Ok(Mirror::plain(alloc, BaseMirror::Package(name)))
}

fn node_type(
    alloc: Global,
    resolver: &mut Resolver<'_>,
    at: &ElementRef,
    place: Place<'_>,
) -> Result<Mirror, NoMemory>
    requires { node_at resolver.old at.now ≡ Some (node_of place) }
    ensures value { IfOk result (λ m. m ≡ node_type resolver.old at.now (node_of place.entry)) }
    ensures kept { resolver.new ≡ resolver.old }
{
    match place {
        Place::Package(_) => package_type(alloc, resolver.table(), at),
        Place::Top(_) => own_type(alloc, resolver.table(), at),
        Place::Inside(_, member) => member_type(alloc, resolver, at, member),
        Place::TypeParameter(_) => variable(alloc, at),
        Place::Parameter(parameter) => resolver.resolve_type(at, &parameter.of),
        Place::DefaultConstructor(_, _) => default_constructor_type(alloc),
        Place::Values => values_type(alloc, resolver.table(), at),
        Place::ValueOf => value_of_type(alloc, resolver.table(), at),
        Place::ValueOfName => string(alloc, resolver.table()),
    }
}

/// The type of an element, as `type_of_element` gives it.
#[tactic(auto, using(crate::proofs::TypesAtElements::typed))]
pub fn type_of_element_with(
    alloc: Global,
    resolver: &mut Resolver<'_>,
    at: &ElementRef,
) -> Result<Mirror, NoMemory>
    ensures value { IfOk result (λ m. m ≡ type_of resolver.old at.now) }
    ensures kept { resolver.new ≡ resolver.old }
{
    match place_of(resolver.table(), at) {
        None => Ok(Mirror::plain(alloc, BaseMirror::Nothing)),
        Some(place) => node_type(alloc, resolver, at, place),
    }
}

/// The type of an element, as its `asType` gives it: of a type the one with its own type parameters as arguments, of an enum constant that of its enum, of a field or a parameter what is written, of a method or a constructor the types of its parts. Where nothing stands it is that of nothing.
pub fn type_of_element(alloc: Global, table: &Table, at: &ElementRef) -> Result<Mirror, NoMemory>
    ensures { IfOk result (λ m. m ≡ type_of table.now at.now) }
{
    let mut resolver = Resolver::new(alloc, table);
    type_of_element_with(alloc, &mut resolver, at)
}
