// The mirror with a number, as a tree.
ghost use Rattle.std.specs.Prelude.{◌≡◌, ◌<◌, ◌∷◌, [], map, IfOk};
ghost use Rattle.std.specs.List.{AllByRecursion};
ghost use Rattle.std.specs.Option.{option_map, option_to_list};
ghost use Rattle.type_mirror.specs.Parts.{wrapped};
ghost use Rattle.type_numbers.specs.Numbers.{at, IsKnown, declared_at, executable_at};

use crate::node::{Node, copy_elements};
use crate::types::Types;
use apt_base::{Boxed, ElementRef, List, NoMemory};
use type_mirror::{Around, BaseMirror, DeclaredMirror, ExecutableMirror, Mirror};

impl Types {
    /// The type with this number. It is out of memory too where it has more than 16,777,216 layers, each counted where it stands, as a type may that doubles at each step.
    pub fn mirror(&self, number: usize) -> Result<Mirror, NoMemory>
        requires { IsKnown self.now number }
        ensures { IfOk result (λ m. m ≡ at self.now number) }
    {
        if !self.is_small(number) {
            return Err(NoMemory);
        }
        self.built(number)
    }

    #[cycle(building)]
    fn built(&self, number: usize) -> Result<Mirror, NoMemory>
        requires { IsKnown self.now number }
        ensures { IfOk result (λ m. m ≡ at self.now number) }
    {
        let alloc = self.alloc();
        match self.node(number) {
            Node::Primitive(kind) => Ok(Mirror::plain(alloc, BaseMirror::Primitive(*kind))),
            Node::Declared(element, enclosing, arguments) => {
                self.built_declared(number, element, enclosing, arguments.as_slice())
            }
            Node::Error(text) => Ok(Mirror::plain(alloc, BaseMirror::Error(text.copy()?))),
            Node::Variable(element) => {
                let element = element.copy(alloc)?;
                Ok(Mirror::plain(alloc, BaseMirror::Variable(element)))
            }
            Node::Array(item) => self.built_form(number, Around::Array, *item),
            Node::Unbounded => Ok(Mirror::plain(alloc, BaseMirror::Wildcard)),
            Node::Extends(bound) => self.built_form(number, Around::Extends, *bound),
            Node::Super(bound) => self.built_form(number, Around::Super, *bound),
            Node::Executable(variables, parameters, outcome, thrown) => {
                let variables = copy_elements(alloc, variables.as_slice())?;
                let parameters = parameters.as_slice();
                self.built_executable(number, variables, parameters, *outcome, thrown.as_slice())
            }
            Node::Nothing => Ok(Mirror::plain(alloc, BaseMirror::Nothing)),
            Node::Void => Ok(Mirror::plain(alloc, BaseMirror::Void)),
            Node::Null => Ok(Mirror::plain(alloc, BaseMirror::Null)),
            Node::Package(name) => Ok(Mirror::plain(alloc, BaseMirror::Package(name.copy()?))),
        }
    }

    // The type with this form around it; its number is below `below`.
    #[cycle(building)]
    fn built_form(&self, below: usize, form: Around, inner: usize) -> Result<Mirror, NoMemory>
        requires known { IsKnown self.now below }
        requires falls { inner < below }
        ensures { IfOk result (λ m. m ≡ wrapped (form ∷ []) (at self.now inner)) }
    {
        let alloc = self.alloc();
        let mirror = self.built(inner)?;
        let mut forms = List::new(alloc);
        forms.push(form)?;
        mirror.wrapped(alloc, &forms)
    }

    #[cycle(building)]
    fn built_each(&self, below: usize, numbers: &[usize]) -> Result<List<Mirror>, NoMemory>
        requires known { IsKnown self.now below }
        requires fall { AllByRecursion (λ part. part < below) numbers.now }
        ensures { IfOk result (λ list. list ≡ map (at self.now) numbers.now) }
    {
        let mut mirrors = List::new(self.alloc());
        for number in numbers {
            mirrors.push(self.built(*number)?)?;
        }
        Ok(mirrors)
    }

    #[cycle(building)]
    fn built_optional(
        &self,
        below: usize,
        number: &Option<usize>,
    ) -> Result<Option<Boxed<Mirror>>, NoMemory>
        requires known { IsKnown self.now below }
        requires falls { AllByRecursion (λ part. part < below) (option_to_list number.now) }
        ensures { IfOk result (λ mirror. mirror ≡ option_map (at self.now) number.now) }
    {
        match number {
            None => Ok(None),
            Some(number) => Ok(Some(Boxed::new(self.alloc(), self.built(*number)?)?)),
        }
    }

    #[cycle(building)]
    fn built_declared(
        &self,
        below: usize,
        element: &ElementRef,
        enclosing: &Option<usize>,
        arguments: &[usize],
    ) -> Result<Mirror, NoMemory>
        requires known { IsKnown self.now below }
        requires around { AllByRecursion (λ part. part < below) (option_to_list enclosing.now) }
        requires fall { AllByRecursion (λ part. part < below) arguments.now }
        ensures { IfOk result (λ m. m ≡ declared_at self.now element.now enclosing.now arguments.now) }
    {
        let alloc = self.alloc();
        let element = element.copy(alloc)?;
        let enclosing = self.built_optional(below, enclosing)?;
        let arguments = self.built_each(below, arguments)?;
        Ok(Mirror::plain(
            alloc,
            BaseMirror::Declared(DeclaredMirror {
                element,
                enclosing,
                arguments,
            }),
        ))
    }

    #[cycle(building)]
    fn built_executable(
        &self,
        below: usize,
        variables: List<ElementRef>,
        parameters: &[usize],
        outcome: usize,
        thrown: &[usize],
    ) -> Result<Mirror, NoMemory>
        requires known { IsKnown self.now below }
        requires fall { AllByRecursion (λ part. part < below) parameters.now }
        requires falls { outcome < below }
        requires last { AllByRecursion (λ part. part < below) thrown.now }
        ensures { IfOk result (λ m. m ≡ executable_at self.now variables parameters.now outcome thrown.now) }
    {
        let alloc = self.alloc();
        let parameters = self.built_each(below, parameters)?;
        let outcome = Boxed::new(alloc, self.built(outcome)?)?;
        let thrown = self.built_each(below, thrown)?;
        Ok(Mirror::plain(
            alloc,
            BaseMirror::Executable(ExecutableMirror {
                variables,
                parameters,
                result: outcome,
                thrown,
            }),
        ))
    }
}
