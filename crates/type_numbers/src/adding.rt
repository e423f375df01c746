// The number of a mirror: what stands in it gets a number first, from the inside out.
ghost use Rattle.std.specs.Prelude.{◌≡◌, ◌∷◌, [], IfOk};
ghost use Rattle.type_mirror.specs.declared.mirror.BaseMirror.TheVariants as base;
ghost use Rattle.type_mirror.specs.Parts.{plain, wrapped};
ghost use Rattle.type_numbers.specs.Numbers.{at, IsKnown, Stands, AllStand, OptionStands, Grows};

use crate::node::{Node, copy_elements};
use crate::types::Types;
use apt_base::{Boxed, ElementRef, List, NoMemory};
use type_mirror::{Around, BaseMirror, DeclaredMirror, ExecutableMirror, Mirror};

impl Types {
    /// The number of the type, which is added with what stands in it, where they are not there. It stands for this type from now on, and each number that was given before still has the same type.
    #[cycle(adding)]
    pub fn add(&mut self, mirror: &Mirror) -> Result<usize, NoMemory>
        ensures stands { IfOk result (λ n. Stands self.new n mirror.now) }
        ensures grows { Grows self.old self.new }
    {
        let inner = self.add_base(&mirror.base)?;
        self.add_around(mirror.around.as_slice(), inner)
    }

    #[cycle(adding)]
    #[tactic(auto, unfolding(type_layers::specs::Layers::mirror_of))]
    fn add_base(&mut self, base: &BaseMirror) -> Result<usize, NoMemory>
        ensures stands { IfOk result (λ n. Stands self.new n (plain base.now)) }
        ensures grows { Grows self.old self.new }
    {
        match base {
            BaseMirror::Primitive(kind) => self.intern(Node::Primitive(*kind)),
            BaseMirror::Declared(declared) => self.add_declared(declared),
            BaseMirror::Error(text) => self.intern(Node::Error(text.copy()?)),
            BaseMirror::Variable(element) => self.add_variable(element),
            BaseMirror::Wildcard => self.intern(Node::Unbounded),
            BaseMirror::Executable(executable) => self.add_executable(executable),
            BaseMirror::Nothing => self.intern(Node::Nothing),
            BaseMirror::Void => self.intern(Node::Void),
            BaseMirror::Null => self.intern(Node::Null),
            BaseMirror::Package(name) => self.intern(Node::Package(name.copy()?)),
        }
    }

    #[tactic(auto, unfolding(type_layers::specs::Layers::mirror_of))]
    fn add_variable(&mut self, element: &ElementRef) -> Result<usize, NoMemory>
        ensures stands { IfOk result (λ n. Stands self.new n (plain (base.Variable element.now))) }
        ensures grows { Grows self.old self.new }
    {
        let element = element.copy(self.alloc())?;
        self.intern(Node::Variable(element))
    }

    #[cycle(adding)]
    fn add_declared(&mut self, declared: &DeclaredMirror) -> Result<usize, NoMemory>
        ensures stands { IfOk result (λ n. Stands self.new n (plain (base.Declared declared.now))) }
        ensures grows { Grows self.old self.new }
    {
        let element = declared.element.copy(self.alloc())?;
        let enclosing = self.add_optional(&declared.enclosing)?;
        let arguments = self.add_each(declared.arguments.as_slice())?;
        self.intern(Node::Declared(element, enclosing, arguments))
    }

    #[cycle(adding)]
    fn add_executable(&mut self, executable: &ExecutableMirror) -> Result<usize, NoMemory>
        ensures stands { IfOk result (λ n. Stands self.new n (plain (base.Executable executable.now))) }
        ensures grows { Grows self.old self.new }
    {
        let variables = copy_elements(self.alloc(), executable.variables.as_slice())?;
        let parameters = self.add_each(executable.parameters.as_slice())?;
        let outcome = self.add(executable.result.get())?;
        let thrown = self.add_each(executable.thrown.as_slice())?;
        self.intern(Node::Executable(variables, parameters, outcome, thrown))
    }

    #[cycle(adding)]
    fn add_optional(&mut self, mirror: &Option<Boxed<Mirror>>) -> Result<Option<usize>, NoMemory>
        ensures stands { IfOk result (λ n. OptionStands self.new n mirror.now) }
        ensures grows { Grows self.old self.new }
    {
        match mirror {
            None => Ok(None),
            Some(mirror) => Ok(Some(self.add(mirror.get())?)),
        }
    }

    #[cycle(adding)]
    fn add_each(&mut self, mirrors: &[Mirror]) -> Result<List<usize>, NoMemory>
        ensures stands { IfOk result (λ numbers. AllStand self.new numbers mirrors.now) }
        ensures grows { Grows self.old self.new }
    {
        let mut numbers = List::new(self.alloc());
        for each in mirrors {
            let number = self.add(each)?;
            numbers.push(number)?;
        }
        Ok(numbers)
    }

    // The number of the type with this form around it.
    #[tactic(auto, unfolding(type_layers::specs::Layers::mirror_of))]
    fn add_form(&mut self, form: Around, inner: usize) -> Result<usize, NoMemory>
        requires { IsKnown self.old inner }
        ensures stands { IfOk result (λ n. Stands self.new n (wrapped (form ∷ []) (at self.old inner))) }
        ensures grows { Grows self.old self.new }
    {
        match form {
            Around::Array => self.intern(Node::Array(inner)),
            Around::Extends => self.intern(Node::Extends(inner)),
            Around::Super => self.intern(Node::Super(inner)),
        }
    }

    // The number of the type with these forms around it, from the outside in.
    fn add_around(&mut self, around: &[Around], inner: usize) -> Result<usize, NoMemory>
        requires { IsKnown self.old inner }
        ensures stands { IfOk result (λ n. Stands self.new n (wrapped around.now (at self.old inner))) }
        ensures grows { Grows self.old self.new }
    {
        let mut number = inner;
        for at in 0..around.len() {
            number = self.add_form(around[around.len() - 1 - at], number)?;
        }
        Ok(number)
    }
}
