// What the initialisers of the fields that a form names are worth: each is learned once, before the form is
// valued.
ghost use Rattle.std.specs.Prelude.{◌≡◌, IfOk, IfSome};
ghost use Rattle.name_resolve.specs.Placed.{IsPlaced};
ghost use Rattle.name_resolve.specs.Shown.{find_of};
ghost use Rattle.annotation_values.specs.Values.{annotation_in, value_in, meanings, meanings_within};
ghost use Rattle.annotation_values.specs.Values.{value_of_initialiser};
ghost use Rattle.annotation_values.specs.Remembered.{IsInitialiser};

use crate::field_values::{FieldValue, Initialiser};
use crate::texts::{chain_in, initialiser_at, names_in};
use crate::values::{MAX_NAMES, Values};
use apt_base::{Name, NoMemory};
use decl_tree::{AnnotationText, ValueText};
use name_resolve::{Finds, Found};
use type_mirror::{Annotation, Value, value_depth};

/// How deep a constant is nested at most, so that what copies it and lets it go does not go deeper.
const MAX_DEPTH: u32 = 1_024;

fn is_too_deep(value: &Option<Value>) -> bool {
    match value {
        None => false,
        Some(value) => value_depth(value) > MAX_DEPTH,
    }
}

impl<'a> Values<'a> {
    // The initialiser of the field that was found, unless it has none or was learned.
    fn unlearned_at(
        &mut self,
        names: usize,
        at: Found<'a>,
    ) -> Result<Option<Initialiser<'a>>, NoMemory>
        requires placed { IsPlaced self.old (find_of at) }
        ensures value { IfOk result (λ found. IfSome found (λ i. IsInitialiser self.old i)) }
        ensures kept { self.new ≡ self.old }
    {
        let known = self.known.find(names, &at)?;
        if known.is_some() {
            return Ok(None);
        }
        match initialiser_at(&at) {
            None => Ok(None),
            Some(form) => Ok(Some(Initialiser { at, form })),
        }
    }

    // The same of the field that a name means.
    fn unlearned(
        &mut self,
        names: usize,
        at: &Found<'a>,
        name: &Name,
    ) -> Result<Option<Initialiser<'a>>, NoMemory>
        requires placed { IsPlaced self.old (find_of at.now) }
        ensures value { IfOk result (λ found. IfSome found (λ i. IsInitialiser self.old i)) }
        ensures kept { self.new ≡ self.old }
    {
        match self.field(at, name)? {
            Finds::One(find) => {
                let found = self.unlearned_at(names, find)?;
                Ok(found)
            }
            Finds::Nothing => Ok(None),
            Finds::Several => Ok(None),
        }
    }

    // What an initialiser is worth, where the names in it were learned.
    fn value_of_initialiser(
        &mut self,
        names: usize,
        at: &Found<'a>,
        form: &ValueText,
    ) -> Result<Option<Value>, NoMemory>
        requires placed { IsPlaced self.old (find_of at.now) }
        ensures value { IfOk result (λ v. v
            ≡ value_of_initialiser (meanings_within self.old names (find_of at.now)) form.now) }
        ensures kept { self.new ≡ self.old }
    {
        match chain_in(form) {
            Some(name) => {
                let value = self.constant(names, at, name)?;
                Ok(value)
            }
            None => {
                let value = self.value(names, at, form)?;
                Ok(Some(value))
            }
        }
    }

    // The same, where it is not nested too deep.
    fn shallow_value(
        &mut self,
        names: usize,
        at: &Found<'a>,
        form: &ValueText,
    ) -> Result<Option<Value>, NoMemory>
        requires placed { IsPlaced self.old (find_of at.now) }
        ensures value { IfOk result (λ v. v
            ≡ value_of_initialiser (meanings_within self.old names (find_of at.now)) form.now) }
        ensures kept { self.new ≡ self.old }
    {
        let value = self.value_of_initialiser(names, at, form)?;
        if is_too_deep(&value) {
            drop(value);
            return Err(NoMemory);
        }
        Ok(value)
    }

    // Values an initialiser, and remembers that.
    fn remember(&mut self, names: usize, of: Initialiser<'a>) -> Result<(), NoMemory>
        requires is { IsInitialiser self.old of }
        ensures kept { self.new ≡ self.old }
    {
        match self.shallow_value(names, &of.at, of.form) {
            Ok(value) => self.known.add(FieldValue {
                names,
                at: of.at,
                value,
            }),
            Err(fault) => {
                drop(of);
                Err(fault)
            }
        }
    }

    // Learns what the field that a name means is worth through this many further names.
    #[cycle(learning)]
    fn learn_name(&mut self, names: usize, at: &Found<'a>, name: &Name) -> Result<(), NoMemory>
        requires placed { IsPlaced self.old (find_of at.now) }
        ensures kept { self.new ≡ self.old }
    {
        match self.unlearned(names, at, name)? {
            None => Ok(()),
            Some(of) => {
                self.learn(names, &of.at, of.form)?;
                self.remember(names, of)
            }
        }
    }

    // Learns what the names in a form are worth, through this many names.
    #[cycle(learning)]
    fn learn(&mut self, names: usize, at: &Found<'a>, form: &ValueText) -> Result<(), NoMemory>
        requires placed { IsPlaced self.old (find_of at.now) }
        ensures kept { self.new ≡ self.old }
    {
        if names == 0 {
            return Ok(());
        }
        let list = names_in(self.alloc, form)?;
        for name in list.as_slice() {
            self.learn_name(names - 1, at, *name)?;
        }
        Ok(())
    }

    // ---- what is written

    /// The value of a constant form that is written there.
    #[tactic(auto, unfolding(crate::specs::Values::meanings))]
    pub fn written_value(&mut self, at: &Found<'a>, form: &ValueText) -> Result<Value, NoMemory>
        requires placed { IsPlaced self.old (find_of at.now) }
        ensures value { IfOk result (λ v. v ≡ value_in (meanings self.old (find_of at.now)) form.now) }
        ensures kept { self.new ≡ self.old }
    {
        self.learn(MAX_NAMES, at, form)?;
        let value = self.value(MAX_NAMES, at, form)?;
        Ok(value)
    }

    fn learn_annotation(&mut self, at: &Found<'a>, text: &AnnotationText) -> Result<(), NoMemory>
        requires placed { IsPlaced self.old (find_of at.now) }
        ensures kept { self.new ≡ self.old }
    {
        for pair in text.values.as_slice() {
            self.learn(MAX_NAMES, at, &pair.value)?;
        }
        Ok(())
    }

    /// An annotation that is written there.
    #[tactic(auto, unfolding(crate::specs::Values::meanings))]
    pub fn written_annotation(
        &mut self,
        at: &Found<'a>,
        text: &AnnotationText,
    ) -> Result<Annotation, NoMemory>
        requires placed { IsPlaced self.old (find_of at.now) }
        ensures value { IfOk result
            (λ a. a ≡ annotation_in (meanings self.old (find_of at.now)) text.now) }
        ensures kept { self.new ≡ self.old }
    {
        self.learn_annotation(at, text)?;
        let annotation = self.annotation(MAX_NAMES, at, text)?;
        Ok(annotation)
    }
}
