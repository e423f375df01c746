// The values of constant forms and of annotations, by what they are made of.
ghost use Rattle.std.specs.Prelude.{◌≡◌, map, option_map, string_bytes, unwrap_or, IfOk};
ghost use Rattle.name_resolve.specs.Placed.{IsPlaced};
ghost use Rattle.name_resolve.specs.Shown.{find_of};
ghost use Rattle.type_mirror.specs.declared.value.Value.TheVariants.{Other};
ghost use Rattle.annotation_values.specs.Values.{all_texts, joined, text_value, constant_within};
ghost use Rattle.annotation_values.specs.Values.{meant_in, value_in, annotation_in, meanings_within};
ghost use Rattle.annotation_values.specs.Remembered.{pair_in};

use crate::texts::sum_text;
use crate::values::Values;
use apt_base::{List, Name, NoMemory};
use decl_tree::{AnnotationText, ElementValuePair, ValueText};
use literal_values::{literal_value, negated_value};
use name_resolve::Found;
use type_mirror::{Annotation, NamedValue, Value};

// The text that a value is, if it is one.
fn text_value(value: Value) -> Option<Name>
    ensures { result ≡ text_value value }
{
    match value {
        Value::Text(text) => Some(text),
        _ => None,
    }
}

impl<'a> Values<'a> {
    // A name that is no constant is handed on as it is written.
    fn named(&mut self, names: usize, at: &Found<'a>, name: &Name) -> Result<Value, NoMemory>
        requires placed { IsPlaced self.old (find_of at.now) }
        ensures value { IfOk result (λ v. v
            ≡ unwrap_or (constant_within self.old names (find_of at.now) name.now) (Other name.now)) }
        ensures kept { self.new ≡ self.old }
    {
        match self.constant(names, at, name)? {
            None => Ok(Value::Other(name.copy()?)),
            Some(value) => Ok(value),
        }
    }

    // The texts of these forms one behind the other, where each is a text.
    #[cycle(value)]
    fn all_texts(
        &mut self,
        names: usize,
        at: &Found<'a>,
        forms: &[ValueText],
    ) -> Result<Option<String>, NoMemory>
        requires placed { IsPlaced self.old (find_of at.now) }
        ensures value { IfOk result (λ text. option_map string_bytes text
            ≡ all_texts (map (meant_in (meanings_within self.old names (find_of at.now))) forms.now)) }
        ensures kept { self.new ≡ self.old }
    {
        let mut text = String::new(self.alloc);
        for form in forms {
            let value = self.value(names, at, form)?;
            let Some(more) = text_value(value) else {
                return Ok(None);
            };
            self.effort.take(more.as_str().len())?;
            text.push_str(more.as_str())?;
        }
        Ok(Some(text))
    }

    // What `+` joins.
    #[cycle(value)]
    #[tactic(auto, using(crate::proofs::ValueParts::joined_forms))]
    fn joined(
        &mut self,
        names: usize,
        at: &Found<'a>,
        forms: &[ValueText],
    ) -> Result<Value, NoMemory>
        requires placed { IsPlaced self.old (find_of at.now) }
        ensures value { IfOk result (λ v. v
            ≡ joined (map (meant_in (meanings_within self.old names (find_of at.now))) forms.now)) }
        ensures kept { self.new ≡ self.old }
    {
        match self.all_texts(names, at, forms)? {
            None => {
                let text = sum_text(self.alloc, forms)?;
                Ok(Value::Other(text))
            }
            Some(text) => Ok(Value::Text(Name::from_string(self.alloc, text))),
        }
    }

    #[cycle(value)]
    fn values(
        &mut self,
        names: usize,
        at: &Found<'a>,
        forms: &[ValueText],
    ) -> Result<List<Value>, NoMemory>
        requires placed { IsPlaced self.old (find_of at.now) }
        ensures value { IfOk result (λ list. list
            ≡ map (value_in (meanings_within self.old names (find_of at.now))) forms.now) }
        ensures kept { self.new ≡ self.old }
    {
        let mut list = List::new(self.alloc);
        for form in forms {
            let value = self.value(names, at, form)?;
            list.push(value)?;
        }
        Ok(list)
    }

    #[cycle(value)]
    #[tactic(auto, using(crate::proofs::ValueParts::by_parts))]
    fn named_value(
        &mut self,
        names: usize,
        at: &Found<'a>,
        pair: &ElementValuePair,
    ) -> Result<NamedValue, NoMemory>
        requires placed { IsPlaced self.old (find_of at.now) }
        ensures value { IfOk result (λ v. v
            ≡ pair_in (meanings_within self.old names (find_of at.now)) pair.now) }
        ensures kept { self.new ≡ self.old }
    {
        let name = pair.name.copy()?;
        let value = self.value(names, at, &pair.value)?;
        Ok(NamedValue { name, value })
    }

    #[cycle(value)]
    fn named_values(
        &mut self,
        names: usize,
        at: &Found<'a>,
        pairs: &[ElementValuePair],
    ) -> Result<List<NamedValue>, NoMemory>
        requires placed { IsPlaced self.old (find_of at.now) }
        ensures value { IfOk result (λ list. list
            ≡ map (pair_in (meanings_within self.old names (find_of at.now))) pairs.now) }
        ensures kept { self.new ≡ self.old }
    {
        let mut list = List::new(self.alloc);
        for pair in pairs {
            let named = self.named_value(names, at, pair)?;
            list.push(named)?;
        }
        Ok(list)
    }

    /// An annotation that is written there, where names are constants through this many names.
    #[cycle(value)]
    #[tactic(auto, using(crate::proofs::ValueParts::by_parts))]
    pub fn annotation(
        &mut self,
        names: usize,
        at: &Found<'a>,
        text: &AnnotationText,
    ) -> Result<Annotation, NoMemory>
        requires placed { IsPlaced self.old (find_of at.now) }
        ensures value { IfOk result (λ annotation. annotation
            ≡ annotation_in (meanings_within self.old names (find_of at.now)) text.now) }
        ensures kept { self.new ≡ self.old }
    {
        let annotation_type = self.annotation_mirror(at, &text.name)?;
        let values = self.named_values(names, at, text.values.as_slice())?;
        Ok(Annotation {
            annotation_type,
            values,
        })
    }

    /// The value of a constant form that is written there, where names are constants through this many names.
    #[cycle(value)]
    #[tactic(auto, using(crate::proofs::ValueParts::by_parts))]
    pub fn value(
        &mut self,
        names: usize,
        at: &Found<'a>,
        form: &ValueText,
    ) -> Result<Value, NoMemory>
        requires placed { IsPlaced self.old (find_of at.now) }
        ensures value { IfOk result (λ v. v
            ≡ value_in (meanings_within self.old names (find_of at.now)) form.now) }
        ensures kept { self.new ≡ self.old }
    {
        match form {
            ValueText::Literal(text) => literal_value(self.alloc, text.as_str()),
            ValueText::Negated(text) => negated_value(self.alloc, text.as_str()),
            ValueText::Joined(items) => self.joined(names, at, items.as_slice()),
            ValueText::Class(of) => {
                let mirror = self.written_type(at, of)?;
                Ok(Value::Class(mirror))
            }
            ValueText::Chain(name) => self.named(names, at, name),
            ValueText::Array(items) => {
                let list = self.values(names, at, items.as_slice())?;
                Ok(Value::Array(list))
            }
            ValueText::Nested(text) => {
                let annotation = self.annotation(names, at, text)?;
                Ok(Value::Nested(annotation))
            }
            ValueText::Other(text) => Ok(Value::Other(text.copy()?)),
        }
    }
}
