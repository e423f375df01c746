// The words of a line: kinds of elements and modifiers.
ghost use Rattle.std.specs.Prelude.{◌≡◌, ◌∷◌, [], map};
ghost use Rattle.decl_elements.specs.Shown.{shown_element};
ghost use Rattle.type_texts.specs.Spelling.{IsAdded};
ghost use Rattle.unit_listing.specs.Words.{kind_word, modifier_rows, modifier_words, shown_row, spaced, words_among};

use apt_base::NoMemory;
use element_table::Element;

// Each modifier with its bit, the lowest first.
static MODIFIERS: [(u16, &str); 12] = [
    (1, "public"),
    (2, "protected"),
    (4, "private"),
    (8, "abstract"),
    (16, "default"),
    (32, "static"),
    (64, "final"),
    (128, "transient"),
    (256, "volatile"),
    (512, "synchronized"),
    (1024, "native"),
    (2048, "strictfp"),
];

/// The word for the kind of an element (JSR 269, `ElementKind`). It takes no memory.
pub(crate) fn kind_word(element: &Element<'_>) -> &'static str
    ensures { result.now ≡ kind_word (shown_element element.now) }
{
    match element {
        Element::Package(_) => "package",
        Element::Enum(_) => "enum",
        Element::Class(_) => "class",
        Element::AnnotationType(_) => "annotation_type",
        Element::Interface(_) => "interface",
        Element::EnumConstant(_) => "enum_constant",
        Element::Field(_) => "field",
        Element::Parameter(_) => "parameter",
        Element::Method(_) => "method",
        Element::Constructor(_) => "constructor",
        Element::TypeParameter(_) => "type_parameter",
    }
}

/// Adds a word behind a space. `NoMemory` where there is no memory for it.
pub(crate) fn add_word(text: &mut String, word: &str) -> Result<(), NoMemory>
    ensures { IsAdded text.old text.new result (spaced (word.now ∷ [])) }
{
    text.push(' ')?;
    text.push_str(word)?;
    Ok(())
}

fn modifier_rows() -> &'static [(u16, &'static str)]
    ensures { map shown_row result.now ≡ modifier_rows }
{
    &MODIFIERS
}

// Adds the words of those rows whose bits are set.
fn add_set(text: &mut String, rows: &[(u16, &'static str)], modifiers: u16) -> Result<(), NoMemory>
    ensures { IsAdded text.old text.new result (spaced (words_among (map shown_row rows.now) modifiers)) }
{
    for row in rows {
        if modifiers & row.0 != 0 {
            add_word(text, row.1)?;
        }
    }
    Ok(())
}

/// Adds the words of these modifiers, each behind a space. `NoMemory` where there is no memory for them.
#[tactic(auto, unfolding(crate::specs::Words::modifier_words))]
pub(crate) fn add_modifiers(text: &mut String, modifiers: u16) -> Result<(), NoMemory>
    ensures { IsAdded text.old text.new result (spaced (modifier_words modifiers)) }
{
    add_set(text, modifier_rows(), modifiers)
}
