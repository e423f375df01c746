// What a file `package-info.java` declares.
use apt_base::{List, Name};
use decl_grammar::NameAt;
use decl_tree::{AnnotationText, Import};

/// A package declaration with its annotations and the text of its doc comment.
#[derive(Drop)]
pub struct PackageText {
    /// The text of the doc comment, without its markers.
    pub doc: Option<Name>,
    /// Its annotations, in the order in which they are written.
    pub annotations: List<AnnotationText>,
    /// The name of the package, with the line of the `package`.
    pub name: NameAt,
}

/// What a file `package-info.java` declares.
#[derive(Drop)]
pub struct InfoFile {
    /// The package declaration, and none where the file has none.
    pub package: Option<PackageText>,
    /// The imports, in the order in which they are written.
    pub imports: List<Import>,
}
