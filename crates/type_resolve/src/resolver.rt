// What is meant over one table, of which what was looked up is remembered.
ghost use Rattle.std.specs.Prelude.{◌≡◌, IfOk, IfSome};
ghost use Rattle.element_table.specs.TypeTable.{IsTable};
ghost use Rattle.name_resolve.specs.Mirrors.{type_meaning, superclass, interfaces};
ghost use Rattle.type_resolve.specs.Remembered.{IsHeader, IsText};
ghost use Rattle.type_resolve.specs.Scopes.{find_in, scope_in, IsElement, IsType};

use crate::calls::{header_of, interfaces_in, mirror_in_bare, mirror_with, superclass_in};
use crate::known_headers::{KnownHeader, KnownHeaders, copied};
use crate::known_texts::{KnownText, KnownTexts};
use crate::pairs::both;
use crate::scopes::{bare_at, found_in};
use apt_base::{ElementRef, List, NoMemory};
use decl_tree::TypeText;
use element_table::Table;
use name_resolve::Looks;
use std::alloc::Global;
use std::marker::Model;
use type_mirror::{BaseMirror, Mirror};

/// What types and headers mean in elements of one table. Contracts see the table alone, so that the answers are
/// those of the calls `resolve_type`, `superclass` and `interfaces`, whatever was asked before.
///
/// From one call to the next it remembers what each type means in the element where it is written, for up to
/// 32,768 of them; the superclass and the interfaces of each type, for up to 32,768 types; and which member
/// types of a name a type inherits, for up to 32,768 names of types. Beyond its number a text or a header is
/// looked up each time, and where there are more inherited names, or one of them is never settled, all names
/// are forgotten.
#[derive(Drop)]
pub struct Resolver<'a> {
    alloc: Global,
    table: &'a Table,
    // The look-ups, where some are remembered.
    looks: Option<Looks<'a>>,
    texts: KnownTexts,
    headers: KnownHeaders,
}

impl<'a> Model for Resolver<'a> {
    ghost use Rattle.element_table.specs.TypeTable.{TypeTable};
    ghost use Rattle.element_table.specs.Held.{table_code};
    ghost use Rattle.type_resolve.specs.Remembered.{IsRemembered};

    ghost Value = { TypeTable };

    ghost coded = { table_code };

    ghost view = { λ a. a.table.now };

    ghost invariant = { λ a. IsRemembered a.table.now a.looks a.texts a.headers };
}

impl<'a> Resolver<'a> {
    /// Nothing is remembered yet. It takes no memory.
    pub fn new(alloc: Global, table: &'a Table) -> Resolver<'a>
        ensures { result ≡ table.now }
    {
        Resolver {
            alloc,
            table,
            looks: None,
            texts: KnownTexts::new(alloc),
            headers: KnownHeaders::new(alloc),
        }
    }

    /// The table.
    pub fn table(&self) -> &'a Table
        ensures { result.now ≡ self.now }
    {
        self.table
    }

    // ---- look-ups

    // The look-ups, which are then no longer remembered.
    fn take_looks(&mut self) -> Looks<'a>
        requires { IsTable self.old }
        ensures looks { result ≡ self.old }
        ensures kept { self.new ≡ self.old }
    {
        match self.looks.take() {
            Some(looks) => looks,
            None => Looks::new(self.alloc, self.table),
        }
    }

    // Remembers look-ups, unless they are many.
    fn keep_looks(&mut self, looks: Looks<'a>)
        requires { looks ≡ self.old }
        ensures { self.new ≡ self.old }
    {
        if looks.are_few() {
            self.looks = Some(looks);
        }
    }

    // ---- types where they are written

    /// The mirror that a type means in this element, without a look at what is remembered of it.
    pub(crate) fn meaning(
        &mut self,
        scope: &ElementRef,
        text: &TypeText,
    ) -> Result<Mirror, NoMemory>
        requires { IsElement self.old scope.now }
        ensures value { IfOk result (λ m. m ≡ type_meaning self.old (scope_in self.old scope.now) text.now) }
        ensures kept { self.new ≡ self.old }
    {
        let (alloc, table) = (self.alloc, self.table);
        match table.find(&scope.unit) {
            Some(unit) => {
                let at = found_in(alloc, table, unit, scope)?;
                let mut looks = self.take_looks();
                let meant = mirror_with(alloc, &mut looks, table, at, text);
                let (looks, meant) = both(looks, meant)?;
                self.keep_looks(looks);
                Ok(meant)
            }
            None => {
                let bare = bare_at(alloc, table, scope)?;
                let meant = mirror_in_bare(alloc, table, &bare, scope, text);
                drop(bare);
                meant
            }
        }
    }

    // What is remembered of a text in an element.
    fn recalled_text(&self, scope: &ElementRef, text: &TypeText) -> Result<Option<Mirror>, NoMemory>
        ensures { IfOk result (λ found. IfSome found
            (λ m. m ≡ type_meaning self.now (scope_in self.now scope.now) text.now)) }
    {
        match self.texts.find(scope, text)? {
            None => Ok(None),
            Some(known) => {
                let copy = known.meant.copy(self.alloc)?;
                Ok(Some(copy))
            }
        }
    }

    fn remember_text(
        &mut self,
        scope: &ElementRef,
        text: &TypeText,
        meant: &Mirror,
    ) -> Result<(), NoMemory>
        requires { meant.now ≡ type_meaning self.old (scope_in self.old scope.now) text.now }
        ensures { self.new ≡ self.old }
    {
        if self.texts.is_full() {
            return Ok(());
        }
        let at = scope.copy(self.alloc)?;
        let (at, text) = both(at, text.copy(self.alloc))?;
        let ((at, text), meant) = both((at, text), meant.copy(self.alloc))?;
        self.texts.add(KnownText { at, text, meant })
    }

    /// The mirror that a type means where it is written in this element, as the call `resolve_type` gives it.
    pub fn resolve_type(&mut self, scope: &ElementRef, text: &TypeText) -> Result<Mirror, NoMemory>
        requires { IsElement self.old scope.now }
        ensures value { IfOk result (λ m. m ≡ type_meaning self.old (scope_in self.old scope.now) text.now) }
        ensures kept { self.new ≡ self.old }
    {
        match self.recalled_text(scope, text)? {
            Some(known) => Ok(known),
            None => {
                let meant = self.meaning(scope, text)?;
                let remembered = self.remember_text(scope, text, &meant);
                let (meant, ()) = both(meant, remembered)?;
                Ok(meant)
            }
        }
    }

    // ---- headers

    /// The superclass of a type, without a look at what is remembered of it.
    pub(crate) fn superclass_of(&mut self, at: &ElementRef) -> Result<Mirror, NoMemory>
        requires { IsType self.old at.now }
        ensures value { IfOk result (λ m. m ≡ superclass self.old (find_in self.old at.now)) }
        ensures kept { self.new ≡ self.old }
    {
        let (alloc, table) = (self.alloc, self.table);
        match table.find(&at.unit) {
            Some(unit) => {
                let header = header_of(alloc, table, unit, at)?;
                let mut looks = self.take_looks();
                let meant = superclass_in(alloc, &mut looks, &header);
                drop(header);
                let (looks, meant) = both(looks, meant)?;
                self.keep_looks(looks);
                Ok(meant)
            }
            None => Ok(Mirror::plain(alloc, BaseMirror::Nothing)),
        }
    }

    /// The interfaces of a type, without a look at what is remembered of them.
    pub(crate) fn interfaces_of(&mut self, at: &ElementRef) -> Result<List<Mirror>, NoMemory>
        requires { IsType self.old at.now }
        ensures value { IfOk result (λ list. list ≡ interfaces self.old (find_in self.old at.now)) }
        ensures kept { self.new ≡ self.old }
    {
        let (alloc, table) = (self.alloc, self.table);
        match table.find(&at.unit) {
            Some(unit) => {
                let header = header_of(alloc, table, unit, at)?;
                let mut looks = self.take_looks();
                let list = interfaces_in(alloc, &mut looks, &header);
                drop(header);
                let (looks, list) = both(looks, list)?;
                self.keep_looks(looks);
                Ok(list)
            }
            None => Ok(List::new(alloc)),
        }
    }

    // The superclass and the interfaces of a type.
    fn found_header(&mut self, at: &ElementRef) -> Result<KnownHeader, NoMemory>
        requires { IsType self.old at.now }
        ensures at { IfOk result (λ header. header.at ≡ at.now) }
        ensures header { IfOk result (λ header. IsHeader self.old header) }
        ensures kept { self.new ≡ self.old }
    {
        let superclass = self.superclass_of(at)?;
        let (superclass, interfaces) = both(superclass, self.interfaces_of(at))?;
        let types = (superclass, interfaces);
        let ((superclass, interfaces), at) = both(types, at.copy(self.alloc))?;
        Ok(KnownHeader {
            at,
            superclass,
            interfaces,
        })
    }

    fn remember_header(&mut self, header: KnownHeader) -> Result<(), NoMemory>
        requires { IsHeader self.old header }
        ensures { self.new ≡ self.old }
    {
        self.headers.add(header)
    }

    // What is remembered of the superclass of a type.
    fn recalled_superclass(&self, at: &ElementRef) -> Result<Option<Mirror>, NoMemory>
        ensures { IfOk result (λ found. IfSome found
            (λ m. m ≡ superclass self.now (find_in self.now at.now))) }
    {
        match self.headers.find(at)? {
            None => Ok(None),
            Some(known) => {
                let copy = known.superclass.copy(self.alloc)?;
                Ok(Some(copy))
            }
        }
    }

    // What is remembered of the interfaces of a type.
    fn recalled_interfaces(&self, at: &ElementRef) -> Result<Option<List<Mirror>>, NoMemory>
        ensures { IfOk result (λ found. IfSome found
            (λ list. list ≡ interfaces self.now (find_in self.now at.now))) }
    {
        match self.headers.find(at)? {
            None => Ok(None),
            Some(known) => {
                let copy = copied(self.alloc, known.interfaces.as_slice())?;
                Ok(Some(copy))
            }
        }
    }

    /// The superclass of a type of the table, as the call `superclass` gives it.
    pub fn superclass(&mut self, at: &ElementRef) -> Result<Mirror, NoMemory>
        requires { IsType self.old at.now }
        ensures value { IfOk result (λ m. m ≡ superclass self.old (find_in self.old at.now)) }
        ensures kept { self.new ≡ self.old }
    {
        match self.recalled_superclass(at)? {
            Some(known) => Ok(known),
            None => {
                let header = self.found_header(at)?;
                let superclass = header.superclass.copy(self.alloc);
                let (header, superclass) = both(header, superclass)?;
                let remembered = self.remember_header(header);
                let (superclass, ()) = both(superclass, remembered)?;
                Ok(superclass)
            }
        }
    }

    /// The interfaces of a type of the table, as the call `interfaces` gives them.
    pub fn interfaces(&mut self, at: &ElementRef) -> Result<List<Mirror>, NoMemory>
        requires { IsType self.old at.now }
        ensures value { IfOk result (λ list. list ≡ interfaces self.old (find_in self.old at.now)) }
        ensures kept { self.new ≡ self.old }
    {
        match self.recalled_interfaces(at)? {
            Some(known) => Ok(known),
            None => {
                let header = self.found_header(at)?;
                let interfaces = copied(self.alloc, header.interfaces.as_slice());
                let (header, interfaces) = both(header, interfaces)?;
                let remembered = self.remember_header(header);
                let (interfaces, ()) = both(interfaces, remembered)?;
                Ok(interfaces)
            }
        }
    }
}
