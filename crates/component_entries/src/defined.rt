//! What is known where a definition stands.

ghost use Rattle.std.specs.Prelude.{◌≡◌, [], false, OnOk, IfErr};
ghost use Rattle.binary_grammar.specs.Fault.{Gives};
ghost use Rattle.binary_grammar.specs.Syntax.{meaning};
ghost use Rattle.component_entries.specs.Entries as spec;
ghost use Rattle.component_entries.specs.Nested.{nothing_in};
ghost use Rattle.component_entries.specs.Views as view;
ghost use Rattle.component_entries.specs.declared.entry.EntryKind.TheVariants as kinds;

use crate::entry::{Entry, EntryKind, is_resource};
use binary_grammar::{Part, ReadError, Reader, Rule, broken_at};
use component_definitions::{
    Alias, Export, Import, IndexSpace, NO_SCOPE, Scope, extern_name, inside, with_one,
};
use component_instances::TypeDefinition;
use distinct_names::Names;
use std::alloc::Global;

/// How many of each sort there are, and the names that are imported and exported.
#[derive(Drop)]
pub struct Defined<'a> {
    nested: bool,
    pub scope: Scope,
    imports: Names<'a>,
    exports: Names<'a>,
}

impl<'a> Defined<'a> {
    /// Nothing, in a nested component within what is there.
    pub fn within(alloc: Global, there: Scope) -> Defined<'a>
        ensures { view.defined_value result ≡ nothing_in there }
    {
        Defined {
            nested: true,
            scope: inside(there),
            imports: Names::new(alloc),
            exports: Names::new(alloc),
        }
    }

    /// Nothing, in a whole component.
    pub fn nothing(alloc: Global) -> Defined<'a>
        ensures { view.defined_value result ≡ spec.nothing }
    {
        Defined {
            nested: false,
            scope: NO_SCOPE,
            imports: Names::new(alloc),
            exports: Names::new(alloc),
        }
    }

    /// A type; a nested component defines no resource.
    fn ty(&self, from: &mut Reader<'a>) -> Result<Entry<'a>, ReadError>
        ensures gives { Gives (λ x. (spec.entry_value x, from.new.left)) result ((meaning (spec.entry_by kinds.Type_) (view.defined_value self.now)).read from.old.left) }
        ensures end { from.new.end ≡ from.old.end }
    {
        let at = from.left();
        let ty = TypeDefinition::read(self.scope, from)?;
        if self.nested && is_resource(&ty) {
            return Err(broken_at(Rule::Tag, at));
        }
        Ok(Entry::Type_(ty))
    }

    /// An import, under a new name.
    fn import(&self, from: &mut Reader<'a>) -> Result<Entry<'a>, ReadError>
        ensures gives { Gives (λ x. (spec.entry_value x, from.new.left)) result ((meaning (spec.entry_by kinds.Import) (view.defined_value self.now)).read from.old.left) }
        ensures end { from.new.end ≡ from.old.end }
    {
        let at = from.left();
        let name = extern_name(from)?;
        if !self.imports.is_new(name) {
            return Err(broken_at(Rule::Duplicate, at));
        }
        Ok(Entry::Import(Import::read_behind(name, self.scope, from)?))
    }

    /// An export, under a new name.
    fn export(&self, from: &mut Reader<'a>) -> Result<Entry<'a>, ReadError>
        ensures gives { Gives (λ x. (spec.entry_value x, from.new.left)) result ((meaning (spec.entry_by kinds.Export) (view.defined_value self.now)).read from.old.left) }
        ensures end { from.new.end ≡ from.old.end }
    {
        let at = from.left();
        let name = extern_name(from)?;
        if !self.exports.is_new(name) {
            return Err(broken_at(Rule::Duplicate, at));
        }
        Ok(Entry::Export(Export::read_behind(name, self.scope, from)?))
    }

    /// Reads an entry of a kind.
    pub fn entry(&self, kind: EntryKind, from: &mut Reader<'a>) -> Result<Entry<'a>, ReadError>
        ensures gives { Gives (λ x. (spec.entry_value x, from.new.left)) result ((meaning (spec.entry_by kind) (view.defined_value self.now)).read from.old.left) }
        ensures end { from.new.end ≡ from.old.end }
    {
        match kind {
            EntryKind::Alias => Ok(Entry::Alias(Alias::read(self.scope, from)?)),
            EntryKind::Type_ => self.ty(from),
            EntryKind::Import => self.import(from),
            EntryKind::Export => self.export(from),
        }
    }

    /// Adds the name of an entry that has one.
    fn add_name(&mut self, entry: &Entry<'a>) -> Result<(), ReadError>
        ensures ok { OnOk result (view.defined_value self.new ≡ record (view.defined_value self.old) { imports = spec.imports_with self.old.imports (spec.entry_value entry.now); exports = spec.exports_with self.old.exports (spec.entry_value entry.now) }) }
        ensures memory { IfErr result (λ e. e ≡ ReadError.Memory) }
    {
        match entry {
            Entry::Import(import) => self.imports.insert(import.name)?,
            Entry::Export(export) => self.exports.insert(export.name)?,
            Entry::Alias(_) | Entry::Type_(_) => {}
        }
        Ok(())
    }

    /// Adds an entry.
    pub fn add(&mut self, entry: &Entry<'a>) -> Result<(), ReadError>
        ensures ok { OnOk result (view.defined_value self.new ≡ spec.with_entry (view.defined_value self.old) (spec.entry_value entry.now)) }
        ensures memory { IfErr result (λ e. e ≡ ReadError.Memory) }
    {
        let space = IndexSpace::Of(entry.sort());
        self.scope = with_one(self.scope, space).ok_or(ReadError::Memory)?;
        self.add_name(entry)
    }
}
