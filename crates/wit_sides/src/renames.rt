//! Names that an `include` changes.

ghost use Rattle.std.specs.Prelude.{◌≡◌, ◌<◌, string_bytes, length, slice_get, Some, IfOk};
ghost use Rattle.wit_types.specs.declared.world.IncludeName.{IncludeName};
ghost use Rattle.wit_sides.specs.Renames as spec;

use name_places::FirstPlaces;
use std::alloc::{AllocError, Global};
use std::marker::Model;
use wit_types::{Function, IncludeName, WorldItem, WorldKey};

/// The names that an `include` changes, each to what the first that names it says (WIT, Item: `include`).
#[derive(Drop)]
pub struct Renames<'a> {
    places: FirstPlaces<'a>,
    names: &'a [IncludeName],
}

impl<'a> Model for Renames<'a> {
    ghost use Rattle.std.specs.Prelude.{◌≡◌, List};
    ghost use Rattle.wit_types.specs.declared.world.IncludeName.{IncludeName};
    ghost use Rattle.wit_sides.specs.Renames.{sources};

    ghost Value = { List IncludeName };

    ghost view = { λ r. r.names.now };

    ghost invariant = { λ r. r.places ≡ sources r.names.now };
}

/// What the name at a place is changed to.
fn target(names: &[IncludeName], place: usize) -> &str
    requires { place < length names.now }
    ensures { (n : IncludeName) × (slice_get names.now place ≡ Some n) × (result.now ≡ string_bytes n.as_) }
{
    names[place].as_.as_str()
}

/// A function under another name.
fn with_name(function: Function, name: String) -> Function
    ensures { result ≡ record function { name = name } }
{
    let mut named = function;
    named.name = name;
    named
}

impl<'a> Renames<'a> {
    /// The names of an `include`.
    pub fn new(alloc: Global, names: &'a [IncludeName]) -> Result<Renames<'a>, AllocError>
        ensures { IfOk result (λ r. r ≡ names.entry.now) }
    {
        let mut places = FirstPlaces::new(alloc);
        for name in names {
            places.push(name.name.as_str())?;
        }
        Ok(Renames { places, names })
    }

    /// What a plain name is called.
    fn through<'b>(&'b self, name: &'b str) -> &'b str
        ensures { result.now ≡ spec.through self.now name.now }
    {
        match self.places.first(name) {
            Some(place) => target(self.names, place),
            None => name,
        }
    }

    /// What a function of a resource is called, by its name behind the mark.
    fn renamed_function(&self, alloc: Global, mark: &str, name: &str) -> Result<String, AllocError>
        ensures { IfOk result (λ s. spec.IsRenamedFunction self.now mark.now name.now (string_bytes s)) }
    {
        match name.split_once('.') {
            Some((resource, item)) => {
                let resource = self.through(resource);
                format!(in alloc; "{mark}{resource}.{item}")
            }
            None => format!(in alloc; "{mark}{name}"),
        }
    }

    /// What an item of a world is called: functions of a resource follow their resource.
    pub fn renamed(&self, alloc: Global, name: &str) -> Result<String, AllocError>
        ensures { IfOk result (λ s. spec.IsRenamed self.now name.now (string_bytes s)) }
    {
        if let Some(resource) = name.strip_prefix("[constructor]") {
            let resource = self.through(resource);
            return format!(in alloc; "[constructor]{resource}");
        }
        if let Some(function) = name.strip_prefix("[method]") {
            return self.renamed_function(alloc, "[method]", function);
        }
        if let Some(function) = name.strip_prefix("[static]") {
            return self.renamed_function(alloc, "[static]", function);
        }
        String::from_str(alloc, self.through(name))
    }

    /// A key of what a world imports or exports: a plain name is changed, an interface stays.
    fn renamed_key(&self, alloc: Global, key: WorldKey) -> Result<WorldKey, AllocError>
        ensures { IfOk result (spec.IsRenamedKey self.now key) }
    {
        match key {
            WorldKey::Name(name) => Ok(WorldKey::Name(self.renamed(alloc, name.as_str())?)),
            WorldKey::Interface(id) => Ok(WorldKey::Interface(id)),
        }
    }

    /// What a world imports or exports: a function has its name of its own, which is changed with its key.
    fn renamed_item(&self, alloc: Global, item: WorldItem) -> Result<WorldItem, AllocError>
        ensures { IfOk result (spec.IsRenamedItem self.now item) }
    {
        match item {
            WorldItem::Function(function) => {
                let name = self.renamed(alloc, function.name.as_str())?;
                Ok(WorldItem::Function(with_name(function, name)))
            }
            other => Ok(other),
        }
    }

    /// One side of an included world, with its plain names changed.
    pub fn renamed_side(
        &self,
        alloc: Global,
        entries: Vec<(WorldKey, WorldItem)>,
    ) -> Result<Vec<(WorldKey, WorldItem)>, AllocError>
        ensures { IfOk result (λ found. spec.AreRenamed self.now entries.items found.items) }
    {
        let mut found = Vec::with_capacity(alloc, entries.len())?;
        for (key, item) in entries {
            let entry = (
                self.renamed_key(alloc, key)?,
                self.renamed_item(alloc, item)?,
            );
            found.push(entry)?;
        }
        Ok(found)
    }
}
