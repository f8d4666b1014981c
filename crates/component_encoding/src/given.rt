//! What the main module is given.

ghost use Rattle.std.specs.Prelude.{◌≡◌, ◌++◌, ◌∷◌, [], map, OnOk, Some};
ghost use Rattle.component_value_types.specs.Names.{named_value};
ghost use Rattle.component_encoding.specs.Given as spec;

use component_instances::CoreItem;
use component_value_types::Named;
use name_places::FirstPlaces;
use std::alloc::{AllocError, Global};
use wasm_types::ExportKind;

/// Core functions under a module text.
#[derive(Drop)]
pub struct Group<'e> {
    /// The text.
    pub text: &'e str,
    /// The core functions, by their names.
    pub items: Vec<Named<'e, CoreItem>>,
}

/// Core functions by names, under each module text.
#[derive(Drop)]
pub struct Given<'e> {
    /// Where each text is.
    places: FirstPlaces<'e>,
    groups: Vec<Group<'e>>,
    ghost texts: { places ≡ map (λ g. g.text.now) groups.items },
}

/// One core function under a name.
fn named<'e>(name: &'e str, index: u32) -> Named<'e, CoreItem>
    ensures { named_value (λ x. x) result ≡ spec.core_function name.entry.now index }
{
    Named {
        name,
        item: CoreItem {
            kind: ExportKind::Func,
            index,
        },
    }
}

impl<'e> Given<'e> {
    /// Nothing.
    pub fn new(alloc: Global) -> Given<'e>
        ensures { map spec.under_value result.groups.items ≡ [] }
    {
        Given {
            places: FirstPlaces::new(alloc),
            groups: Vec::new(alloc),
        }
    }

    /// Adds a group with one core function.
    fn push(
        &mut self,
        alloc: Global,
        text: &'e str,
        item: Named<'e, CoreItem>,
    ) -> Result<(), AllocError>
        ensures { OnOk result (map spec.under_value self.new.groups.items ≡ map spec.under_value self.old.groups.items ++ record { text = text.entry.now; items = named_value (λ x. x) item.entry ∷ [] } ∷ []) }
    {
        let mut items = Vec::new(alloc);
        items.push(item)?;
        self.groups.reserve(1)?;
        self.places.push(text)?;
        self.groups.push_reserved(Group { text, items });
        Ok(())
    }

    /// Adds a core function under a text, by a name.
    pub fn add(
        &mut self,
        alloc: Global,
        text: &'e str,
        name: &'e str,
        index: u32,
    ) -> Result<(), AllocError>
        ensures { OnOk result (map spec.under_value self.new.groups.items ≡ spec.with_item (map spec.under_value self.old.groups.items) text.entry.now (spec.core_function name.entry.now index)) }
    {
        match self.places.first(text) {
            Some(place) => {
                let group = &mut self.groups[place];
                group.items.push(named(name, index))?;
                Ok(())
            }
            None => self.push(alloc, text, named(name, index)),
        }
    }

    /// The groups.
    pub fn into_groups(self) -> Vec<Group<'e>>
        ensures { result.items ≡ self.entry.groups.items }
    {
        self.groups
    }
}
