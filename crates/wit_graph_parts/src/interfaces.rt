//! The interfaces of a graph.

ghost use Rattle.std.specs.Prelude.{◌≡◌, ◌∷◌, [], ◌<◌, String, ℕ, Some, length, take, map, slice_get, IfOk, OnOk};
ghost use Rattle.std.specs.declared.alloc.Global.{Global};
ghost use Rattle.wit_order.specs.Order.{Has};
ghost use Rattle.wit_types.specs.declared.interface.Interface.{Interface};
ghost use Rattle.wit_reach.specs.Types.{AreTypesBackward, AreTypesThere};
ghost use Rattle.wit_graph_parts.specs.Interfaces as spec;

use std::alloc::{AllocError, Global};
use std::marker::Model;
use wit_graph_worlds::Interfaces as Lent;
use wit_reach::interface_deps;
use wit_types::{Arena, Interface, InterfaceId, TypeDef};

/// Interfaces by their ids, and of which of them each uses types.
#[derive(Drop)]
pub struct Interfaces {
    all: Arena<Interface>,
    uses: Vec<Vec<InterfaceId>>,
}

impl Model for Interfaces {
    ghost use Rattle.std.specs.Coded.{codes};
    ghost use Rattle.wit_types.specs.contracts.interface.Interface as one;
    ghost use Rattle.wit_graph_parts.specs.Interfaces.{Interfaces};

    ghost Value = { Interfaces };

    ghost coded = { Prim.hlevel (codes, one.the_row.coded) };

    ghost view = { λ i. record { all = i.all; uses = i.uses.items } };
}

impl Interfaces {
    /// No interfaces.
    pub fn new(alloc: Global) -> Interfaces
        ensures { result ≡ record { all = []; uses = [] } }
    {
        Interfaces {
            all: Arena::new(alloc),
            uses: Vec::new(alloc),
        }
    }

    /// The interfaces.
    pub fn all(&self) -> &Arena<Interface>
        ensures { result.now ≡ self.now.all }
    {
        &self.all
    }

    /// For each, of which interfaces it uses types.
    pub fn uses(&self) -> &[Vec<InterfaceId>]
        ensures { result.now ≡ self.now.uses }
    {
        self.uses.as_slice()
    }

    /// Takes back the last interfaces, so that this many are left at most.
    pub fn truncate(&mut self, len: usize)
        ensures { self.new ≡ record { all = take len self.old.all; uses = take len self.old.uses } }
    {
        self.all.truncate(len);
        self.uses.truncate(len);
    }

    /// Puts an interface behind the others. Where memory is wanting, it may be there without its row.
    fn push(
        &mut self,
        alloc: Global,
        types: &Arena<TypeDef>,
        interface: Interface,
    ) -> Result<(), AllocError>
        requires backward { AreTypesBackward types.now }
        requires there { AreTypesThere types.now (map (λ e. e.1) interface.types.entries) }
        ensures ok { OnOk result (spec.AreAdded types.now (interface ∷ []) self.old self.new) }
        ensures grown { spec.HasGrown self.old self.new }
    {
        let row = interface_deps(alloc, types, &interface)?;
        self.all.alloc(interface)?;
        self.uses.push(row)?;
        Ok(())
    }

    /// Puts interfaces behind the others. Where memory is wanting, some of them may be there.
    pub fn extend(
        &mut self,
        alloc: Global,
        types: &Arena<TypeDef>,
        interfaces: Vec<Interface>,
    ) -> Result<(), AllocError>
        requires backward { AreTypesBackward types.now }
        requires there { (d : Interface) → Has interfaces.items d → AreTypesThere types.now (map (λ (e : String Global × ℕ). e.1) d.types.entries) }
        ensures ok { OnOk result (spec.AreAdded types.now interfaces.items self.old self.new) }
        ensures grown { spec.HasGrown self.old self.new }
    {
        for interface in interfaces {
            self.push(alloc, types, interface)?;
        }
        Ok(())
    }
}

/// The interfaces as those lend them who add worlds.
pub fn lent(interfaces: &Interfaces) -> Lent<'_>
    ensures all { result.interfaces.now ≡ interfaces.now.all }
    ensures uses { result.uses.now ≡ interfaces.now.uses }
{
    Lent {
        interfaces: interfaces.all(),
        uses: interfaces.uses(),
    }
}
