//! Constructors that say nothing of their result.

ghost use Rattle.std.specs.Prelude.{◌≡◌, ◌↔◌, ◌≤◌, IsTrue};
ghost use Rattle.wit_types.specs.Shorthand.{IsTarget, IsOwned, IsResource, Stands, IsReference, IsShorthand};

use crate::arena::Arena;
use crate::function::{Function, FunctionKind};
use crate::id::TypeId;
use crate::interface::TypeDef;
use crate::kind::{Handle, Type, TypeDefKind};

impl Function {
    /// Whether it is a constructor whose result, by its aliases, is the own reference of its resource, as it is where the
    /// text says nothing of the result (WIT, Item: `resource`). Where a value is given, the resource itself stands for that
    /// reference, too (WIT, Types). Types are looked up among these, and an alias stands for an earlier type alone.
    pub fn is_constructor_shorthand(&self, types: &Arena<TypeDef>) -> bool
        ensures { IsTrue result ↔ IsShorthand types.now self.now }
    {
        let FunctionKind::Constructor(resource) = self.kind else {
            return false;
        };
        let Some(result) = self.result else {
            return false;
        };
        let Type::Id(id) = result else {
            return false;
        };
        is_reference(types, id, meaning_of(types, resource))
    }
}

/// The earlier type that a type is another name of.
fn target_of(types: &Arena<TypeDef>, id: TypeId) -> Option<TypeId>
    ensures { IsTarget types.now id result }
{
    if id.index() >= types.len() {
        return None;
    }
    match types.get(id).kind {
        TypeDefKind::Alias(Type::Id(target)) if target < id => Some(target),
        _ => None,
    }
}

/// The resource of which a type is the own reference.
fn owned_by(types: &Arena<TypeDef>, id: TypeId) -> Option<TypeId>
    ensures { IsOwned types.now id result }
{
    if id.index() >= types.len() {
        return None;
    }
    match types.get(id).kind {
        TypeDefKind::Handle(Handle::Own(resource)) => Some(resource),
        _ => None,
    }
}

/// Whether a type is a resource.
fn is_resource(types: &Arena<TypeDef>, id: TypeId) -> bool
    ensures { IsTrue result ↔ IsResource types.now id }
{
    id.index() < types.len() && matches!(types.get(id).kind, TypeDefKind::Resource)
}

/// Whether a type stands for the own reference of a resource where a value is given.
fn is_reference(types: &Arena<TypeDef>, id: TypeId, resource: TypeId) -> bool
    ensures { IsTrue result ↔ IsReference types.now id resource }
{
    let meant = meaning_of(types, id);
    match owned_by(types, meant) {
        Some(owned) => meaning_of(types, owned) == resource,
        None => meant == resource && is_resource(types, meant),
    }
}

/// The type that a type stands for by its aliases.
fn meaning_of(types: &Arena<TypeDef>, id: TypeId) -> TypeId
    ensures { Stands types.now id result }
{
    let mut at = id;
    while let Some(target) = target_of(types, at) {
        at = target;
    }
    at
}
