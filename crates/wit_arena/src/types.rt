//! The types of an arena under construction.

ghost use Rattle.std.specs.Prelude.{◌≡◌, ◌++◌, ◌∷◌, [], ℕ, ◌<◌, length, IfOk, OnErr, IsSome, None, Some, slice_get};
ghost use Rattle.wit_arena.specs.Shape.{ShapeTree, shape_of, shape_eq, kind_shape};
ghost use Rattle.wit_arena.specs.Arena.{AreKnown, Adds, Interns, IsUnnamed, IsUnique};
ghost use Rattle.indexmap.specs.IndexMap.{get};

use crate::shape::Shape;
use indexmap::IndexMap;
use std::alloc::{AllocError, Global};
use std::marker::Model;
use wit_types::{
    Arena, Docs, Span, Stability, Tuple, Type, TypeDef, TypeDefKind, TypeId, TypeOwner,
};

/// Types that are brought into an arena, each behind those that it is made of. Types without a name that are made of the
/// same are one.
#[derive(Drop)]
pub struct Types {
    arena: Arena<TypeDef>,
    known: IndexMap<Shape, TypeId>,
    alloc: Global,
}

impl Model for Types {
    ghost use Rattle.std.specs.Prelude.{List};
    ghost use Rattle.wit_types.specs.declared.interface.TypeDef.{TypeDef};
    ghost use Rattle.wit_arena.specs.Shape.{shape_eq};
    ghost use Rattle.wit_arena.specs.Arena.{AreKnown};
    ghost use Rattle.indexmap.specs.IndexMap.{get};

    ghost Value = { List TypeDef };

    ghost view = { λ t. t.arena };

    ghost invariant = { λ t. AreKnown t.arena (λ k. get shape_eq t.known k) };
}

/// The type of a shape, where it is known.
fn known_id(known: &IndexMap<Shape, TypeId>, shape: &Shape) -> Option<TypeId>
    ensures { result ≡ get shape_eq known.now shape.now }
{
    known.get(shape).copied()
}

/// What a type of that shape is.
fn kind_of(alloc: Global, shape: &Shape) -> Result<TypeDefKind, AllocError>
    ensures { IfOk result (λ k. kind_shape k ≡ Some (shape_of shape.now)) }
{
    match shape {
        Shape::Handle(handle) => Ok(TypeDefKind::Handle(*handle)),
        Shape::Tuple(types) => {
            let types = types.as_slice().to_vec(alloc)?;
            Ok(TypeDefKind::Tuple(Tuple { types }))
        }
        Shape::Option(ty) => Ok(TypeDefKind::Option(*ty)),
        Shape::Result(result) => Ok(TypeDefKind::Result(*result)),
        Shape::List(ty) => Ok(TypeDefKind::List(*ty)),
        Shape::FixedLengthList(ty, length) => Ok(TypeDefKind::FixedLengthList(*ty, *length)),
        Shape::Future(ty) => Ok(TypeDefKind::Future(*ty)),
        Shape::Stream(ty) => Ok(TypeDefKind::Stream(*ty)),
    }
}

/// A type without a name.
fn unnamed(kind: TypeDefKind, span: Span) -> TypeDef
    ensures span { result.span ≡ span }
    ensures shape { (k : ShapeTree) → kind_shape kind ≡ Some k → IsUnnamed k result }
{
    TypeDef {
        name: None,
        kind,
        owner: TypeOwner::None,
        docs: Docs { contents: None },
        stability: Stability::Unknown,
        span,
    }
}

/// Adds a type of a shape that isn't known; it goes last.
fn remember(
    alloc: Global,
    arena: &mut Arena<TypeDef>,
    known: &mut IndexMap<Shape, TypeId>,
    shape: Shape,
    span: Span,
) -> Result<TypeId, AllocError>
    requires known { AreKnown arena.old (λ k. get shape_eq known.old k) }
    requires absent { get shape_eq known.old shape ≡ None }
    ensures kept { AreKnown arena.new (λ k. get shape_eq known.new k) }
    ensures ok { IfOk result (λ i. Adds arena.old (shape_of shape) span arena.new i) }
    ensures err { OnErr result (arena.new ≡ arena.old) }
{
    let kind = kind_of(alloc, &shape)?;
    known.reserve(1)?;
    let id = arena.alloc(unnamed(kind, span))?;
    known.insert(shape, id).unwrap();
    Ok(id)
}

impl Types {
    /// No types, with room for so many.
    pub fn with_capacity(alloc: Global, capacity: usize) -> Result<Types, AllocError>
        ensures { IfOk result (λ t. t ≡ []) }
    {
        let room = Vec::with_capacity(alloc, capacity)?;
        Ok(Types {
            arena: Arena::from_items(room),
            known: IndexMap::new(alloc),
            alloc,
        })
    }

    /// The allocator.
    pub fn allocator(&self) -> Global {
        self.alloc
    }

    /// Makes room for so many more types.
    pub fn reserve(&mut self, additional: usize) -> Result<(), AllocError>
        ensures { self.new ≡ self.old }
    {
        self.arena.reserve(additional)
    }

    /// How many types there are: each id below that number has one.
    pub fn len(&self) -> usize
        ensures { result ≡ length self.now }
    {
        self.arena.len()
    }

    /// The type under an id.
    pub fn get(&self, id: TypeId) -> &TypeDef
        requires { id < length self.now }
        ensures { slice_get self.now id ≡ Some result.now }
    {
        self.arena.get(id)
    }

    /// The type without a name that is made of that: the one that is there, or a new one, which is said to stand at that
    /// place. Where memory is wanting nothing changes.
    pub fn intern(&mut self, shape: Shape, span: Span) -> Result<Type, AllocError>
        ensures ok { IfOk result (λ r. Interns self.old (shape_of shape) span self.new r) }
        ensures err { OnErr result (self.new ≡ self.old) }
    {
        match known_id(&self.known, &shape) {
            Some(id) => Ok(Type::Id(id)),
            None => {
                let id = remember(self.alloc, &mut self.arena, &mut self.known, shape, span)?;
                Ok(Type::Id(id))
            }
        }
    }

    /// Adds a type that has a name; it goes last. Where memory is wanting nothing changes.
    pub fn define(&mut self, def: TypeDef) -> Result<TypeId, AllocError>
        requires { IsSome def.name }
        ensures ok { IfOk result (λ i. (self.new ≡ self.old ++ def ∷ []) × (i ≡ length self.old)) }
        ensures err { OnErr result (self.new ≡ self.old) }
    {
        self.arena.alloc(def)
    }

    /// The types by their ids.
    pub fn into_arena(self) -> Arena<TypeDef>
        ensures same { result ≡ self }
        ensures unique { IsUnique result }
    {
        let Types { arena, .. } = self;
        arena
    }
}
