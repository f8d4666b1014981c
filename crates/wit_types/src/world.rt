//! Worlds.

ghost use Rattle.std.specs.Prelude.{◌≡◌};
ghost use Rattle.wit_types.specs.World.{HasItsType, IsStabilityOf, span_of};

use crate::Span;
use crate::arena::{Arena, Stored};
use crate::docs::Docs;
use crate::function::Function;
use crate::id::{InterfaceId, PackageId, TypeId, WorldId, WorldTag};
use crate::interface::TypeDef;
use crate::stability::Stability;
use crate::world_key::WorldKey;
use indexmap::IndexMap;

/// A world (WIT, Item: `world`).
#[derive(Drop)]
pub struct World {
    /// Its name.
    pub name: String,
    /// What it imports, in order.
    pub imports: IndexMap<WorldKey, WorldItem>,
    /// What it exports, in order.
    pub exports: IndexMap<WorldKey, WorldItem>,
    /// The package that it is of, once that is known.
    pub package: Option<PackageId>,
    /// Its docs.
    pub docs: Docs,
    /// How stable it is.
    pub stability: Stability,
    /// The worlds that it includes and that are not put in yet.
    pub includes: Vec<WorldInclude>,
    /// Where it stands.
    pub span: Span,
}

impl Stored for World {
    type Tag = WorldTag;
}

/// A world that another includes (WIT, Item: `include`).
#[derive(Clone, Drop)]
pub struct WorldInclude {
    /// How stable that is.
    pub stability: Stability,
    /// The world.
    pub id: WorldId,
    /// Which of its names are changed.
    pub names: Vec<IncludeName>,
    /// Where it stands.
    pub span: Span,
}

/// A name that is changed where its world is included: `name as as_`.
#[derive(Clone, Drop)]
pub struct IncludeName {
    /// The name in the included world.
    pub name: String,
    /// The name in the world that includes it.
    pub as_: String,
}

/// What a world imports or exports (WIT, Item: `world`).
#[derive(Clone, Drop)]
pub enum WorldItem {
    /// An interface.
    Interface {
        /// The interface.
        id: InterfaceId,
        /// How stable it is here.
        stability: Stability,
        /// Where it stands here.
        span: Span,
    },
    /// A function.
    Function(Function),
    /// A type.
    TypeItem {
        /// The type.
        id: TypeId,
        /// Where it stands here.
        span: Span,
    },
}

impl WorldItem {
    /// How stable the item is: of a type, which is looked up among these, its own stability.
    pub fn stability<'a>(&'a self, types: &'a Arena<TypeDef>) -> &'a Stability
        requires { HasItsType types.now self.now }
        ensures { IsStabilityOf types.now self.now result.now }
    {
        match self {
            WorldItem::Interface { stability, .. } => stability,
            WorldItem::Function(function) => &function.stability,
            WorldItem::TypeItem { id, .. } => &types.get(*id).stability,
        }
    }

    /// Where the item stands.
    pub fn span(&self) -> Span
        ensures { result ≡ span_of self.now }
    {
        match self {
            WorldItem::Interface { span, .. } | WorldItem::TypeItem { span, .. } => *span,
            WorldItem::Function(function) => function.span,
        }
    }
}
