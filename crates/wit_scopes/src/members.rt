//! What interfaces declare.

ghost use Rattle.std.specs.Prelude.{◌≡◌};

use crate::paths::Target;
use std::alloc::AllocError;
use std::rc::Rc;
use wit_syntax::{Attribute, Docs, Func, Id, Span, TypeDefKind};

/// What stands in front of an item.
#[derive(Drop)]
pub struct Front<'a> {
    /// The docs.
    pub docs: Docs<'a>,
    /// The attributes.
    pub attributes: Vec<Attribute<'a>>,
}

/// What a name of a scope is (WIT, Item: `interface`, Use, Item: `resource`).
#[derive(Drop)]
pub enum MemberKind<'a> {
    /// A type that is taken from an interface, where it has that name.
    Used {
        /// The interface.
        from: Target<'a>,
        /// The name there.
        name: Id<'a>,
    },
    /// A definition of a type; the functions of a resource are members of their own, and don't stand in it.
    Defined(Rc<TypeDefKind<'a>>),
    /// A function.
    Function(Rc<Func<'a>>),
    /// A method of a resource.
    Method {
        /// The resource.
        resource: Id<'a>,
        /// The function.
        func: Rc<Func<'a>>,
    },
    /// A static function of a resource.
    Static {
        /// The resource.
        resource: Id<'a>,
        /// The function.
        func: Rc<Func<'a>>,
    },
    /// A constructor of a resource.
    Constructor {
        /// The resource.
        resource: Id<'a>,
        /// Its parameters, and the type behind the arrow, if there is one.
        func: Rc<Func<'a>>,
    },
}

impl<'a> Clone for MemberKind<'a> {
    ghost use Rattle.wit_scopes.specs.View.{member_kind};

    ghost is_clone = { λ kind copy. member_kind copy ≡ member_kind kind };

    fn clone(&self) -> Result<MemberKind<'a>, AllocError> {
        match self {
            MemberKind::Used { from, name } => Ok(MemberKind::Used {
                from: *from,
                name: *name,
            }),
            MemberKind::Defined(kind) => Ok(MemberKind::Defined(kind.clone()?)),
            MemberKind::Function(func) => Ok(MemberKind::Function(func.clone()?)),
            MemberKind::Method { resource, func } => Ok(MemberKind::Method {
                resource: *resource,
                func: func.clone()?,
            }),
            MemberKind::Static { resource, func } => Ok(MemberKind::Static {
                resource: *resource,
                func: func.clone()?,
            }),
            MemberKind::Constructor { resource, func } => Ok(MemberKind::Constructor {
                resource: *resource,
                func: func.clone()?,
            }),
        }
    }
}

/// A name of a scope and what it is. A clone shares what is written of it.
pub struct Member<'a> {
    /// The name; a constructor's is that of its resource.
    pub name: Id<'a>,
    /// What it is.
    pub kind: MemberKind<'a>,
    /// What stands in front of it; of a name that is used, the attributes of its `use`.
    pub front: Rc<Front<'a>>,
    /// Where it stands.
    pub span: Span,
}

// By hand, so that what lets syntax trees go is proved here alone.
impl Drop for Member<'_> {
    fn drop(self) {
        let Member {
            name: _,
            kind: _,
            front: _,
            span: _,
        } = self;
    }
}

impl<'a> Clone for Member<'a> {
    ghost use Rattle.wit_scopes.specs.View.{member};

    ghost is_clone = { λ of copy. member copy ≡ member of };

    fn clone(&self) -> Result<Member<'a>, AllocError> {
        let kind = self.kind.clone()?;
        let front = self.front.clone()?;
        Ok(Member {
            name: self.name,
            kind,
            front,
            span: self.span,
        })
    }
}
