//! Functions.

ghost use Rattle.std.specs.Prelude.{◌≡◌, ◌↔◌, string_bytes, IsTrue};
ghost use Rattle.std.specs.Borrow.{sem};
ghost use Rattle.wit_types.specs.Lending.{LendsResource, held};
ghost use Rattle.wit_types.specs.Function.{IsBehindDot, IsBehindMark, IsItemName, IsAsync, resource_of, left_of, types_of};

use crate::Span;
use crate::docs::Docs;
use crate::id::TypeId;
use crate::kind::Type;
use crate::stability::Stability;

/// A function (WIT, Item: `func`).
#[derive(Clone, Drop)]
pub struct Function {
    /// Its name; that of a method `[method]resource.name`, of a static function `[static]resource.name`, of a constructor
    /// `[constructor]resource`.
    pub name: String,
    /// Whose it is, and whether it is asynchronous.
    pub kind: FunctionKind,
    /// Its parameters, in order.
    pub params: Vec<Param>,
    /// The type of its result, if it has one.
    pub result: Option<Type>,
    /// Its docs.
    pub docs: Docs,
    /// How stable it is.
    pub stability: Stability,
    /// Where it stands.
    pub span: Span,
}

/// A parameter of a function.
#[derive(Clone, Drop)]
pub struct Param {
    /// Its name.
    pub name: String,
    /// Its type.
    pub ty: Type,
    /// Where it stands.
    pub span: Span,
}

/// Whose a function is, and whether it is asynchronous (WIT, Items: `func` and `resource`).
#[derive(Clone, Copy, Debug, PartialEq, Eq)]
pub enum FunctionKind {
    /// Of no resource.
    Freestanding,
    /// Of no resource, and asynchronous.
    AsyncFreestanding,
    /// A method of a resource.
    Method(TypeId),
    /// An asynchronous method of a resource.
    AsyncMethod(TypeId),
    /// A static function of a resource.
    Static(TypeId),
    /// An asynchronous static function of a resource.
    AsyncStatic(TypeId),
    /// A constructor of a resource.
    Constructor(TypeId),
}

impl FunctionKind {
    /// Whether it is asynchronous.
    pub fn is_async(&self) -> bool
        ensures { IsTrue result ↔ IsAsync self.now }
    {
        matches!(
            self,
            FunctionKind::AsyncFreestanding
                | FunctionKind::AsyncMethod(_)
                | FunctionKind::AsyncStatic(_)
        )
    }

    /// The resource that it is of, if it is of one.
    pub fn resource(&self) -> Option<TypeId>
        ensures { result ≡ resource_of self.now }
    {
        match self {
            FunctionKind::Freestanding | FunctionKind::AsyncFreestanding => None,
            FunctionKind::Method(id)
            | FunctionKind::AsyncMethod(id)
            | FunctionKind::Static(id)
            | FunctionKind::AsyncStatic(id)
            | FunctionKind::Constructor(id) => Some(*id),
        }
    }

    /// The same, to be changed in place.
    pub fn resource_mut(&mut self) -> Option<&mut TypeId>
        ensures* lends { sem 𝓛 (LendsResource self.entry result) }
        ensures value { held result ≡ resource_of self.old }
    {
        match self {
            FunctionKind::Method(id) => Some(id),
            FunctionKind::AsyncMethod(id) => Some(id),
            FunctionKind::Static(id) => Some(id),
            FunctionKind::AsyncStatic(id) => Some(id),
            FunctionKind::Constructor(id) => Some(id),
            _ => None,
        }
    }
}

impl Function {
    /// The name without what says whose the function is: of a method or a static function what stands behind the first dot
    /// of its name, of a constructor what stands behind `[constructor]`, which is its resource's name; of any other, and
    /// where there is no dot or no `[constructor]`, the whole name.
    pub fn item_name(&self) -> &str
        ensures { IsItemName self.now.kind (string_bytes self.now.name) result.now }
    {
        let name = self.name.as_str();
        match self.kind {
            FunctionKind::Freestanding | FunctionKind::AsyncFreestanding => name,
            FunctionKind::Constructor(_) => behind_mark(name),
            _ => behind_dot(name),
        }
    }

    /// The types of its parameters in order, and then that of its result, if it has one.
    pub fn parameter_and_result_types(&self) -> FunctionTypes<'_>
        ensures { left_of result ≡ types_of self.now }
    {
        FunctionTypes {
            params: self.params.as_slice(),
            result: self.result,
        }
    }
}

/// What stands behind the first dot, or all where there is none.
fn behind_dot(name: &str) -> &str
    ensures { IsBehindDot name.entry.now result.now }
{
    match name.split_once('.') {
        Some((_, item)) => item,
        None => name,
    }
}

/// What stands behind `[constructor]`, or all where that isn't in front.
fn behind_mark(name: &str) -> &str
    ensures { IsBehindMark name.entry.now result.now }
{
    match name.strip_prefix("[constructor]") {
        Some(item) => item,
        None => name,
    }
}

/// The types of a function's parameters and result that are still to come.
#[derive(Clone, Copy)]
pub struct FunctionTypes<'a> {
    params: &'a [Param],
    result: Option<Type>,
}

impl<'a> Iterator for FunctionTypes<'a> {
    type Item = Type;

    ghost use Rattle.std.specs.Iterator.{YieldsFirst, item_count};
    ghost use Rattle.wit_types.specs.Function.{left_of};

    ghost next_gives = { YieldsFirst left_of };

    ghost remaining = { item_count left_of };

    fn next(&mut self) -> Option<Type> {
        if let Some((first, others)) = self.params.split_first() {
            self.params = others;
            return Some(first.ty);
        }
        let result = self.result;
        self.result = None;
        result
    }
}
