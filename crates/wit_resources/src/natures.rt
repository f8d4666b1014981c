//! What is known of types.

ghost use Rattle.std.specs.Prelude.{◌≡◌, ◌++◌, List, [], Some, take, OnOk};
ghost use Rattle.wit_resources.specs.declared.natures.Nature.{Nature};
ghost use Rattle.wit_types.specs.declared.kind.«Type».TheVariants.{Id};
ghost use Rattle.wit_resources.specs.Natures as spec;

use std::alloc::{AllocError, Global};
use std::marker::Model;
use wit_arena::Types;
use wit_types::{Arena, Case, Field, Handle, Type, TypeDef, TypeDefKind, TypeId};

/// What is known of a type. A type of another package may be a resource, and is taken for one.
#[derive(Clone, Copy, Debug, PartialEq, Eq)]
pub struct Nature {
    /// Whether it is a resource, by whatever names.
    pub is_resource: bool,
    /// Whether a `borrow` stands in it, by whatever names.
    pub holds_borrow: bool,
    /// Whether any bits in as much memory as a value takes are a value, as far as bits go (Canonical ABI, Loading): of
    /// integers, floating-point numbers and handles, and of what has these alone side by side.
    pub all_bits_valid: bool,
}

/// What is known of the types of an arena, by their ids.
#[derive(Drop)]
pub struct Natures {
    known: Vec<Nature>,
}

impl Model for Natures {
    ghost use Rattle.std.specs.Prelude.{List};
    ghost use Rattle.wit_resources.specs.declared.natures.Nature.{Nature};

    ghost Value = { List Nature };

    ghost view = { λ n. n.known.items };
}

/// Of a type that is no resource.
fn made_of(holds_borrow: bool, all_bits_valid: bool) -> Nature
    ensures { result ≡ spec.made_of holds_borrow all_bits_valid }
{
    Nature {
        is_resource: false,
        holds_borrow,
        all_bits_valid,
    }
}

/// Of a type that is no resource and not any bits of which are a value.
fn holding(holds_borrow: bool) -> Nature
    ensures { result ≡ spec.holding holds_borrow }
{
    made_of(holds_borrow, false)
}

/// What is known of a type where it is used.
fn of_ref(known: &[Nature], ty: &Type) -> Nature
    ensures { result ≡ spec.ref_nature known.now ty.now }
{
    match ty {
        Type::Id(id) => match known.get(id.index()) {
            Some(nature) => *nature,
            None => holding(false),
        },
        Type::Bool | Type::Char | Type::String | Type::ErrorContext => holding(false),
        _ => made_of(false, true),
    }
}

/// Whether a `borrow` stands in a part that may be missing.
fn part_holds(known: &[Nature], part: &Option<Type>) -> bool
    ensures { result ≡ spec.part_holds known.now part.now }
{
    match part {
        Some(ty) => of_ref(known, ty).holds_borrow,
        None => false,
    }
}

/// Whether a `borrow` stands in a field.
fn fields_hold(known: &[Nature], fields: &[Field]) -> bool
    ensures { result ≡ spec.one_holds known.now (λ f. Some f.ty) fields.now }
{
    fields
        .iter()
        .any(|field| of_ref(known, &field.ty).holds_borrow)
}

/// Whether a `borrow` stands in one of the types.
fn types_hold(known: &[Nature], types: &[Type]) -> bool
    ensures { result ≡ spec.one_holds known.now (λ t. Some t) types.now }
{
    types.iter().any(|ty| of_ref(known, ty).holds_borrow)
}

/// Whether any bits are a value of each field.
fn fields_are_valid(known: &[Nature], fields: &[Field]) -> bool
    ensures { result ≡ spec.all_valid known.now (λ f. Some f.ty) fields.now }
{
    fields
        .iter()
        .all(|field| of_ref(known, &field.ty).all_bits_valid)
}

/// Whether any bits are a value of each of the types.
fn types_are_valid(known: &[Nature], types: &[Type]) -> bool
    ensures { result ≡ spec.all_valid known.now (λ t. Some t) types.now }
{
    types.iter().all(|ty| of_ref(known, ty).all_bits_valid)
}

/// Whether a `borrow` stands in a case.
fn cases_hold(known: &[Nature], cases: &[Case]) -> bool
    ensures { result ≡ spec.one_holds known.now (λ c. c.ty) cases.now }
{
    cases.iter().any(|case| part_holds(known, &case.ty))
}

/// What is known of a type by what it is.
fn of_kind(known: &[Nature], kind: &TypeDefKind) -> Nature
    ensures { result ≡ spec.kind_nature known.now kind.now }
{
    match kind {
        TypeDefKind::Resource | TypeDefKind::Unknown => Nature {
            is_resource: true,
            holds_borrow: false,
            all_bits_valid: true,
        },
        TypeDefKind::Handle(Handle::Borrow(_)) => made_of(true, true),
        TypeDefKind::Handle(Handle::Own(_)) => made_of(false, true),
        TypeDefKind::Flags(_) | TypeDefKind::Enum(_) => holding(false),
        TypeDefKind::Record(record) => {
            let fields = record.fields.as_slice();
            made_of(fields_hold(known, fields), fields_are_valid(known, fields))
        }
        TypeDefKind::Tuple(tuple) => {
            let types = tuple.types.as_slice();
            made_of(types_hold(known, types), types_are_valid(known, types))
        }
        TypeDefKind::Variant(variant) => holding(cases_hold(known, variant.cases.as_slice())),
        TypeDefKind::Option(ty) | TypeDefKind::List(ty) => holding(of_ref(known, ty).holds_borrow),
        TypeDefKind::FixedLengthList(ty, _) => {
            let element = of_ref(known, ty);
            made_of(element.holds_borrow, element.all_bits_valid)
        }
        TypeDefKind::Result(parts) => {
            holding(part_holds(known, &parts.ok) || part_holds(known, &parts.err))
        }
        TypeDefKind::Future(part) | TypeDefKind::Stream(part) => holding(part_holds(known, part)),
        TypeDefKind::Alias(ty) => of_ref(known, ty),
    }
}

impl Natures {
    /// Of no types.
    pub fn new(alloc: Global) -> Natures
        ensures { result ≡ [] }
    {
        Natures {
            known: Vec::new(alloc),
        }
    }

    /// What is known of the type under an id; of an id that has none yet, what is known of a plain type.
    pub fn get(&self, id: TypeId) -> Nature
        ensures { result ≡ spec.ref_nature self.now (Id id) }
    {
        match self.known.get(id.index()) {
            Some(nature) => *nature,
            None => holding(false),
        }
    }

    /// Whether any bits in as much memory as a value of a type takes are one, as far as bits go.
    pub fn all_bits_valid(&self, ty: &Type) -> bool
        ensures { result ≡ (spec.ref_nature self.now ty.now).all_bits_valid }
    {
        of_ref(self.known.as_slice(), ty).all_bits_valid
    }

    /// Whether a `borrow` stands in a part that may be missing.
    pub fn holds_borrow(&self, part: &Option<Type>) -> bool
        ensures { result ≡ spec.part_holds self.now part.now }
    {
        part_holds(self.known.as_slice(), part)
    }

    /// Adds what is known of types that come behind those. Where memory is wanting, some of them may be known.
    pub fn extend(&mut self, defs: &[TypeDef]) -> Result<(), AllocError>
        ensures ok { OnOk result (self.new ≡ spec.natures_from self.old defs.now) }
        ensures grown { (more : List Nature) × (self.new ≡ self.old ++ more) }
    {
        for def in defs {
            let nature = of_kind(self.known.as_slice(), &def.kind);
            self.known.push(nature)?;
        }
        Ok(())
    }

    /// Forgets the last types, so that this many are left at most.
    pub fn truncate(&mut self, len: usize)
        ensures { self.new ≡ take len self.old }
    {
        self.known.truncate(len);
    }

    /// Adds what is known of the types under those ids that came since. Where memory is wanting, some of them
    /// may be known.
    pub fn follow(&mut self, types: &Arena<TypeDef>) -> Result<(), AllocError>
        requires { spec.AreOfFirst types.now self.old }
        ensures ok { OnOk result (self.new ≡ spec.natures types.now) }
        ensures grown { (more : List Nature) × (self.new ≡ self.old ++ more) }
    {
        for index in self.known.as_slice().len()..types.len() {
            let def = types.get(TypeId::from_index(index));
            let nature = of_kind(self.known.as_slice(), &def.kind);
            self.known.push(nature)?;
        }
        Ok(())
    }

    /// Adds what is known of the types of the arena that came since.
    pub fn catch_up(&mut self, types: &Types) -> Result<(), AllocError>
        requires { spec.AreOfFirst types.now self.old }
        ensures { OnOk result (self.new ≡ spec.natures types.now) }
    {
        for index in self.known.as_slice().len()..types.len() {
            let def = types.get(TypeId::from_index(index));
            let nature = of_kind(self.known.as_slice(), &def.kind);
            self.known.push(nature)?;
        }
        Ok(())
    }
}
