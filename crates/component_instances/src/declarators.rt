//! Types of instances.

ghost use Rattle.std.specs.Prelude.{◌≡◌, ◌++◌, map, OnOk, IfErr, Err};
ghost use Rattle.std.specs.List.{flat_map, All};
ghost use Rattle.binary_grammar.specs.Fault.{Gives};
ghost use Rattle.binary_grammar.specs.Syntax.{meaning, bytes, IsTyped};
ghost use Rattle.component_instances.specs.Declarators as spec;

use binary_grammar::{
    Part, ReadError, Reader, Rule, Step, WriteFault, broken_at, growing_of, put_number,
};
use component_definitions::{
    Alias, ComponentSort, DefinedType, Description, IndexSpace, Scope, Sort, described_sort,
    extern_name, inside, put_extern_name, with_one,
};
use distinct_names::Names;

/// What an instance type says (Component Model Binary, Type Definitions, Instance Declarators).
#[derive(Debug, Drop)]
pub enum Declarator<'a> {
    /// A type.
    Type_(DefinedType<'a>),
    /// Another name for what is there already.
    Alias(Alias<'a>),
    /// A function or a type that an instance exports, under a name that no other has.
    Export {
        /// The name.
        name: &'a str,
        /// What it is.
        description: Description,
    },
}

/// The type of an instance.
#[derive(Debug, Drop)]
pub struct InstanceType<'a> {
    /// What it says, each where those before it are known.
    pub declarators: Vec<Declarator<'a>>,
}

/// Whether an instance may export it.
fn is_exported(description: Description) -> bool
    ensures { result ≡ spec.is_exported description }
{
    match description {
        Description::Instance(_) => false,
        Description::Function(_) | Description::Equal(_) | Description::Resource => true,
    }
}

/// What is known where a declarator stands.
#[derive(Drop)]
pub struct Declared<'a> {
    scope: Scope,
    names: Names<'a>,
}

impl<'a> Declared<'a> {
    /// An export, under a new name.
    fn export(&self, from: &mut Reader<'a>) -> Result<Declarator<'a>, ReadError>
        ensures gives { Gives (λ x. (spec.declarator_value x, from.new.left)) result ((meaning (spec.declarator_behind spec.an_export) (spec.declared self.now)).read from.old.left) }
        ensures end { from.new.end ≡ from.old.end }
    {
        let at = from.left();
        let name = extern_name(from)?;
        if !self.names.is_new(name) {
            return Err(broken_at(Rule::Duplicate, at));
        }
        let at = from.left();
        let description = Description::read(self.scope, from)?;
        if !is_exported(description) {
            return Err(broken_at(Rule::Tag, at));
        }
        Ok(Declarator::Export { name, description })
    }

    /// A declarator.
    #[tactic(auto, unfolding(crate::specs::Declarators::declarator, crate::specs::Declarators::declarator_form_of))]
    fn declarator(&self, from: &mut Reader<'a>) -> Result<Declarator<'a>, ReadError>
        ensures gives { Gives (λ x. (spec.declarator_value x, from.new.left)) result ((meaning spec.declarator (spec.declared self.now)).read from.old.left) }
        ensures end { from.new.end ≡ from.old.end }
    {
        match from.byte()? {
            1 => Ok(Declarator::Type_(DefinedType::read(self.scope, from)?)),
            2 => Ok(Declarator::Alias(Alias::read(self.scope, from)?)),
            4 => self.export(from),
            _ => Err(from.broken(Rule::Tag)),
        }
    }

    /// Adds a declarator.
    fn add(&mut self, item: &Declarator<'a>) -> Result<(), ReadError>
        ensures ok { OnOk result (spec.declared self.new ≡ spec.declared_with (spec.declared self.old) (spec.declarator_value item.now)) }
        ensures memory { IfErr result (λ e. e ≡ ReadError.Memory) }
    {
        let space = IndexSpace::Of(item.sort());
        self.scope = with_one(self.scope, space).ok_or(ReadError::Memory)?;
        if let Declarator::Export { name, .. } = item {
            self.names.insert(name)?;
        }
        Ok(())
    }
}

impl<'a> Step<'a> for Declarator<'a> {
    type State = Declared<'a>;

    ghost use Rattle.component_instances.specs.Declarators as spec;

    ghost Value = { spec.DeclaratorValue };

    ghost Known = { spec.DeclaredValue };

    ghost grow = { spec.declared_with };

    ghost which = { λ _. 0 };

    ghost next = { λ _. spec.declarator };

    ghost known = { spec.declared };

    ghost value = { spec.declarator_value };

    ghost stands = { λ _ _. Unit {0} };

    fn read_behind(
        _kind: u8,
        state: &mut Declared<'a>,
        from: &mut Reader<'a>,
    ) -> Result<Declarator<'a>, ReadError> {
        let item = state.declarator(from)?;
        state.add(&item)?;
        Ok(item)
    }
}

impl<'a> Declarator<'a> {
    /// The sort of which it takes the next index.
    fn sort(&self) -> Sort
        ensures { result ≡ spec.declared_sort (spec.declarator_value self.now) }
    {
        match self {
            Declarator::Type_(_) => Sort::Component(ComponentSort::Type_),
            Declarator::Alias(alias) => alias.sort(),
            Declarator::Export { description, .. } => {
                Sort::Component(described_sort(*description))
            }
        }
    }

    /// Adds the shortest bytes of the declarator. Answers `TooLarge` only where its names, lengths and counts don't all fit.
    #[tactic(auto, unfolding(crate::specs::Declarators::declarator, crate::specs::Declarators::declarator_form_of))]
    fn put(&self, out: &mut Vec<u8>) -> Result<(), WriteFault>
        ensures bytes { OnOk result (out.new.items ≡ out.old.items ++ bytes spec.declarator (spec.declarator_value self.now)) }
        ensures typed { OnOk result (IsTyped spec.declarator (spec.declarator_value self.now)) }
        ensures large { result ≡ Err WriteFault.TooLarge → IsTyped spec.declarator (spec.declarator_value self.now) → ⊥ }
    {
        match self {
            Declarator::Type_(ty) => {
                out.push(1)?;
                ty.put(out)?;
            }
            Declarator::Alias(alias) => {
                out.push(2)?;
                alias.put(out)?;
            }
            Declarator::Export { name, description } => {
                out.push(4)?;
                put_extern_name(name, out)?;
                description.put(out)?;
            }
        }
        Ok(())
    }
}

fn put_each(items: &[Declarator<'_>], out: &mut Vec<u8>) -> Result<(), WriteFault>
    ensures bytes { OnOk result (out.new.items ≡ out.old.items ++ flat_map (bytes spec.declarator) (map spec.declarator_value items.now)) }
    ensures typed { OnOk result (All (λ x. IsTyped spec.declarator (spec.declarator_value x)) items.now) }
    ensures large { result ≡ Err WriteFault.TooLarge → All (λ x. IsTyped spec.declarator (spec.declarator_value x)) items.now → ⊥ }
{
    for item in items {
        item.put(out)?;
    }
    Ok(())
}

impl<'a> Part<'a> for InstanceType<'a> {
    type Context = Scope;

    ghost use Rattle.std.specs.Prelude.{List};
    ghost use Rattle.component_definitions.specs.Passed.component_value_types-declared-scope-Scope.{Scope};
    ghost use Rattle.component_instances.specs.Declarators as spec;

    ghost Value = { List spec.DeclaratorValue };

    ghost Known = { Scope };

    ghost syntax = { spec.instance_type };

    ghost known = { λ s. s };

    ghost value = { spec.instance_type_value };

    #[tactic(auto, unfolding(crate::specs::Declarators::instance_type))]
    fn read(there: Scope, from: &mut Reader<'a>) -> Result<InstanceType<'a>, ReadError> {
        let mut state = Declared {
            scope: inside(there),
            names: Names::new(from.allocator()),
        };
        let declarators = growing_of(0, &mut state, from)?;
        Ok(InstanceType { declarators })
    }

    #[tactic(auto, unfolding(crate::specs::Declarators::instance_type))]
    fn put(&self, out: &mut Vec<u8>) -> Result<(), WriteFault> {
        let Ok(count) = u32::try_from(self.declarators.len()) else {
            return Err(WriteFault::TooLarge);
        };
        put_number(out, count)?;
        put_each(&self.declarators, out)?;
        Ok(())
    }
}
