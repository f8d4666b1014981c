//! Definitions of types.

ghost use Rattle.std.specs.Prelude.{◌≡◌};
ghost use Rattle.binary_grammar.specs.Fault.{Gives};
ghost use Rattle.binary_grammar.specs.Syntax.{meaning};
ghost use Rattle.component_instances.specs.TypeDefinitions as spec;

use crate::declarators::InstanceType;
use binary_grammar::{Part, ReadError, Reader, Rule, WriteFault, put_number};
use component_definitions::{DefinedType, Scope, optional_of, put_optional};

/// The place of a core function.
#[derive(Clone, Copy, Debug, PartialEq, Eq)]
pub struct CoreFunctionIndex(pub u32);

/// A resource type, whose representation is a core `i32`.
#[derive(Clone, Copy, Debug, PartialEq, Eq)]
pub struct ResourceType {
    /// The core function that destroys one, if there is one.
    pub destructor: Option<CoreFunctionIndex>,
}

/// The definition of a type (Component Model Binary, Type Definitions).
#[derive(Debug, Drop)]
pub enum TypeDefinition<'a> {
    /// A type of values or of functions.
    Defined(DefinedType<'a>),
    /// A resource type.
    Resource(ResourceType),
    /// The type of an instance.
    Instance(InstanceType<'a>),
}

impl<'a> Part<'a> for CoreFunctionIndex {
    type Context = Scope;

    ghost use Rattle.std.specs.Prelude.{ℕ};
    ghost use Rattle.component_definitions.specs.Passed.component_value_types-declared-scope-Scope.{Scope};
    ghost use Rattle.component_instances.specs.TypeDefinitions as spec;

    ghost Value = { ℕ };

    ghost Known = { Scope };

    ghost syntax = { spec.core_function };

    ghost known = { λ s. s };

    ghost value = { spec.core_function_value };

    #[tactic(auto, unfolding(crate::specs::TypeDefinitions::core_function))]
    fn read(there: Scope, from: &mut Reader<'a>) -> Result<CoreFunctionIndex, ReadError> {
        Ok(CoreFunctionIndex(from.index(there.core_functions)?))
    }

    #[tactic(auto, unfolding(crate::specs::TypeDefinitions::core_function))]
    fn put(&self, out: &mut Vec<u8>) -> Result<(), WriteFault> {
        put_number(out, self.0)?;
        Ok(())
    }
}

impl<'a> Part<'a> for ResourceType {
    type Context = Scope;

    ghost use Rattle.std.specs.Prelude.{ℕ, Option};
    ghost use Rattle.component_definitions.specs.Passed.component_value_types-declared-scope-Scope.{Scope};
    ghost use Rattle.component_instances.specs.TypeDefinitions as spec;

    ghost Value = { Option ℕ };

    ghost Known = { Scope };

    ghost syntax = { spec.resource_type };

    ghost known = { λ s. s };

    ghost value = { spec.resource_type_value };

    #[tactic(auto, unfolding(crate::specs::TypeDefinitions::resource_type))]
    fn read(there: Scope, from: &mut Reader<'a>) -> Result<ResourceType, ReadError> {
        from.byte_is(Rule::Tag, 0x7f)?;
        let destructor = optional_of(there, from)?;
        Ok(ResourceType { destructor })
    }

    #[tactic(auto, unfolding(crate::specs::TypeDefinitions::resource_type))]
    fn put(&self, out: &mut Vec<u8>) -> Result<(), WriteFault> {
        out.push(0x7f)?;
        put_optional(&self.destructor, out)?;
        Ok(())
    }
}

impl<'a> Part<'a> for TypeDefinition<'a> {
    type Context = Scope;

    ghost use Rattle.component_definitions.specs.Passed.component_value_types-declared-scope-Scope.{Scope};
    ghost use Rattle.component_instances.specs.TypeDefinitions as spec;

    ghost Value = { spec.TypeDefinitionValue };

    ghost Known = { Scope };

    ghost syntax = { spec.type_definition };

    ghost known = { λ s. s };

    ghost value = { spec.type_definition_value };

    #[tactic(auto, unfolding(crate::specs::TypeDefinitions::type_definition, crate::specs::TypeDefinitions::form_of))]
    fn read(there: Scope, from: &mut Reader<'a>) -> Result<TypeDefinition<'a>, ReadError> {
        match from.byte()? {
            0x3f => Ok(TypeDefinition::Resource(ResourceType::read(there, from)?)),
            0x42 => Ok(TypeDefinition::Instance(InstanceType::read(there, from)?)),
            kind => Ok(TypeDefinition::Defined(DefinedType::read_behind(kind, there, from)?)),
        }
    }

    #[tactic(auto, unfolding(crate::specs::TypeDefinitions::type_definition, crate::specs::TypeDefinitions::form_of))]
    fn put(&self, out: &mut Vec<u8>) -> Result<(), WriteFault> {
        match self {
            TypeDefinition::Defined(ty) => ty.put(out),
            TypeDefinition::Resource(resource) => {
                out.push(0x3f)?;
                resource.put(out)
            }
            TypeDefinition::Instance(ty) => {
                out.push(0x42)?;
                ty.put(out)
            }
        }
    }
}
