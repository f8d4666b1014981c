//! Canonical definitions.

ghost use Rattle.std.specs.Prelude.{◌≡◌, ◌∷◌, ◌++◌, map, filter, length, OnOk, IfErr, Err};
ghost use Rattle.component_value_types.specs.Passed.binary_grammar-Fault.{Gives};
ghost use Rattle.component_value_types.specs.Passed.binary_grammar-Syntax.{meaning, bytes, vec, IsTyped, u32_bytes};
ghost use Rattle.component_definitions.specs.Canonical as spec;

use crate::sorts::{ComponentSort, Sort};
use component_value_types::{
    ExportKind, Part, ReadError, Reader, Rule, Scope, WriteFault, broken_at, put_number, put_vec,
    vec_of,
};

/// How values are lifted and lowered (Component Model Binary, Canonical Definitions).
#[derive(Clone, Copy, Debug, PartialEq, Eq)]
pub enum CanonicalOption {
    /// Strings are UTF-8.
    Utf8,
    /// Strings are UTF-16.
    Utf16,
    /// Strings are Latin-1 or UTF-16.
    CompactUtf16,
    /// The core memory at this index.
    Memory(u32),
    /// The core function at this index makes room.
    Realloc(u32),
    /// The core function at this index is called behind the call.
    PostReturn(u32),
}

/// What joins core functions and functions.
#[derive(Debug, Drop)]
pub enum CanonicalDefinition {
    /// A function, by a core function.
    Lift {
        /// The core function.
        core_function: u32,
        /// How values are lifted.
        options: Vec<CanonicalOption>,
        /// The type of the function.
        ty: u32,
    },
    /// A core function, by a function.
    Lower {
        /// The function.
        function: u32,
        /// How values are lowered.
        options: Vec<CanonicalOption>,
    },
    /// A core function that makes a handle of a resource type.
    ResourceNew(u32),
    /// A core function that drops one.
    ResourceDrop(u32),
    /// A core function that answers what one stands for.
    ResourceRep(u32),
}

impl CanonicalOption {
    /// The byte that says which it is.
    fn byte(self) -> u8
        ensures { result ≡ spec.option_byte self }
    {
        match self {
            CanonicalOption::Utf8 => 0,
            CanonicalOption::Utf16 => 1,
            CanonicalOption::CompactUtf16 => 2,
            CanonicalOption::Memory(_) => 3,
            CanonicalOption::Realloc(_) => 4,
            CanonicalOption::PostReturn(_) => 5,
        }
    }
}

impl<'a> Part<'a> for CanonicalOption {
    type Context = Scope;

    ghost use Rattle.component_value_types.specs.declared.scope.Scope.{Scope};
    ghost use Rattle.component_definitions.specs.declared.canonical.CanonicalOption.{CanonicalOption};
    ghost use Rattle.component_definitions.specs.Canonical as spec;

    ghost Value = { CanonicalOption };

    ghost Known = { Scope };

    ghost syntax = { spec.option };

    ghost known = { λ s. s };

    ghost value = { λ o. o };

    #[tactic(auto, unfolding(crate::specs::Canonical::option, crate::specs::Canonical::option_form_of))]
    fn read(there: Scope, from: &mut Reader<'a>) -> Result<CanonicalOption, ReadError> {
        match from.byte()? {
            0 => Ok(CanonicalOption::Utf8),
            1 => Ok(CanonicalOption::Utf16),
            2 => Ok(CanonicalOption::CompactUtf16),
            3 => Ok(CanonicalOption::Memory(from.index(there.core_memories)?)),
            4 => Ok(CanonicalOption::Realloc(from.index(there.core_functions)?)),
            5 => Ok(CanonicalOption::PostReturn(from.index(there.core_functions)?)),
            _ => Err(from.broken(Rule::Tag)),
        }
    }

    #[tactic(auto, unfolding(crate::specs::Canonical::option, crate::specs::Canonical::option_form_of))]
    fn put(&self, out: &mut Vec<u8>) -> Result<(), WriteFault> {
        out.push(self.byte())?;
        match self {
            CanonicalOption::Memory(index)
            | CanonicalOption::Realloc(index)
            | CanonicalOption::PostReturn(index) => put_number(out, *index)?,
            _ => {}
        }
        Ok(())
    }
}

/// How many have this byte.
fn count_of(byte: u8, options: &[CanonicalOption]) -> usize
    ensures { result ≡ length (filter (spec.is_of byte) options.now) }
{
    let mut count = 0;
    for option in options {
        if option.byte() == byte {
            count += 1;
        }
    }
    count
}

/// How many are encodings.
fn count_of_encodings(options: &[CanonicalOption]) -> usize
    ensures { result ≡ length (filter spec.is_encoding options.now) }
{
    let mut count = 0;
    for option in options {
        if option.byte() <= 2 {
            count += 1;
        }
    }
    count
}

/// Whether each is there at most once, and one encoding at most.
fn are_single(options: &[CanonicalOption]) -> bool
    ensures { result ≡ spec.are_single options.now }
{
    count_of_encodings(options) <= 1
        && count_of(3, options) <= 1
        && count_of(4, options) <= 1
        && count_of(5, options) <= 1
}

/// Options, each at most once, and one encoding at most; else `Duplicate` is broken where they begin.
#[tactic(auto, unfolding(crate::specs::Canonical::option_list))]
fn options_of(there: Scope, from: &mut Reader<'_>) -> Result<Vec<CanonicalOption>, ReadError>
    ensures gives { Gives (λ x. (map (λ o. o) x.items, from.new.left)) result ((meaning spec.option_list there).read from.old.left) }
    ensures end { from.new.end ≡ from.old.end }
{
    let at = from.left();
    let options = vec_of::<CanonicalOption>(there, from)?;
    if !are_single(&options) {
        return Err(broken_at(Rule::Duplicate, at));
    }
    Ok(options)
}

fn lift(there: Scope, from: &mut Reader<'_>) -> Result<CanonicalDefinition, ReadError>
    ensures gives { Gives (λ x. (spec.canonical_value x, from.new.left)) result ((meaning (spec.canonical_behind spec.lifts) there).read from.old.left) }
    ensures end { from.new.end ≡ from.old.end }
{
    from.byte_is(Rule::Tag, 0)?;
    let core_function = from.index(there.core_functions)?;
    let options = options_of(there, from)?;
    let ty = from.index(there.types)?;
    Ok(CanonicalDefinition::Lift {
        core_function,
        options,
        ty,
    })
}

fn lower(there: Scope, from: &mut Reader<'_>) -> Result<CanonicalDefinition, ReadError>
    ensures gives { Gives (λ x. (spec.canonical_value x, from.new.left)) result ((meaning (spec.canonical_behind spec.lowers) there).read from.old.left) }
    ensures end { from.new.end ≡ from.old.end }
{
    from.byte_is(Rule::Tag, 0)?;
    let function = from.index(there.functions)?;
    let options = options_of(there, from)?;
    Ok(CanonicalDefinition::Lower { function, options })
}

impl CanonicalDefinition {
    /// The sort of what it defines, of which it takes the next index.
    pub fn sort(&self) -> Sort
        ensures { result ≡ spec.canonical_sort (spec.canonical_value self.now) }
    {
        match self {
            CanonicalDefinition::Lift { .. } => Sort::Component(ComponentSort::Function),
            CanonicalDefinition::Lower { .. }
            | CanonicalDefinition::ResourceNew(_)
            | CanonicalDefinition::ResourceDrop(_)
            | CanonicalDefinition::ResourceRep(_) => Sort::Core(ExportKind::Func),
        }
    }
}

impl<'a> Part<'a> for CanonicalDefinition {
    type Context = Scope;

    ghost use Rattle.component_value_types.specs.declared.scope.Scope.{Scope};
    ghost use Rattle.component_definitions.specs.Canonical as spec;

    ghost Value = { spec.CanonicalValue };

    ghost Known = { Scope };

    ghost syntax = { spec.canonical };

    ghost known = { λ s. s };

    ghost value = { spec.canonical_value };

    #[tactic(auto, unfolding(crate::specs::Canonical::canonical, crate::specs::Canonical::canonical_form_of))]
    fn read(there: Scope, from: &mut Reader<'a>) -> Result<CanonicalDefinition, ReadError> {
        match from.byte()? {
            0 => lift(there, from),
            1 => lower(there, from),
            2 => Ok(CanonicalDefinition::ResourceNew(from.index(there.types)?)),
            3 => Ok(CanonicalDefinition::ResourceDrop(from.index(there.types)?)),
            4 => Ok(CanonicalDefinition::ResourceRep(from.index(there.types)?)),
            _ => Err(from.broken(Rule::Tag)),
        }
    }

    #[tactic(auto, unfolding(crate::specs::Canonical::canonical, crate::specs::Canonical::canonical_form_of, crate::specs::Canonical::option_list))]
    fn put(&self, out: &mut Vec<u8>) -> Result<(), WriteFault> {
        match self {
            CanonicalDefinition::Lift {
                core_function,
                options,
                ty,
            } => {
                put_joined(0, *core_function, options, out)?;
                put_number(out, *ty)?;
            }
            CanonicalDefinition::Lower { function, options } => put_joined(
                1, *function, options, out,
            )?,
            CanonicalDefinition::ResourceNew(ty) => put_resource(2, *ty, out)?,
            CanonicalDefinition::ResourceDrop(ty) => put_resource(3, *ty, out)?,
            CanonicalDefinition::ResourceRep(ty) => put_resource(4, *ty, out)?,
        }
        Ok(())
    }
}

/// Adds which of a lift and a lowering it is, the function, and the options.
fn put_joined(
    kind: u8,
    function: u32,
    options: &[CanonicalOption],
    out: &mut Vec<u8>,
) -> Result<(), WriteFault>
    ensures bytes { OnOk result (out.new.items ≡ out.old.items ++ (kind ∷ 0 ∷ (u32_bytes function ++ bytes (vec spec.option) (map (λ o. o) options.now)))) }
    ensures typed { OnOk result (IsTyped (vec spec.option) (map (λ o. o) options.now)) }
    ensures large { result ≡ Err WriteFault.TooLarge → IsTyped (vec spec.option) (map (λ o. o) options.now) → ⊥ }
{
    out.push(kind)?;
    out.push(0)?;
    put_number(out, function)?;
    put_vec(options, out)?;
    Ok(())
}

/// Adds what is done with handles, and the resource type.
fn put_resource(kind: u8, ty: u32, out: &mut Vec<u8>) -> Result<(), WriteFault>
    ensures bytes { OnOk result (out.new.items ≡ out.old.items ++ (kind ∷ u32_bytes ty)) }
    ensures memory { IfErr result (λ e. e ≡ WriteFault.OutOfMemory) }
{
    out.push(kind)?;
    put_number(out, ty)?;
    Ok(())
}
