//! Types of functions, by the indices of what is written.

ghost use Rattle.std.specs.Prelude.{◌≡◌, ℕ, List, map, IfOk, IfErr, OnErr, Some, string_bytes};
ghost use Rattle.type_meaning.specs.Passed.component_value_types-Names.{named_value};
ghost use Rattle.type_meaning.specs.Passed.component_value_types-Types.{function, function_type_value};
ghost use Rattle.wit_types.specs.declared.interface.TypeDef.{TypeDef as Def};
ghost use Rattle.type_meaning.specs.Syntax.{names_of};
ghost use Rattle.type_writing.specs.Writing.{Begins, PartsStand, IsRemembered};
ghost use Rattle.type_writing.specs.Functions.{IsFunctionOf, FunctionStands, function_form};
ghost use Rattle.type_writing.specs.Placing.{AreParametersApart};
ghost use Rattle.type_writing.specs.Refusals.{IsCause, AreUnready};

use crate::encoder::ValtypeEncoder;
use crate::fault::Fault;
use crate::parts::{part_of, value_of};
use std::alloc::Global;
use type_meaning::{DefinedType, FunctionType, Named, ValueType};
use wit_types::{Param, Type};

/// The parameters of a function.
fn params_of<'s, S: ValtypeEncoder<'s>>(
    alloc: Global,
    sink: &S,
    params: &'s [Param],
) -> Result<Vec<Named<'s, ValueType>>, Fault>
    ensures names { IfOk result (λ v. names_of (map (named_value (λ t. t)) v.items) ≡ map (λ p. string_bytes p.name) params.entry.now) }
    ensures parts { (types : List Def) → S.good sink.now types → IfOk result (λ v. PartsStand (S.setting sink.now).label types (S.space sink.now) (map (λ p. Some p.ty) params.entry.now) (map (λ n. Some n.item) v.items)) }
    ensures cause { IfErr result (IsCause (AreUnready (IsRemembered (S.table sink.now)) (map (λ p. Some p.ty) params.entry.now)) ⊥) }
{
    let mut found = Vec::new(alloc);
    for param in params {
        found.push(Named {
            name: param.name.as_str(),
            item: value_of(sink, &param.ty)?,
        })?;
    }
    Ok(found)
}

/// The type of a function with these parameters, and with this result if it has one (Component Model, Explainer, Type Definitions).
/// Answers `NotYet` where one of the types isn't written, and `OutOfMemory` where memory is wanting.
pub fn function_of<'s, S: ValtypeEncoder<'s>>(
    alloc: Global,
    sink: &S,
    params: &'s [Param],
    answer: &Option<Type>,
) -> Result<FunctionType<'s>, Fault>
    ensures function { (types : List Def) → S.good sink.now types → IfOk result (λ f. IsFunctionOf (S.setting sink.now).label types (S.space sink.now) params.entry.now answer.now (function (function_type_value f))) }
    ensures cause { IfErr result (IsCause (AreUnready (IsRemembered (S.table sink.now)) (function_form params.entry.now answer.now).parts) ⊥) }
{
    Ok(FunctionType {
        params: params_of(alloc, sink, params)?,
        result: part_of(sink, answer)?,
    })
}

/// Writes the type of a function with these parameters, and with this result if it has one, and answers its index (Component Model,
/// Explainer, Type Definitions). Answers `NotYet` where one of the types isn't written, `TooLarge` where 32 bits can't say an index, and
/// `OutOfMemory` where memory is wanting: then nothing is written.
pub fn write_function<'s, S: ValtypeEncoder<'s>>(
    alloc: Global,
    sink: &mut S,
    params: &'s [Param],
    answer: &Option<Type>,
) -> Result<u32, Fault>
    ensures setting { S.setting sink.new ≡ S.setting sink.old }
    ensures outside { Begins (S.outside sink.old) (S.outside sink.new) }
    ensures table { S.table sink.new ≡ S.table sink.old }
    ensures names { S.names sink.new ≡ S.names sink.old }
    ensures given { (k : ℕ) → S.given sink.old k → S.given sink.new k }
    ensures begins { Begins (S.space sink.old) (S.space sink.new) }
    ensures err { OnErr result (S.space sink.new ≡ S.space sink.old) }
    ensures good { (types : List Def) → S.good sink.old types → S.good sink.new types }
    ensures placed { (types : List Def) → S.good sink.old types → AreParametersApart params.entry.now → S.placed sink.old → S.placed sink.new }
    ensures stands { (types : List Def) → S.good sink.old types → IfOk result (λ i. FunctionStands (S.setting sink.new).label types (S.space sink.new) params.entry.now answer.now i) }
    ensures cause { IfErr result (IsCause (AreUnready (IsRemembered (S.table sink.old)) (function_form params.entry.now answer.now).parts) (S.full sink.new)) }
{
    let function = function_of(alloc, sink, params, answer)?;
    sink.define(DefinedType::Function(function))
}
