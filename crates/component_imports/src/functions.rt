//! The functions of an interface that is imported.

ghost use Rattle.std.specs.Prelude.{◌≡◌, ◌++◌, List, OnOk, IfErr};
ghost use Rattle.std.specs.List.{AllByRecursion as Each};
ghost use Rattle.wit_types.specs.declared.interface.TypeDef.{TypeDef as Def};
ghost use Rattle.type_sinks.specs.Passed.type_writing-Refusals.{IsCause};
ghost use Rattle.type_sinks.specs.Passed.type_writing-Writing.{IsRemembered};
ghost use Rattle.type_sinks.specs.Kept.{index_of};
ghost use Rattle.type_sinks.specs.Views.{inside_names, inside_setting, InsideIsGood, InsideIsPlaced, IsFullInside};
ghost use Rattle.component_imports.specs.Functions.{functions_of, function_names, HasFunctionOf, HaveParametersApart, AreFunctionsUnready};

use std::alloc::Global;
use type_sinks::{Fault, InterfaceTypes};
use wit_types::Function;

/// Exports functions, in order. Answers `NotYet` where a type of one isn't written or the name of one is there already, `TooLarge` where
/// 32 bits can't say an index, and `OutOfMemory` where memory is wanting: then those in front of it are exported.
pub fn export_functions<'s>(
    alloc: Global,
    to: &mut InterfaceTypes<'s>,
    functions: &[&'s Function],
) -> Result<(), Fault>
    ensures setting { inside_setting to.new ≡ inside_setting to.old }
    ensures root { to.new.root ≡ to.old.root }
    ensures table { to.new.known ≡ to.old.known }
    ensures exports { to.new.exports.items ≡ to.old.exports.items }
    ensures names { OnOk result (inside_names to.new ≡ inside_names to.old ++ function_names (functions_of functions.now)) }
    ensures good { (types : List Def) → InsideIsGood to.old types → InsideIsGood to.new types }
    ensures placed { (types : List Def) → InsideIsGood to.old types → HaveParametersApart (functions_of functions.now) → InsideIsPlaced to.old → InsideIsPlaced to.new }
    ensures has { OnOk result ((types : List Def) → InsideIsGood to.old types → Each (HasFunctionOf to.new types) (functions_of functions.now)) }
    ensures cause { IfErr result (IsCause (AreFunctionsUnready (IsRemembered (index_of to.old.known)) (inside_names to.old) (functions_of functions.now)) (IsFullInside to.new)) }
{
    for function in functions {
        to.export_function(
            alloc,
            function.name.as_str(),
            &function.params,
            &function.result,
        )?;
    }
    Ok(())
}
