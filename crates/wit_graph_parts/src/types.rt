//! Types that come to a graph.

ghost use Rattle.std.specs.Prelude.{◌≡◌, ◌++◌, List, IfOk, IfErr, OnOk};
ghost use Rattle.wit_types.specs.declared.interface.TypeDef.{TypeDef};
ghost use Rattle.wit_moves.specs.View.{owners};
ghost use Rattle.wit_moves.specs.Plan.{AreMovedDefs};
ghost use Rattle.wit_shapes.specs.Passed.wit_resources-Natures.{natures as natures_of};
ghost use Rattle.wit_shapes.specs.Passed.wit_resources-declared-natures-Nature.{Nature};
ghost use Rattle.wit_graph_parts.specs.Parts as spec;

use crate::fault::PushFault;
use std::alloc::{AllocError, Global};
use wit_graph_worlds::Plan;
use wit_moves::moved_defs;
use wit_shapes::{Natures, check_types};
use wit_types::{Arena, TypeDef};
use wit_words::Span;

/// A check of shapes as part of a push.
pub fn shape_checked(checked: Result<(), Span>) -> Result<(), PushFault>
    ensures { result ≡ spec.shape_checked checked }
{
    match checked {
        Ok(()) => Ok(()),
        Err(at) => Err(PushFault::ForeignShape(at)),
    }
}

/// Puts types behind those that are there. Where memory is wanting, some of them may be.
fn put_behind(types: &mut Arena<TypeDef>, defs: Vec<TypeDef>) -> Result<(), AllocError>
    ensures ok { OnOk result (types.new ≡ types.old ++ defs.items) }
    ensures grown { (more : List TypeDef) × (types.new ≡ types.old ++ more) }
{
    for def in defs {
        types.alloc(def)?;
    }
    Ok(())
}

/// The types of a package that stay, of which the first has that number, as they are where they stand.
fn moved(
    alloc: Global,
    plan: &Plan,
    first: usize,
    own: Vec<TypeDef>,
) -> Result<Vec<TypeDef>, AllocError>
    ensures { IfOk result (λ defs. AreMovedDefs (owners plan.now.owners) plan.now.types first own.items defs.items) }
{
    if own.len() >= usize::MAX - first {
        return Err(AllocError);
    }
    moved_defs(alloc, &plan.owners, &plan.types, first, own)
}

/// Adds the types of a package that stay, of which the first has that number, behind those that are there. Refuses a handle of what is no
/// resource. Some types may be there then, and something known of them.
pub fn add_types(
    alloc: Global,
    types: &mut Arena<TypeDef>,
    natures: &mut Natures,
    plan: &Plan,
    first: usize,
    own: Vec<TypeDef>,
) -> Result<(), PushFault>
    requires natures { natures.old ≡ natures_of types.old }
    ensures ok { OnOk result (spec.AreTypesAdded (owners plan.now.owners) plan.now.types first own.items types.old types.new) }
    ensures natures { OnOk result (natures.new ≡ natures_of types.new) }
    ensures cause { IfErr result (spec.IsShapeCause (spec.TypesBreak (owners plan.now.owners) plan.now.types first own.items types.old)) }
    ensures types_grown { (more : List TypeDef) × (types.new ≡ types.old ++ more) }
    ensures natures_grown { (more : List Nature) × (natures.new ≡ natures.old ++ more) }
{
    let defs = moved(alloc, plan, first, own)?;
    natures.extend(defs.as_slice())?;
    shape_checked(check_types(natures, defs.as_slice()))?;
    Ok(put_behind(types, defs)?)
}
