//! What functions take and give, brought into an arena.

ghost use Rattle.std.specs.Prelude.{◌≡◌, ◌∷◌, [], Option, Some, map, option_map, IfOk};
ghost use Rattle.wit_types.specs.declared.kind.«Type».{«Type» as Ref};
ghost use Rattle.wit_type_names.specs.Passed.wit_productions-NameView.{id};
ghost use Rattle.wit_type_names.specs.Passed.wit_productions-TypeTree as written;
ghost use Rattle.wit_type_names.specs.Passed.wit_productions-TypeTree.{TypeOption, opt, standing};
ghost use Rattle.wit_type_names.specs.Passed.wit_syntax-AstView as view;
ghost use Rattle.wit_type_names.specs.Passed.wit_productions-TypeView.{type_tree};
ghost use Rattle.wit_type_names.specs.TypeNames.{names_in_part, names_in_parts, param_parts};
ghost use Rattle.wit_type_names.specs.TypeView.{type_part};
ghost use Rattle.wit_arena.specs.Lower.{AreThere, Lowers, LowersPart, LowersParts};
ghost use Rattle.wit_arena.specs.LowerKind.{Label};
ghost use Rattle.wit_arena.specs.LowerParams.{written_param, param_label, LowersParams};

use crate::definitions::{Part, bring_all, lower_optional};
use crate::lowering::{id_of, lower};
use crate::shape::Shape;
use crate::table::Table;
use crate::types::Types;
use std::alloc::AllocError;
use wit_type_names::Id;
use wit_types::{Handle, Param, Span, Type};

impl<'a> Part<'a> for Param {
    type Written = wit_type_names::Param<'a>;

    ghost label = { param_label };

    ghost part = { λ p. Some p.ty };

    ghost source_label = { λ p. written_param (view.param p) };

    ghost source_part = { λ p. type_part p.ty };

    fn bring(
        types: &mut Types,
        table: &Table<'_>,
        written: &wit_type_names::Param<'a>,
    ) -> Result<Param, AllocError> {
        let name = String::from_str(types.allocator(), written.name.name)?;
        let ty = lower(types, table, &written.ty)?;
        let span = written.name.span;
        Ok(Param { name, ty, span })
    }
}

/// The parameters of a function, behind the types that stand in them. Each name that stands in them is in the table.
pub fn lower_params(
    types: &mut Types,
    table: &Table<'_>,
    params: &[wit_type_names::Param<'_>],
) -> Result<Vec<Param>, AllocError>
    requires { AreThere table.now (names_in_parts (param_parts (map view.param params.now))) }
    ensures { IfOk result (λ v. LowersParams table.now types.old (map view.param params.now) types.new v.items) }
{
    let params = bring_all(types, table, params)?;
    Ok(params)
}

/// The type of a result, behind the types that stand in it, if there is one. Each name that stands in it is in the table.
pub fn lower_result(
    types: &mut Types,
    table: &Table<'_>,
    ty: &Option<wit_type_names::Type<'_>>,
) -> Result<Option<Type>, AllocError>
    requires { AreThere table.now (names_in_part (opt (option_map type_tree ty.now))) }
    ensures { IfOk result (LowersPart table.now types.old (opt (option_map type_tree ty.now)) types.new) }
{
    let ty = lower_optional(types, table, ty)?;
    Ok(ty)
}

/// The type `own<resource>`, as if it stood at that place. The resource's name is in the table.
pub fn lower_own(
    types: &mut Types,
    table: &Table<'_>,
    resource: &Id<'_>,
    span: Span,
) -> Result<Type, AllocError>
    requires { AreThere table.now (id resource.now ∷ []) }
    ensures { IfOk result (Lowers table.now types.old (standing span (written.own (id resource.now))) types.new) }
{
    let handle = Handle::Own(id_of(table, resource));
    let ty = types.intern(Shape::Handle(handle), span)?;
    Ok(ty)
}

/// The type `borrow<resource>`, as if it stood at that place. The resource's name is in the table.
pub fn lower_borrow(
    types: &mut Types,
    table: &Table<'_>,
    resource: &Id<'_>,
    span: Span,
) -> Result<Type, AllocError>
    requires { AreThere table.now (id resource.now ∷ []) }
    ensures { IfOk result (Lowers table.now types.old (standing span (written.borrow (id resource.now))) types.new) }
{
    let handle = Handle::Borrow(id_of(table, resource));
    let ty = types.intern(Shape::Handle(handle), span)?;
    Ok(ty)
}
