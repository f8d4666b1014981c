//! What `use` statements at the top of files ask of other packages (WIT, Use, Top-Level Use).

ghost use Rattle.std.specs.Prelude.{◌≡◌, List, [], ◌++◌, map, flat_map, IfOk, OnOk};
ghost use Rattle.wit_syntax.specs.AstView as view;
ghost use Rattle.wit_scopes.specs.View as scope_view;
ghost use Rattle.wit_placeholders.specs.Passed.wit_foreign-Needs.{NeedTree};
ghost use Rattle.wit_placeholders.specs.Passed.wit_foreign-Items.{AreItemsOf};
ghost use Rattle.wit_placeholders.specs.Passed.wit_foreign-View as asked;
ghost use Rattle.wit_package.specs.TopUses as spec;

use std::alloc::{AllocError, Global};
use std::rc::Rc;
use wit_checked_lookups::Asked;
use wit_placeholders::{ForeignItems, Need, foreign_items};
use wit_scopes::{Front, Target, path_by_itself};
use wit_syntax::{Docs, Id, PackageName, ToplevelUse};

/// As what something of another package is asked for: as a world where it is among these as one, else as an interface.
fn asked_among<'a>(items: &ForeignItems<'a>, from: &PackageName<'a>, item: &Id<'a>) -> Asked
    ensures { (needs : List NeedTree) → AreItemsOf needs items.now → result ≡ spec.asked_among (view.package_name from.now) (view.id item.now) needs }
{
    match items.get(from, item, Asked::World) {
        Some(_) => Asked::World,
        None => Asked::Interface,
    }
}

/// Neither docs nor attributes.
fn nothing_in_front<'a>(alloc: Global) -> Result<Rc<Front<'a>>, AllocError>
    ensures { IfOk result (λ f. map view.attribute f.value.attributes.items ≡ []) }
{
    let docs = Docs {
        comments: Vec::new(alloc),
    };
    let front = Rc::new(
        alloc,
        Front {
            docs,
            attributes: Vec::new(alloc),
        },
    )?;
    Ok(front)
}

/// Adds what a statement asks for of another package.
fn add_need<'a>(
    alloc: Global,
    found: &mut Vec<Need<'a>>,
    items: &ForeignItems<'a>,
    me: &PackageName<'a>,
    statement: &ToplevelUse<'a>,
) -> Result<(), AllocError>
    ensures { (needs : List NeedTree) → AreItemsOf needs items.now → OnOk result (asked.needs found.new.items ≡ asked.needs found.old.items ++ spec.top_needs (view.package_name me.now) needs (view.toplevel_use statement.now)) }
{
    if let Target::Foreign {
        package,
        name: item,
    } = path_by_itself(me, &statement.item)
    {
        let front = nothing_in_front(alloc)?;
        found.push(Need {
            package,
            item,
            asked: asked_among(items, &package, &item),
            name: None,
            front,
        })?;
    }
    Ok(())
}

/// Adds what the statements of a file ask for of other packages.
fn add_needs<'a>(
    alloc: Global,
    found: &mut Vec<Need<'a>>,
    items: &ForeignItems<'a>,
    me: &PackageName<'a>,
    statements: &[ToplevelUse<'a>],
) -> Result<(), AllocError>
    ensures { (needs : List NeedTree) → AreItemsOf needs items.now → OnOk result (asked.needs found.new.items ≡ asked.needs found.old.items ++ flat_map (spec.top_needs (view.package_name me.now) needs) (map view.toplevel_use statements.now)) }
{
    for statement in statements {
        add_need(alloc, found, items, me, statement)?;
    }
    Ok(())
}

/// What the statements at the top of files ask for of other packages, beside what is asked for otherwise.
fn top_needs<'a>(
    alloc: Global,
    me: &PackageName<'a>,
    uses: &[Vec<ToplevelUse<'a>>],
    needs: &[Need<'a>],
) -> Result<Vec<Need<'a>>, AllocError>
    ensures { IfOk result (λ v. asked.needs v.items ≡ spec.files_top_needs (view.package_name me.now) (asked.needs needs.now) (scope_view.uses uses.now)) }
{
    let items = foreign_items(alloc, needs)?;
    let mut found = Vec::new(alloc);
    for statements in uses {
        add_needs(alloc, &mut found, &items, me, statements.as_slice())?;
    }
    Ok(found)
}

/// All that is asked of other packages, where this is asked for otherwise: what the statements at the top of files ask comes first.
pub fn with_top_uses<'a>(
    alloc: Global,
    me: &PackageName<'a>,
    uses: &[Vec<ToplevelUse<'a>>],
    needs: Vec<Need<'a>>,
) -> Result<Vec<Need<'a>>, AllocError>
    ensures { IfOk result (λ v. asked.needs v.items ≡ spec.with_top_uses (view.package_name me.now) (scope_view.uses uses.now) (asked.needs needs.entry.items)) }
{
    let mut needs = needs;
    let mut found = top_needs(alloc, me, uses, needs.as_slice())?;
    found.append(&mut needs)?;
    Ok(found)
}
