//! Interfaces that stand in worlds.

ghost use Rattle.std.specs.Prelude.{◌≡◌, ℕ, ◌+◌, List, ◌∷◌, ◌++◌, [], length, map, IfOk, OnOk, IfErr};
ghost use Rattle.wit_syntax.specs.AstView as view;
ghost use Rattle.wit_scopes.specs.View as scope_view;
ghost use Rattle.wit_scopes.specs.Scopes.{WorldScope};
ghost use Rattle.wit_rules.specs.Breaks.{IsKept, IsFaultOf};
ghost use Rattle.wit_rules.specs.declared.fault.PackageFault.TheVariants.{OutOfMemory};
ghost use Rattle.wit_types.specs.declared.interface.Interface.{Interface as Built};
ghost use Rattle.wit_types.specs.declared.interface.TypeDef.{TypeDef};
ghost use Rattle.wit_types.specs.declared.interface.TypeOwner.TheVariants as belongs;
ghost use Rattle.wit_arena.specs.Meaning.{Has};
ghost use Rattle.wit_arena.specs.Tree.{Name, Place, in_listed};
ghost use Rattle.wit_arena.specs.Table.{Entries};
ghost use Rattle.wit_resolved_scopes.specs.Passed.wit_resources-Natures.{natures as natures_of};
ghost use Rattle.wit_resolved_scopes.specs.InArena.{Context};
ghost use Rattle.wit_resolved_scopes.specs.Texts.{InterfaceText as Text, listed_text, member_texts, labelled_texts};
ghost use Rattle.wit_interfaces.specs.Adding as adding;
ghost use Rattle.wit_interfaces.specs.Labelled as spec;
ghost use Rattle.wit_interfaces.specs.View as seen;

use crate::building::Building;
use crate::interface::make_interface;
use crate::text::InterfaceText;
use std::collections::VecDeque;
use wit_rules::PackageFault;
use wit_scopes::{ExternKind, Listed, Member, WorldMember, WorldScope};
use wit_types::{Interface, InterfaceId};

/// An interface that stands in a world, with these members.
fn labelled_text<'s, 'a>(listed: &'s Listed<'a>, members: &'s [Member<'a>]) -> InterfaceText<'s, 'a>
    ensures { (w : Name) → seen.text (in_listed w listed.entry.now.side listed.entry.now.name.name.now) result ≡ listed_text w (scope_view.listed listed.entry.now) (scope_view.members members.entry.now) }
{
    InterfaceText {
        name: None,
        members,
        front: &listed.front,
        span: listed.name.span,
    }
}

/// Keeps an interface behind the others, and its id behind the others.
fn keep_labelled<'a>(
    building: &mut Building<'a>,
    ids: &mut VecDeque<InterfaceId>,
    interface: Interface,
) -> Result<(), PackageFault>
    ensures behind { OnOk result (building.new.interfaces ≡ building.old.interfaces ++ interface ∷ []) }
    ensures ids { OnOk result (ids.new.items ≡ ids.old.items ++ length building.old.interfaces ∷ []) }
    ensures types { building.new.types ≡ building.old.types }
    ensures known { building.new.known ≡ building.old.known }
    ensures natures { building.new.natures ≡ building.old.natures }
    ensures memory { IfErr result (λ fault. fault ≡ OutOfMemory) }
{
    let id = building.interfaces.alloc(interface)?;
    ids.push_back(id)?;
    Ok(())
}

/// Adds an interface that stands in a world behind the others.
fn add_labelled_interface<'a>(
    building: &mut Building<'a>,
    ids: &mut VecDeque<InterfaceId>,
    listed: &Listed<'a>,
    members: &[Member<'a>],
) -> Result<(), PackageFault>
    requires ready { (w : Name) → adding.IsReadyIn building.old.known (listed_text w (scope_view.listed listed.now) (scope_view.members members.now)) }
    requires natures { building.old.natures ≡ natures_of building.old.types }
    ensures adds { (w : Name) → OnOk result ((table : Entries) × (made : Built) × adding.MakesInterface building.old.known building.old.types (listed_text w (scope_view.listed listed.now) (scope_view.members members.now)) (length building.old.interfaces) building.new.types table made × (building.new.interfaces ≡ building.old.interfaces ++ made ∷ [])) }
    ensures ids { OnOk result (ids.new.items ≡ ids.old.items ++ length building.old.interfaces ∷ []) }
    ensures known { OnOk result (building.new.known ≡ building.old.known) }
    ensures grown { OnOk result ((more : List TypeDef) × (building.new.types ≡ building.old.types ++ more)) }
    ensures natures { OnOk result (building.new.natures ≡ natures_of building.new.types) }
    ensures kept { (c : Context) (o : Place) → adding.MayBring c o (belongs.Interface (length building.old.interfaces)) building.old.known building.old.types (scope_view.members members.now) → OnOk result (IsKept (adding.MembersBreak c o (scope_view.members members.now))) }
    ensures cause { (c : Context) (o : Place) → adding.MayBring c o (belongs.Interface (length building.old.interfaces)) building.old.known building.old.types (scope_view.members members.now) → IfErr result (IsFaultOf (adding.MembersBreak c o (scope_view.members members.now))) }
{
    let id = InterfaceId::from_index(building.interfaces.len());
    let text = labelled_text(listed, members);
    match make_interface(
        &mut building.types,
        &mut building.natures,
        &building.known,
        id,
        &text,
    ) {
        Ok(made) => keep_labelled(building, ids, made.interface),
        Err(fault) => Err(fault),
    }
}

/// Adds the interface that a member of a world has, if any.
fn add_member_text<'a>(
    building: &mut Building<'a>,
    ids: &mut VecDeque<InterfaceId>,
    member: &WorldMember<'a>,
) -> Result<(), PackageFault>
    requires ready { (w : Name) × ((t : Text) → Has (member_texts w (scope_view.world_member member.now)) t → adding.IsReadyIn building.old.known t) }
    requires natures { building.old.natures ≡ natures_of building.old.types }
    ensures known { OnOk result (building.new.known ≡ building.old.known) }
    ensures grown { OnOk result ((more : List TypeDef) × (building.new.types ≡ building.old.types ++ more)) }
    ensures so_many { (w : Name) → OnOk result (length ids.new.items ≡ length ids.old.items + length (member_texts w (scope_view.world_member member.now))) }
    ensures natures { OnOk result (building.new.natures ≡ natures_of building.new.types) }
    ensures adds { (c : Context) (w : Name) → spec.MayAddTexts c building.old.known building.old.types (length building.old.interfaces) (member_texts w (scope_view.world_member member.now)) → OnOk result (spec.AddsMore c building.old.known building.old.types building.old.interfaces ids.old.items (member_texts w (scope_view.world_member member.now)) building.new.types building.new.interfaces ids.new.items) }
    ensures kept { (c : Context) (w : Name) → spec.MayAddTexts c building.old.known building.old.types (length building.old.interfaces) (member_texts w (scope_view.world_member member.now)) → OnOk result (IsKept (spec.TextsBreak c (member_texts w (scope_view.world_member member.now)))) }
    ensures cause { (c : Context) (w : Name) → spec.MayAddTexts c building.old.known building.old.types (length building.old.interfaces) (member_texts w (scope_view.world_member member.now)) → IfErr result (IsFaultOf (spec.TextsBreak c (member_texts w (scope_view.world_member member.now)))) }
{
    match member {
        WorldMember::Listed(listed) => match &listed.kind {
            ExternKind::Interface(members) => {
                add_labelled_interface(building, ids, listed, members.as_slice())
            }
            _ => Ok(()),
        },
        _ => Ok(()),
    }
}

/// Adds the interfaces that stand in a world behind the others, in the order of the text, and answers the id of each. They are
/// refused where one of their scopes is: P6 to P9; then nothing is said of what is built, which is to be dropped.
pub fn add_labelled<'a>(
    building: &mut Building<'a>,
    world: &WorldScope<'a>,
) -> Result<VecDeque<InterfaceId>, PackageFault>
    requires ready { (t : Text) → Has (labelled_texts (scope_view.world_scope world.now)) t → adding.IsReadyIn building.old.known t }
    requires natures { building.old.natures ≡ natures_of building.old.types }
    ensures known { OnOk result (building.new.known ≡ building.old.known) }
    ensures grown { OnOk result ((more : List TypeDef) × (building.new.types ≡ building.old.types ++ more)) }
    ensures so_many { IfOk result (λ ids. length ids.items ≡ length (labelled_texts (scope_view.world_scope world.now))) }
    ensures natures { OnOk result (building.new.natures ≡ natures_of building.new.types) }
    ensures adds { (c : Context) → spec.MayAddTexts c building.old.known building.old.types (length building.old.interfaces) (labelled_texts (scope_view.world_scope world.now)) → IfOk result (λ ids. spec.AddsTexts c building.old.known building.old.types building.old.interfaces (labelled_texts (scope_view.world_scope world.now)) building.new.types building.new.interfaces ids.items) }
    ensures kept { (c : Context) → spec.MayAddTexts c building.old.known building.old.types (length building.old.interfaces) (labelled_texts (scope_view.world_scope world.now)) → OnOk result (IsKept (spec.TextsBreak c (labelled_texts (scope_view.world_scope world.now)))) }
    ensures cause { (c : Context) → spec.MayAddTexts c building.old.known building.old.types (length building.old.interfaces) (labelled_texts (scope_view.world_scope world.now)) → IfErr result (IsFaultOf (spec.TextsBreak c (labelled_texts (scope_view.world_scope world.now)))) }
{
    let mut ids = VecDeque::new(building.types.allocator());
    for member in world.members.as_slice() {
        if let Err(fault) = add_member_text(building, &mut ids, member) {
            return Err(fault);
        }
    }
    Ok(ids)
}
