//! The names of each scope.

ghost use Rattle.std.specs.Prelude.{◌≡◌, ◌++◌, ◌∷◌, [], map, flat_map, IfOk, OnOk};
ghost use Rattle.wit_syntax.specs.AstView as view;
ghost use Rattle.wit_scopes.specs.View as scope_view;
ghost use Rattle.wit_rules.specs.Labels as spec;
ghost use Rattle.wit_rules.specs.View as seen;
ghost use Rattle.wit_words.specs.Slice.{Slice};

use smallvec::SmallVec;
use std::alloc::{AllocError, Global};
use std::borrow::CowStr;
use wit_rules::{Label, Labels, written};
use wit_scopes::{ItemScope, Member, MemberKind, known_name};
use wit_syntax::{AstItem, Case, EnumCase, Field, File, FileItem, Flag, Id, Param, TypeDefKind};

/// The name by which a member is known in its scope (Component Model, Name Uniqueness).
pub fn member_label<'a>(alloc: Global, member: &Member<'a>) -> Result<Label<'a>, AllocError>
    ensures { IfOk result (λ l. seen.label l ≡ spec.member_label (scope_view.member member.now)) }
{
    let name = member.name.name;
    match &member.kind {
        MemberKind::Method { resource, .. } => {
            let resource = resource.name;
            Ok(Label {
                text: CowStr::Owned(format!(in alloc; "[method]{resource}.{name}")?),
                span: member.name.span,
            })
        }
        MemberKind::Static { resource, .. } => {
            let resource = resource.name;
            Ok(Label {
                text: CowStr::Owned(format!(in alloc; "[static]{resource}.{name}")?),
                span: member.name.span,
            })
        }
        MemberKind::Constructor { resource, .. } => {
            let resource = resource.name;
            Ok(Label {
                text: CowStr::Owned(format!(in alloc; "[constructor]{resource}")?),
                span: member.span,
            })
        }
        _ => Ok(written(member.name)),
    }
}

/// The names of the members of an interface.
pub fn member_labels<'a>(alloc: Global, members: &[Member<'a>]) -> Result<Labels<'a>, AllocError>
    ensures { IfOk result (λ v. map seen.label v.items ≡ map spec.member_label (scope_view.members members.now)) }
{
    let mut found = SmallVec::new(alloc);
    for member in members {
        let label = member_label(alloc, member)?;
        found.push(label)?;
    }
    Ok(found)
}

/// What has a name that is written where it stands.
pub trait Named<'a> {
    ghost name: { Self → Slice };

    /// The name.
    fn name(&self) -> Id<'a>
        ensures { view.id result ≡ name self.now };
}

impl<'a> Named<'a> for Param<'a> {
    ghost name = { λ p. view.id p.name };

    fn name(&self) -> Id<'a> {
        self.name
    }
}

impl<'a> Named<'a> for Field<'a> {
    ghost name = { λ f. view.id f.name };

    fn name(&self) -> Id<'a> {
        self.name
    }
}

impl<'a> Named<'a> for Flag<'a> {
    ghost name = { λ f. view.id f.name };

    fn name(&self) -> Id<'a> {
        self.name
    }
}

impl<'a> Named<'a> for EnumCase<'a> {
    ghost name = { λ c. view.id c.name };

    fn name(&self) -> Id<'a> {
        self.name
    }
}

impl<'a> Named<'a> for Case<'a> {
    ghost name = { λ c. view.id c.name };

    fn name(&self) -> Id<'a> {
        self.name
    }
}

/// Adds the names of these, in their order.
pub fn add_names<'a, T: Named<'a>>(found: &mut Labels<'a>, items: &[T]) -> Result<(), AllocError>
    ensures { OnOk result (map seen.label found.new.items ≡ map seen.label found.old.items ++ map T.name items.now) }
{
    for item in items {
        found.push(written(item.name()))?;
    }
    Ok(())
}

/// Adds the names of fields, flags or cases.
fn add_kind<'a>(found: &mut Labels<'a>, kind: &TypeDefKind<'a>) -> Result<(), AllocError>
    ensures { OnOk result (map seen.label found.new.items ≡ map seen.label found.old.items ++ spec.kind_names (view.type_def_kind kind.now)) }
{
    match kind {
        TypeDefKind::Record(fields) => add_names(found, fields.as_slice()),
        TypeDefKind::Flags(flags) => add_names(found, flags.as_slice()),
        TypeDefKind::Enum(cases) => add_names(found, cases.as_slice()),
        TypeDefKind::Variant(cases) => add_names(found, cases.as_slice()),
        TypeDefKind::Alias(_) | TypeDefKind::Resource(_) => Ok(()),
    }
}

/// Adds the names of parameters.
fn add_params<'a>(found: &mut Labels<'a>, params: &[Param<'a>]) -> Result<(), AllocError>
    ensures { OnOk result (map seen.label found.new.items ≡ map seen.label found.old.items ++ spec.param_names (map view.param params.now)) }
{
    add_names(found, params)
}

/// The names of parameters.
pub fn param_labels<'a>(alloc: Global, params: &[Param<'a>]) -> Result<Labels<'a>, AllocError>
    ensures { IfOk result (λ v. map seen.label v.items ≡ spec.param_names (map view.param params.now)) }
{
    let mut found: Labels<'a> = SmallVec::new(alloc);
    add_params(&mut found, params)?;
    Ok(found)
}

/// Adds the names of fields, flags or cases, or those of parameters, of which a method has `self` before all others.
fn add_within<'a>(found: &mut Labels<'a>, member: &Member<'a>) -> Result<(), AllocError>
    ensures { OnOk result (map seen.label found.new.items ≡ map seen.label found.old.items ++ spec.names_within (scope_view.member_kind member.now.kind) (view.id member.now.name)) }
{
    match &member.kind {
        MemberKind::Used { .. } => Ok(()),
        MemberKind::Defined(kind) => add_kind(found, kind),
        MemberKind::Function(func)
        | MemberKind::Static { func, .. }
        | MemberKind::Constructor { func, .. } => add_params(found, func.params.as_slice()),
        MemberKind::Method { func, .. } => {
            found.push(Label {
                text: CowStr::Borrowed("self"),
                span: member.name.span,
            })?;
            add_params(found, func.params.as_slice())
        }
    }
}

/// The names of fields, flags or cases, or those of parameters, of which a method has `self` before all others.
pub fn names_within<'a>(alloc: Global, member: &Member<'a>) -> Result<Labels<'a>, AllocError>
    ensures { IfOk result (λ v. map seen.label v.items ≡ spec.names_within (scope_view.member_kind member.now.kind) (view.id member.now.name)) }
{
    let mut found = SmallVec::new(alloc);
    add_within(&mut found, member)?;
    Ok(found)
}

/// The name of an interface or a world.
pub fn scope_label<'a>(scope: &ItemScope<'a>) -> Label<'a>
    ensures { seen.label result ≡ spec.scope_name (scope_view.item_scope scope.now) }
{
    match scope {
        ItemScope::Interface(interface) => written(interface.name),
        ItemScope::World(world) => written(world.name),
    }
}

/// Adds the name of an item, or that by which a `use` makes something known.
fn add_item<'a>(found: &mut Labels<'a>, item: &FileItem<'a>) -> Result<(), AllocError>
    ensures { OnOk result (map seen.label found.new.items ≡ map seen.label found.old.items ++ spec.file_item_labels (view.file_item item.now)) }
{
    let name = match item {
        FileItem::Item(AstItem::Use(item)) => known_name(item),
        FileItem::Item(AstItem::Interface(interface)) => interface.name,
        FileItem::Item(AstItem::World(world)) => world.name,
        FileItem::Package(_) => return Ok(()),
    };
    found.push(written(name))?;
    Ok(())
}

/// The own items of a file, with the names that its `use` statements make known.
pub fn file_labels<'a>(alloc: Global, file: &File<'a>) -> Result<Labels<'a>, AllocError>
    ensures { IfOk result (λ v. map seen.label v.items ≡ spec.file_labels (view.file file.now)) }
{
    let mut found = SmallVec::new(alloc);
    for gated in &file.items {
        add_item(&mut found, &gated.item)?;
    }
    Ok(found)
}
