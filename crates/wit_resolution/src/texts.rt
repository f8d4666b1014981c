//! Texts of several packages.

ghost use Rattle.std.specs.Prelude.{◌≡◌, ◌∷◌, ◌++◌, [], List, IfOk, IfErr, OnOk};
ghost use Rattle.std.specs.List.{AllZip};
ghost use Rattle.wit_order.specs.Order.{Has};
ghost use Rattle.wit_well_formed.specs.Passed.wit_package-GroupView.{texts};
ghost use Rattle.wit_well_formed.specs.Passed.wit_package-declared-group-UnresolvedPackageGroup.{UnresolvedPackageGroup};
ghost use Rattle.wit_resolution.specs.Texts.{files_of, IsGroupOf, IsUnread};
ghost use Rattle.wit_words.specs.Sources.{SourceText};

use std::alloc::Global;
use wit_well_formed::{PackageFault, UnresolvedPackageGroup};
use wit_words::SourceMap;

/// Adds the group of texts that are the files of a package.
fn add_group_of(
    alloc: Global,
    groups: &mut Vec<UnresolvedPackageGroup>,
    files: &[(&str, &str)],
) -> Result<(), (SourceMap, PackageFault)>
    ensures ok { OnOk result ((g : UnresolvedPackageGroup) × IsGroupOf (texts files.now) g × (groups.new.items ≡ groups.old.items ++ g ∷ [])) }
    ensures cause { IfErr result (λ e. IsUnread (texts files.now) e.0 e.1) }
{
    let group = UnresolvedPackageGroup::parse_all(alloc, files)?;
    match groups.push(group) {
        Ok(()) => Ok(()),
        Err(_) => Err((SourceMap::new(alloc), PackageFault::OutOfMemory)),
    }
}

/// The groups of the texts that are the files of a package, and of each of the others; or the texts up to one that isn't taken, of those of
/// its package, and why.
pub fn groups_of_texts(
    alloc: Global,
    main: &[(&str, &str)],
    deps: &[(&str, &str)],
) -> Result<Vec<UnresolvedPackageGroup>, (SourceMap, PackageFault)>
    ensures ok { IfOk result (λ v. AllZip IsGroupOf (files_of (texts main.now) (texts deps.now)) v.items) }
    ensures cause { IfErr result (λ e. (files : List SourceText) × Has (files_of (texts main.now) (texts deps.now)) files × IsUnread files e.0 e.1) }
{
    let mut groups = Vec::new(alloc);
    add_group_of(alloc, &mut groups, main)?;
    for (path, contents) in deps {
        add_group_of(alloc, &mut groups, [(*path, *contents)].as_slice())?;
    }
    Ok(groups)
}
