//! Groups of files that are parsed by themselves.

ghost use Rattle.std.specs.Prelude.{IfSome, OnOk};
ghost use Rattle.wit_resolution_rows.specs.Whole.{AreWhole, IsWhole};

use crate::groups::Group;
use std::alloc::AllocError;
use wit_pages::Page;
use wit_resolution::{
    ResolveError, SourceMap, UnresolvedPackageGroup, law_parsed_packages_are_well_formed,
};

/// Writes why files of those texts aren't taken.
fn refusal(page: &mut Page, map: &SourceMap, error: &ResolveError) {
    page.begin("");
    page.made(&error.render(page.alloc, map));
    page.end();
}

/// The packages of a group of files; or none, where it isn't taken, and it is written why.
pub fn parsed(page: &mut Page, group: &Group) -> Option<UnresolvedPackageGroup>
    ensures { IfSome result IsWhole }
{
    law_parsed_packages_are_well_formed();
    let Ok(files) = group.files(page.alloc) else {
        page.refuse();
        return None;
    };
    match UnresolvedPackageGroup::parse_all(page.alloc, files.as_slice()) {
        Ok(parsed) => Some(parsed),
        Err((map, fault)) => {
            refusal(page, &map, &ResolveError::of_texts(fault, 0));
            None
        }
    }
}

/// Adds a group behind others.
fn add(
    found: &mut Vec<UnresolvedPackageGroup>,
    one: UnresolvedPackageGroup,
) -> Result<(), AllocError>
    requires one { IsWhole one }
    requires others { AreWhole found.old.items }
    ensures { OnOk result (AreWhole found.new.items) }
{
    found.push(one)?;
    Ok(())
}

/// The packages of groups of files; or none, where one isn't taken, and it is written why.
pub fn parsed_each(page: &mut Page, groups: &[Group]) -> Option<Vec<UnresolvedPackageGroup>>
    ensures { IfSome result (λ v. AreWhole v.items) }
{
    let mut found = Vec::new(page.alloc);
    for group in groups {
        let one = parsed(page, group)?;
        match add(&mut found, one) {
            Ok(()) => {}
            Err(_) => {
                page.refuse();
                return None;
            }
        }
    }
    Some(found)
}
