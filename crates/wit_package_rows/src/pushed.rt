//! Files that are given to a resolver one by one.

use std::alloc::Global;
use wit_package::{Resolver, UnresolvedPackageGroup};
use wit_rules::PackageFault;
use wit_syntax::{File, SourceFault, SourceMap, SyntaxFault, parse_file};
use wit_types::UnresolvedPackage;

/// The same fault of a package.
fn source_fault(fault: SourceFault) -> PackageFault {
    match fault {
        SourceFault::TooLarge => PackageFault::Syntax(SyntaxFault::TooLarge),
        SourceFault::OutOfMemory => PackageFault::OutOfMemory,
    }
}

/// The same fault of a package.
fn syntax_fault(fault: SyntaxFault) -> PackageFault {
    match fault {
        SyntaxFault::OutOfMemory => PackageFault::OutOfMemory,
        _ => PackageFault::Syntax(fault),
    }
}

/// The tree of a text, which goes to the map.
fn tree_of<'t>(
    alloc: Global,
    map: &mut SourceMap,
    path: &str,
    text: &'t str,
) -> Result<File<'t>, PackageFault> {
    match map.push(path, text) {
        Ok(offset) => parse_file(alloc, text, offset).map_err(syntax_fault),
        Err(fault) => Err(source_fault(fault)),
    }
}

/// What a resolver answers to the trees of texts, which go to the map.
fn package_of(
    alloc: Global,
    map: &mut SourceMap,
    texts: &[(&str, &str)],
) -> Result<UnresolvedPackage, PackageFault> {
    let mut resolver = Resolver::new(alloc);
    for (path, text) in texts {
        let file = tree_of(alloc, map, path, text)?;
        resolver.push(file)?;
    }
    resolver.resolve(alloc)
}

/// What texts are resolved to whose trees are given to a resolver one by one, or why they are refused; packages that are
/// nested in them aren't looked at.
pub fn resolved(
    alloc: Global,
    texts: &[(&str, &str)],
) -> Result<UnresolvedPackageGroup, (SourceMap, PackageFault)> {
    let mut source_map = SourceMap::new(alloc);
    match package_of(alloc, &mut source_map, texts) {
        Ok(main) => Ok(UnresolvedPackageGroup {
            main,
            nested: Vec::new(alloc),
            source_map,
        }),
        Err(fault) => Err((source_map, fault)),
    }
}
