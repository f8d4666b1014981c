//! The texts of interfaces and worlds.

ghost use Rattle.std.specs.Prelude.{◌≡◌, true};
ghost use Rattle.wit_names.specs.Names.{IsKeyThere};

use indexmap::IndexMap;
use std::alloc::AllocError;
use wit_pages::{Page, under};
use wit_resolution::Resolve;
use wit_types::{InterfaceId, Package, PackageId, WorldId, WorldItem, WorldKey};

/// A text, if there is one.
fn found(page: &mut Page, text: &Result<Option<String>, AllocError>) {
    match text {
        Ok(Some(text)) => page.words(text),
        Ok(None) => page.words("-"),
        Err(_) => page.refuse(),
    }
}

/// The texts of an interface.
fn interface(page: &mut Page, resolve: &Resolve, id: InterfaceId) {
    if id.index() >= resolve.interfaces().len() {
        return page.words("! no interface\n");
    }
    page.begin("interface ");
    found(page, &resolve.id_of(id));
    page.words(" canonical ");
    found(page, &resolve.canonicalized_id_of(id));
    page.end();
}

/// Whether the interface of a key is there.
fn is_there(resolve: &Resolve, key: &WorldKey) -> bool
    ensures { result ≡ true → IsKeyThere resolve.now.graph.tables.interfaces.all key.now }
{
    match key {
        WorldKey::Name(_) => true,
        WorldKey::Interface(id) => id.index() < resolve.interfaces().len(),
    }
}

/// The texts of a key.
fn key(page: &mut Page, resolve: &Resolve, word: &str, key: &WorldKey) {
    if !is_there(resolve, key) {
        return page.words("! no interface\n");
    }
    page.begin(word);
    found(page, &resolve.name_world_key(key));
    page.words(" canonical ");
    found(page, &resolve.name_canonicalized_world_key(key));
    page.end();
}

/// The texts of the keys of one side of a world.
fn keys(page: &mut Page, resolve: &Resolve, word: &str, side: &IndexMap<WorldKey, WorldItem>) {
    for (one, _) in side.iter() {
        key(page, resolve, word, one);
    }
}

/// The texts of a world of that package, and of its keys.
fn world(page: &mut Page, resolve: &Resolve, owner: PackageId, id: WorldId) {
    let Some(of) = under(resolve.worlds(), id) else {
        return page.words("! no world\n");
    };
    if owner.index() >= resolve.packages().len() {
        return page.words("! no package\n");
    }
    page.begin("world ");
    page.made(&resolve.id_of_name(owner, &of.name));
    page.words(" canonical ");
    page.made(&resolve.canonicalized_id_of_name(owner, &of.name));
    page.end();
    page.go_in();
    keys(page, resolve, "import ", &of.imports);
    keys(page, resolve, "export ", &of.exports);
    page.go_out();
}

/// The texts of a package, of its interfaces and of its worlds.
fn package(page: &mut Page, resolve: &Resolve, owner: PackageId, of: &Package) {
    page.begin("package ");
    page.shown(&of.name);
    page.words(" suffix ");
    found(page, &resolve.version_suffix_of(&of.name));
    page.end();
    page.go_in();
    for (_, id) in of.interfaces.iter() {
        interface(page, resolve, *id);
    }
    for (_, id) in of.worlds.iter() {
        world(page, resolve, owner, *id);
    }
    page.go_out();
}

/// The texts of all packages.
pub fn all(page: &mut Page, resolve: &Resolve) {
    for (index, of) in resolve.packages().iter().enumerate() {
        package(page, resolve, PackageId::from_index(index), of);
    }
}
