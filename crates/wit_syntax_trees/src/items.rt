//! The items of files, packages, interfaces and worlds.

use crate::writer::Writer;
use wit_syntax::{
    AstItem, ExternKind, File, FileItem, Gated, Include, IncludeName, Interface, InterfaceItem,
    Package, PackageHeader, ToplevelUse, Use, World, WorldItem,
};

impl Writer {
    /// A whole text: the header of its package, and its items.
    pub fn file(&mut self, file: &File) {
        self.go_in();
        self.header(&file.package);
        for gated in &file.items {
            self.gates(gated);
            self.file_item(&gated.item);
        }
        self.go_out();
    }

    fn header(&mut self, package: &Option<PackageHeader>) {
        if let Some(header) = package {
            self.docs(&header.docs);
            self.line_of_package("header ", &header.name);
        }
    }

    fn file_item(&mut self, item: &FileItem) {
        match item {
            FileItem::Item(item) => self.item(item),
            FileItem::Package(package) => self.package(package),
        }
    }

    fn package(&mut self, package: &Package) {
        self.line_of_package("package ", &package.name);
        self.go_in();
        for gated in &package.items {
            self.gates(gated);
            self.item(&gated.item);
        }
        self.go_out();
    }

    fn item(&mut self, item: &AstItem) {
        match item {
            AstItem::Use(used) => self.toplevel_use(used),
            AstItem::Interface(interface) => self.interface("", interface),
            AstItem::World(world) => self.world(world),
        }
    }

    fn toplevel_use(&mut self, used: &ToplevelUse) {
        self.begin("use ");
        self.path(&used.item);
        self.as_name(&used.as_);
    }

    /// An interface, behind words that say what it is to a world.
    fn interface(&mut self, words: &str, interface: &Interface) {
        self.begin(words);
        self.words("interface ");
        self.last_id(&interface.name);
        self.interface_items(&interface.items);
    }

    fn interface_items(&mut self, items: &[Gated<InterfaceItem>]) {
        self.go_in();
        for gated in items {
            self.gates(gated);
            self.interface_item(&gated.item);
        }
        self.go_out();
    }

    fn interface_item(&mut self, item: &InterfaceItem) {
        match item {
            InterfaceItem::Use(used) => self.used(used),
            InterfaceItem::TypeDef(definition) => self.definition(definition),
            InterfaceItem::Func(function) => self.function("", function),
        }
    }

    fn used(&mut self, used: &Use) {
        self.line_of_path("use ", &used.from);
        self.go_in();
        for name in &used.names {
            self.used_name(name);
        }
        self.go_out();
    }

    fn world(&mut self, world: &World) {
        self.named("world ", &world.name);
        self.go_in();
        for gated in &world.items {
            self.gates(gated);
            self.world_item(&gated.item);
        }
        self.go_out();
    }

    fn world_item(&mut self, item: &WorldItem) {
        match item {
            WorldItem::Import(external) => self.external("import ", external),
            WorldItem::Export(external) => self.external("export ", external),
            WorldItem::Use(used) => self.used(used),
            WorldItem::TypeDef(definition) => self.definition(definition),
            WorldItem::Include(include) => self.include(include),
        }
    }

    fn external(&mut self, words: &str, external: &ExternKind) {
        match external {
            ExternKind::Func(function) => self.function(words, function),
            ExternKind::Interface(interface) => self.interface(words, interface),
            ExternKind::Path(path) => self.line_of_path(words, path),
        }
    }

    fn include(&mut self, include: &Include) {
        self.line_of_path("include ", &include.from);
        self.go_in();
        for name in &include.names {
            self.included_name(name);
        }
        self.go_out();
    }

    fn included_name(&mut self, name: &IncludeName) {
        self.begin("name ");
        self.id(&name.name);
        self.words(" as ");
        self.last_id(&name.as_);
    }
}
