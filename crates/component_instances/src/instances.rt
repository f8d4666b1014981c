//! Instances.

ghost use Rattle.std.specs.Prelude.{◌≡◌, map};
ghost use Rattle.binary_grammar.specs.Fault.{Gives};
ghost use Rattle.binary_grammar.specs.Syntax.{meaning, vec};
ghost use Rattle.component_definitions.specs.Passed.component_value_types-Combinators.{named_vec, distinct};
ghost use Rattle.component_definitions.specs.Passed.component_value_types-Names.{named_value};
ghost use Rattle.component_instances.specs.Instances as spec;

use binary_grammar::{Part, ReadError, Reader, Rule, WriteFault, put_number, put_vec};
use component_definitions::{
    Code, ExportKind, HasName, Named, Scope, Sort, coded_of, core_count, count, distinct_vec_of,
    extern_name, put_extern_name,
};

/// What a core module is given under a name: all that a core instance exports.
#[derive(Clone, Copy, Debug, PartialEq, Eq)]
pub struct CoreArgument {
    /// The core instance.
    pub instance: u32,
}

/// Something of a core sort.
#[derive(Clone, Copy, Debug, PartialEq, Eq)]
pub struct CoreItem {
    /// The sort.
    pub kind: ExportKind,
    /// The place in the index space of the sort.
    pub index: u32,
}

/// Something of a sort.
#[derive(Clone, Copy, Debug, PartialEq, Eq)]
pub struct Item {
    /// The sort.
    pub sort: Sort,
    /// The place in the index space of the sort.
    pub index: u32,
}

/// What an instance exports that is made of exports.
#[derive(Clone, Copy, Debug, PartialEq, Eq)]
pub struct InlineExport<'a> {
    /// The name.
    pub name: &'a str,
    /// What it names.
    pub item: Item,
}

/// A core instance (Component Model Binary, Core Instance Definitions). Names are distinct.
#[derive(Debug, Drop)]
pub enum CoreInstance<'a> {
    /// Of a core module.
    Instantiate {
        /// The core module.
        core_module: u32,
        /// What it is given.
        args: Vec<Named<'a, CoreArgument>>,
    },
    /// Made of these exports.
    Inline(Vec<Named<'a, CoreItem>>),
}

/// An instance (Component Model Binary, Instance Definitions). Names are distinct.
#[derive(Debug, Drop)]
pub enum Instance<'a> {
    /// Of a component.
    Instantiate {
        /// The component.
        component: u32,
        /// What it is given.
        args: Vec<Named<'a, Item>>,
    },
    /// Made of these exports.
    Inline(Vec<InlineExport<'a>>),
}

impl<'a> HasName<'a> for InlineExport<'a> {
    ghost name = { λ e. e.name.now };

    fn name(&self) -> &'a str {
        self.name
    }
}

impl<'a> Part<'a> for CoreArgument {
    type Context = Scope;

    ghost use Rattle.std.specs.Prelude.{ℕ};
    ghost use Rattle.component_definitions.specs.Passed.component_value_types-declared-scope-Scope.{Scope};
    ghost use Rattle.component_instances.specs.Instances as spec;

    ghost Value = { ℕ };

    ghost Known = { Scope };

    ghost syntax = { spec.core_argument };

    ghost known = { λ s. s };

    ghost value = { spec.core_argument_value };

    #[tactic(auto, unfolding(crate::specs::Instances::core_argument))]
    fn read(there: Scope, from: &mut Reader<'a>) -> Result<CoreArgument, ReadError> {
        from.byte_is(Rule::Tag, 0x12)?;
        let instance = from.index(there.core_instances)?;
        Ok(CoreArgument { instance })
    }

    #[tactic(auto, unfolding(crate::specs::Instances::core_argument))]
    fn put(&self, out: &mut Vec<u8>) -> Result<(), WriteFault> {
        out.push(0x12)?;
        put_number(out, self.instance)?;
        Ok(())
    }
}

impl<'a> Part<'a> for CoreItem {
    type Context = Scope;

    ghost use Rattle.component_definitions.specs.Passed.component_value_types-declared-scope-Scope.{Scope};
    ghost use Rattle.component_instances.specs.declared.instances.CoreItem.{CoreItem};
    ghost use Rattle.component_instances.specs.Instances as spec;

    ghost Value = { CoreItem };

    ghost Known = { Scope };

    ghost syntax = { spec.core_item };

    ghost known = { λ s. s };

    ghost value = { λ x. x };

    #[tactic(auto, unfolding(crate::specs::Instances::core_item))]
    fn read(there: Scope, from: &mut Reader<'a>) -> Result<CoreItem, ReadError> {
        let kind = coded_of(from)?;
        let index = from.index(core_count(there, kind))?;
        Ok(CoreItem { kind, index })
    }

    #[tactic(auto, unfolding(crate::specs::Instances::core_item))]
    fn put(&self, out: &mut Vec<u8>) -> Result<(), WriteFault> {
        out.push(self.kind.byte())?;
        put_number(out, self.index)?;
        Ok(())
    }
}

impl<'a> Part<'a> for Item {
    type Context = Scope;

    ghost use Rattle.component_definitions.specs.Passed.component_value_types-declared-scope-Scope.{Scope};
    ghost use Rattle.component_instances.specs.declared.instances.Item.{Item};
    ghost use Rattle.component_instances.specs.Instances as spec;

    ghost Value = { Item };

    ghost Known = { Scope };

    ghost syntax = { spec.item };

    ghost known = { λ s. s };

    ghost value = { λ x. x };

    #[tactic(auto, unfolding(crate::specs::Instances::item))]
    fn read(there: Scope, from: &mut Reader<'a>) -> Result<Item, ReadError> {
        let sort = Sort::read(there, from)?;
        let index = from.index(count(there, sort))?;
        Ok(Item { sort, index })
    }

    #[tactic(auto, unfolding(crate::specs::Instances::item))]
    fn put(&self, out: &mut Vec<u8>) -> Result<(), WriteFault> {
        self.sort.put(out)?;
        put_number(out, self.index)?;
        Ok(())
    }
}

impl<'a> Part<'a> for InlineExport<'a> {
    type Context = Scope;

    ghost use Rattle.component_definitions.specs.Passed.component_value_types-declared-scope-Scope.{Scope};
    ghost use Rattle.component_instances.specs.Instances as spec;

    ghost Value = { spec.InlineExportValue };

    ghost Known = { Scope };

    ghost syntax = { spec.inline_export };

    ghost known = { λ s. s };

    ghost value = { spec.inline_export_value };

    #[tactic(auto, unfolding(crate::specs::Instances::inline_export))]
    fn read(there: Scope, from: &mut Reader<'a>) -> Result<InlineExport<'a>, ReadError> {
        let name = extern_name(from)?;
        let item = Item::read(there, from)?;
        Ok(InlineExport { name, item })
    }

    #[tactic(auto, unfolding(crate::specs::Instances::inline_export))]
    fn put(&self, out: &mut Vec<u8>) -> Result<(), WriteFault> {
        put_extern_name(self.name, out)?;
        self.item.put(out)?;
        Ok(())
    }
}

/// What a core module is given, under distinct names.
fn core_arguments_of<'a>(
    there: Scope,
    from: &mut Reader<'a>,
) -> Result<Vec<Named<'a, CoreArgument>>, ReadError>
    ensures gives { Gives (λ x. (map (named_value spec.core_argument_value) x.items, from.new.left)) result ((meaning (named_vec spec.core_argument) there).read from.old.left) }
    ensures end { from.new.end ≡ from.old.end }
{
    distinct_vec_of::<Named<'a, CoreArgument>>(there, from)
}

/// Exports of a core instance, under distinct names.
fn core_exports_of<'a>(
    there: Scope,
    from: &mut Reader<'a>,
) -> Result<Vec<Named<'a, CoreItem>>, ReadError>
    ensures gives { Gives (λ x. (map (named_value (λ i. i)) x.items, from.new.left)) result ((meaning (named_vec spec.core_item) there).read from.old.left) }
    ensures end { from.new.end ≡ from.old.end }
{
    distinct_vec_of::<Named<'a, CoreItem>>(there, from)
}

/// What a component is given, under distinct names.
fn arguments_of<'a>(there: Scope, from: &mut Reader<'a>) -> Result<Vec<Named<'a, Item>>, ReadError>
    ensures gives { Gives (λ x. (map (named_value (λ i. i)) x.items, from.new.left)) result ((meaning (named_vec spec.item) there).read from.old.left) }
    ensures end { from.new.end ≡ from.old.end }
{
    distinct_vec_of::<Named<'a, Item>>(there, from)
}

/// Exports of an instance, under distinct names.
fn exports_of<'a>(there: Scope, from: &mut Reader<'a>) -> Result<Vec<InlineExport<'a>>, ReadError>
    ensures gives { Gives (λ x. (map spec.inline_export_value x.items, from.new.left)) result ((meaning (distinct (λ e. e.name) (vec spec.inline_export)) there).read from.old.left) }
    ensures end { from.new.end ≡ from.old.end }
{
    distinct_vec_of::<InlineExport<'a>>(there, from)
}

fn core_instantiate<'a>(there: Scope, from: &mut Reader<'a>) -> Result<CoreInstance<'a>, ReadError>
    ensures gives { Gives (λ x. (spec.core_instance_value x, from.new.left)) result ((meaning (spec.core_instance_behind spec.instantiates) there).read from.old.left) }
    ensures end { from.new.end ≡ from.old.end }
{
    let core_module = from.index(there.core_modules)?;
    let args = core_arguments_of(there, from)?;
    Ok(CoreInstance::Instantiate { core_module, args })
}

fn instantiate<'a>(there: Scope, from: &mut Reader<'a>) -> Result<Instance<'a>, ReadError>
    ensures gives { Gives (λ x. (spec.instance_value x, from.new.left)) result ((meaning (spec.instance_behind spec.instantiates) there).read from.old.left) }
    ensures end { from.new.end ≡ from.old.end }
{
    let component = from.index(there.components)?;
    let args = arguments_of(there, from)?;
    Ok(Instance::Instantiate { component, args })
}

impl<'a> Part<'a> for CoreInstance<'a> {
    type Context = Scope;

    ghost use Rattle.component_definitions.specs.Passed.component_value_types-declared-scope-Scope.{Scope};
    ghost use Rattle.component_instances.specs.Instances as spec;

    ghost Value = { spec.CoreInstanceValue };

    ghost Known = { Scope };

    ghost syntax = { spec.core_instance };

    ghost known = { λ s. s };

    ghost value = { spec.core_instance_value };

    #[tactic(auto, unfolding(crate::specs::Instances::core_instance, crate::specs::Instances::instance_form_of))]
    fn read(there: Scope, from: &mut Reader<'a>) -> Result<CoreInstance<'a>, ReadError> {
        match from.byte()? {
            0 => core_instantiate(there, from),
            1 => Ok(CoreInstance::Inline(core_exports_of(there, from)?)),
            _ => Err(from.broken(Rule::Tag)),
        }
    }

    #[tactic(auto, unfolding(crate::specs::Instances::core_instance, crate::specs::Instances::instance_form_of))]
    fn put(&self, out: &mut Vec<u8>) -> Result<(), WriteFault> {
        match self {
            CoreInstance::Instantiate { core_module, args } => {
                out.push(0)?;
                put_number(out, *core_module)?;
                put_vec(args, out)?;
            }
            CoreInstance::Inline(exports) => {
                out.push(1)?;
                put_vec(exports, out)?;
            }
        }
        Ok(())
    }
}

impl<'a> Part<'a> for Instance<'a> {
    type Context = Scope;

    ghost use Rattle.component_definitions.specs.Passed.component_value_types-declared-scope-Scope.{Scope};
    ghost use Rattle.component_instances.specs.Instances as spec;

    ghost Value = { spec.InstanceValue };

    ghost Known = { Scope };

    ghost syntax = { spec.instance };

    ghost known = { λ s. s };

    ghost value = { spec.instance_value };

    #[tactic(auto, unfolding(crate::specs::Instances::instance, crate::specs::Instances::instance_form_of))]
    fn read(there: Scope, from: &mut Reader<'a>) -> Result<Instance<'a>, ReadError> {
        match from.byte()? {
            0 => instantiate(there, from),
            1 => Ok(Instance::Inline(exports_of(there, from)?)),
            _ => Err(from.broken(Rule::Tag)),
        }
    }

    #[tactic(auto, unfolding(crate::specs::Instances::instance, crate::specs::Instances::instance_form_of))]
    fn put(&self, out: &mut Vec<u8>) -> Result<(), WriteFault> {
        match self {
            Instance::Instantiate { component, args } => {
                out.push(0)?;
                put_number(out, *component)?;
                put_vec(args, out)?;
            }
            Instance::Inline(exports) => {
                out.push(1)?;
                put_vec(exports, out)?;
            }
        }
        Ok(())
    }
}
