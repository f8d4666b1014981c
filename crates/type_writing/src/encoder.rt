//! What takes types.

ghost use Rattle.std.specs.Prelude.{◌≡◌, ℕ, List, ◌++◌, ◌<◌, ◌∷◌, [], length, slice_get, IfOk, IfSome, IfErr, OnOk, OnErr, Some, None, option_map, string_bytes, true, false};
ghost use Rattle.wit_types.specs.declared.interface.TypeDef.{TypeDef as Def};
ghost use Rattle.wit_types.specs.declared.kind.«Type».TheVariants.{Id};
ghost use Rattle.type_meaning.specs.Passed.component_value_types-declared-values-ValueType-TheVariants.{Index};
ghost use Rattle.type_meaning.specs.Passed.component_value_types-Types.{defined_type_value};
ghost use Rattle.distinct_names.specs.Names.{is_new};
ghost use Rattle.type_meaning.specs.Items.{item_at, named_item, type_item};
ghost use Rattle.type_writing.specs.declared.fault.Fault.TheVariants.{OutOfMemory};
ghost use Rattle.type_writing.specs.Placing.{MayBeDefined};
ghost use Rattle.type_writing.specs.Refusals.{IsCause};
ghost use Rattle.type_writing.specs.Writing.{Stands, KindStands, Begins, remembering};

use crate::fault::Fault;
use type_meaning::DefinedType;
use wit_types::{TypeId, TypeOwner};

/// Where types are written: a component at its root, or the type of an instance. It answers the index of each.
pub trait ValtypeEncoder<'s> {
    ghost use Rattle.std.specs.Prelude.{List, Option, ℕ};
    ghost use Rattle.wit_types.specs.declared.interface.TypeDef.{TypeDef};
    ghost use Rattle.type_meaning.specs.Items.{Item};
    ghost use Rattle.type_writing.specs.Writing.{Setting};

    /// What stays while types are written.
    ghost setting: { Self → Setting };

    /// What each index of a type stands for.
    ghost space: { Self → List Item };

    /// The index that is remembered of each type, by its id.
    ghost table: { Self → ℕ → Option ℕ };

    /// The names that are given here, in order.
    ghost names: { Self → List (List ℕ) };

    /// The type with that id has been given its own name here.
    ghost given: { Self → ℕ → Type 0 };

    /// What is remembered is so of these types.
    ghost good: { Self → List TypeDef → Type 0 };

    /// What is written may stand where it does.
    ghost placed: { Self → Type 0 };

    /// 32 bits can't say one more index.
    ghost full: { Self → Type 0 };

    /// What the types of the component around stand for, if the sink isn't the component.
    ghost outside: { Self → List Item };

    /// The index of a type that is written.
    fn known(&self, id: TypeId) -> Option<u32>
        ensures remembered { result ≡ table self.now id }
        ensures stands { IfSome result (λ i. (types : List Def) → good self.now types → Stands (setting self.now).label types (space self.now) (Id id) (Index i)) };

    /// Whether types of this owner are given their names here.
    fn is_own(&self, owner: TypeOwner) -> bool
        ensures { result ≡ (setting self.now).is_own owner };

    /// Defines a type, and answers its index. Where that fails nothing is written.
    fn define(&mut self, ty: DefinedType<'s>) -> Result<u32, Fault>
        ensures setting { setting self.new ≡ setting self.old }
        ensures outside { Begins (outside self.old) (outside self.new) }
        ensures table { table self.new ≡ table self.old }
        ensures names { names self.new ≡ names self.old }
        ensures keeps { (k : ℕ) → given self.old k → given self.new k }
        ensures good { (types : List Def) → good self.old types → good self.new types }
        ensures placed { MayBeDefined (length (space self.old)) (defined_type_value ty.entry) → placed self.old → placed self.new }
        ensures ok { IfOk result (λ i. (i ≡ length (space self.old)) × (space self.new ≡ space self.old ++ type_item (space self.old) (defined_type_value ty.entry) ∷ [])) }
        ensures err { OnErr result (space self.new ≡ space self.old) }
        ensures cause { IfErr result (IsCause ⊥ (full self.new)) };

    /// Gives what is written of a type the type's own name, and answers the index of that. Where that fails nothing is written.
    fn declare(
        &mut self,
        owner: TypeOwner,
        name: &'s str,
        id: TypeId,
        index: u32,
    ) -> Result<u32, Fault>
        requires { (setting self.old).is_own owner ≡ true }
        ensures setting { setting self.new ≡ setting self.old }
        ensures outside { Begins (outside self.old) (outside self.new) }
        ensures table { table self.new ≡ table self.old }
        ensures names { OnOk result (names self.new ≡ names self.old ++ name.entry.now ∷ []) }
        ensures gives { OnOk result (given self.new id) }
        ensures keeps { (k : ℕ) → given self.old k → given self.new k }
        ensures good { OnOk result ((types : List Def) (d : Def) → good self.old types → slice_get types id ≡ Some d → d.owner ≡ owner → option_map string_bytes d.name ≡ Some name.entry.now → KindStands (setting self.old).label types (space self.old) d.kind index → good self.new types) }
        ensures placed { index < length (space self.old) → placed self.old → placed self.new }
        ensures ok { IfOk result (λ i. (i ≡ length (space self.old)) × (space self.new ≡ space self.old ++ named_item ((setting self.old).label (record { owner = owner; name = name.entry.now })) (item_at (space self.old) index) ∷ [])) }
        ensures err { OnErr result ((space self.new ≡ space self.old) × (names self.new ≡ names self.old) × ((types : List Def) → good self.old types → good self.new types)) }
        ensures cause { IfErr result (IsCause (is_new (names self.old) name.entry.now ≡ false) (full self.new)) };

    /// Takes a type of another interface from the instance that has it, and answers its index. Where that fails nothing is written
    /// here.
    fn foreign(&mut self, owner: TypeOwner, name: &'s str, id: TypeId) -> Result<u32, Fault>
        requires { (setting self.old).is_own owner ≡ false }
        ensures setting { setting self.new ≡ setting self.old }
        ensures outside { Begins (outside self.old) (outside self.new) }
        ensures table { table self.new ≡ table self.old }
        ensures names { names self.new ≡ names self.old }
        ensures keeps { (k : ℕ) → given self.old k → given self.new k }
        ensures begins { (types : List Def) → good self.old types → Begins (space self.old) (space self.new) }
        ensures placed { (types : List Def) → good self.old types → placed self.old → placed self.new }
        ensures ok { IfOk result (λ i. (types : List Def) (d : Def) → good self.old types → slice_get types id ≡ Some d → d.owner ≡ owner → option_map string_bytes d.name ≡ Some name.entry.now → good self.new types × Stands (setting self.new).label types (space self.new) (Id id) (Index i)) }
        ensures err { OnErr result ((types : List Def) → good self.old types → good self.new types) }
        ensures cause { IfErr result (IsCause ((setting self.old).homes id ≡ None) (full self.new)) };

    /// Remembers the index of a type. Answers `OutOfMemory` where memory is wanting: then nothing changes.
    fn remember(&mut self, id: TypeId, index: u32) -> Result<(), Fault>
        ensures setting { setting self.new ≡ setting self.old }
        ensures outside { Begins (outside self.old) (outside self.new) }
        ensures space { space self.new ≡ space self.old }
        ensures names { names self.new ≡ names self.old }
        ensures keeps { (k : ℕ) → given self.old k → given self.new k }
        ensures placed { placed self.old → placed self.new }
        ensures kept { OnOk result ((k : ℕ) → table self.new k ≡ remembering (table self.old) id index k) }
        ensures good { OnOk result ((types : List Def) → good self.old types → Stands (setting self.old).label types (space self.old) (Id id) (Index index) → good self.new types) }
        ensures err { OnErr result ((types : List Def) → good self.old types → good self.new types) }
        ensures cause { IfErr result (λ e. e ≡ OutOfMemory) };
}
