//! Types of values and functions.

ghost use Rattle.std.specs.Prelude.{◌≡◌, ◌++◌, OnOk, Err, map, option_map};
ghost use Rattle.binary_grammar.specs.Fault.{Gives};
ghost use Rattle.binary_grammar.specs.Syntax.{meaning, bytes, IsTyped};
ghost use Rattle.wasm_types.specs.Code.{coded_format};
ghost use Rattle.component_value_types.specs.Combinators.{named_vec};
ghost use Rattle.component_value_types.specs.Names.{named_value};
ghost use Rattle.component_value_types.specs.Values.{value_type};
ghost use Rattle.component_value_types.specs.Types as spec;

use crate::distinct::distinct_vec_of;
use crate::named::{Label, Named, labels_of};
use crate::optional::{optional_of, put_optional};
use crate::scope::Scope;
use crate::values::{PrimitiveValueType, ValueType};
use binary_grammar::{
    Part, ReadError, Reader, Rule, WriteFault, broken_at, put_number, put_vec, vec_of,
};

/// The type of a function: its parameters, whose names are distinct, and its result, if it has one.
#[derive(Debug, Drop)]
pub struct FunctionType<'a> {
    /// The parameters.
    pub params: Vec<Named<'a, ValueType>>,
    /// The result.
    pub result: Option<ValueType>,
}

/// What a case of a variant carries, if it carries something.
#[derive(Clone, Copy, Debug, PartialEq, Eq)]
pub struct CaseType {
    /// Its type.
    pub ty: Option<ValueType>,
}

impl<'a> Part<'a> for CaseType {
    type Context = Scope;

    ghost use Rattle.std.specs.Prelude.{Option};
    ghost use Rattle.component_value_types.specs.declared.scope.Scope.{Scope};
    ghost use Rattle.component_value_types.specs.declared.values.ValueType.{ValueType};
    ghost use Rattle.component_value_types.specs.Types as spec;

    ghost Value = { Option ValueType };

    ghost Known = { Scope };

    ghost syntax = { spec.case_type };

    ghost known = { λ s. s };

    ghost value = { spec.case_value };

    #[tactic(auto, unfolding(crate::specs::Types::case_type))]
    fn read(there: Scope, from: &mut Reader<'a>) -> Result<CaseType, ReadError> {
        let ty = optional_of(there, from)?;
        from.byte_is(Rule::Tag, 0)?;
        Ok(CaseType { ty })
    }

    #[tactic(auto, unfolding(crate::specs::Types::case_type))]
    fn put(&self, out: &mut Vec<u8>) -> Result<(), WriteFault> {
        put_optional(&self.ty, out)?;
        out.push(0)?;
        Ok(())
    }
}

/// A type of values or of functions (Component Model Binary, Type Definitions). Names of fields, cases and labels are
/// distinct.
#[derive(Debug, Drop)]
pub enum DefinedType<'a> {
    /// A primitive type.
    Primitive(PrimitiveValueType),
    /// `record`, with its fields.
    Record(Vec<Named<'a, ValueType>>),
    /// `variant`, with its cases.
    Variant(Vec<Named<'a, CaseType>>),
    /// `list`
    List(ValueType),
    /// `list` of so many elements.
    FixedLengthList {
        /// The type of the elements.
        element: ValueType,
        /// How many.
        length: u32,
    },
    /// `tuple`
    Tuple(Vec<ValueType>),
    /// `flags`
    Flags(Vec<Label<'a>>),
    /// `enum`
    Enum(Vec<Label<'a>>),
    /// `option`
    Option(ValueType),
    /// `result`
    Result {
        /// What there is of a success.
        ok: Option<ValueType>,
        /// What there is of a failure.
        err: Option<ValueType>,
    },
    /// `own`: a handle of the resource type at this index.
    Own(u32),
    /// `borrow`: a lent handle of the resource type at this index.
    Borrow(u32),
    /// A function.
    Function(FunctionType<'a>),
}

/// Parameters or fields, whose names are distinct.
fn named_types_of<'a>(
    there: Scope,
    from: &mut Reader<'a>,
) -> Result<Vec<Named<'a, ValueType>>, ReadError>
    ensures gives { Gives (λ x. (map (named_value (λ t. t)) x.items, from.new.left)) result ((meaning (named_vec value_type) there).read from.old.left) }
    ensures end { from.new.end ≡ from.old.end }
{
    distinct_vec_of::<Named<'a, ValueType>>(there, from)
}

/// Cases, whose names are distinct.
fn cases_of<'a>(there: Scope, from: &mut Reader<'a>) -> Result<Vec<Named<'a, CaseType>>, ReadError>
    ensures gives { Gives (λ x. (map (named_value spec.case_value) x.items, from.new.left)) result ((meaning (named_vec spec.case_type) there).read from.old.left) }
    ensures end { from.new.end ≡ from.old.end }
{
    distinct_vec_of::<Named<'a, CaseType>>(there, from)
}

/// Whether a byte says that a function has a result.
#[tactic(auto, unfolding(crate::specs::Types::result_form_of))]
fn result_form_at(byte: u8) -> Result<bool, Rule>
    ensures { result ≡ spec.result_form_of byte }
{
    match byte {
        0 => Ok(true),
        1 => Ok(false),
        _ => Err(Rule::Tag),
    }
}

/// Whether a function has a result.
fn result_form(from: &mut Reader<'_>) -> Result<bool, ReadError>
    ensures gives { Gives (λ x. (x, from.new.left)) result ((coded_format spec.result_form_of).read from.old.left) }
    ensures end { from.new.end ≡ from.old.end }
{
    let at = from.left();
    let byte = from.byte()?;
    match result_form_at(byte) {
        Ok(value) => Ok(value),
        Err(rule) => Err(broken_at(rule, at)),
    }
}

/// The result of a function: `00` and a type, or `01 00`.
#[tactic(auto, unfolding(crate::specs::Types::function_result))]
fn function_result(there: Scope, from: &mut Reader<'_>) -> Result<Option<ValueType>, ReadError>
    ensures gives { Gives (λ x. (x, from.new.left)) result ((meaning spec.function_result there).read from.old.left) }
    ensures end { from.new.end ≡ from.old.end }
{
    if result_form(from)? {
        Ok(Some(ValueType::read(there, from)?))
    } else {
        from.byte_is(Rule::Tag, 0)?;
        Ok(None)
    }
}

/// Adds the result of a function.
#[tactic(auto, unfolding(crate::specs::Types::function_result))]
fn put_result(of: Option<ValueType>, out: &mut Vec<u8>) -> Result<(), WriteFault>
    ensures bytes { OnOk result (out.new.items ≡ out.old.items ++ bytes spec.function_result of) }
    ensures typed { OnOk result (IsTyped spec.function_result of) }
    ensures large { result ≡ Err WriteFault.TooLarge → IsTyped spec.function_result of → ⊥ }
{
    match of {
        Some(ty) => {
            out.push(0)?;
            ty.put(out)?;
        }
        None => {
            out.push(1)?;
            out.push(0)?;
        }
    }
    Ok(())
}

impl<'a> Part<'a> for FunctionType<'a> {
    type Context = Scope;

    ghost use Rattle.component_value_types.specs.declared.scope.Scope.{Scope};
    ghost use Rattle.component_value_types.specs.Types as spec;

    ghost Value = { spec.FunctionTypeValue };

    ghost Known = { Scope };

    ghost syntax = { spec.function_type };

    ghost known = { λ s. s };

    ghost value = { spec.function_type_value };

    #[tactic(auto, unfolding(crate::specs::Types::function_type))]
    fn read(there: Scope, from: &mut Reader<'a>) -> Result<FunctionType<'a>, ReadError> {
        let params = named_types_of(there, from)?;
        let result = function_result(there, from)?;
        Ok(FunctionType { params, result })
    }

    #[tactic(auto, unfolding(crate::specs::Types::function_type))]
    fn put(&self, out: &mut Vec<u8>) -> Result<(), WriteFault> {
        put_vec(&self.params, out)?;
        put_result(self.result, out)?;
        Ok(())
    }
}

fn record<'a>(there: Scope, from: &mut Reader<'a>) -> Result<DefinedType<'a>, ReadError>
    ensures gives { Gives (λ x. (spec.defined_type_value x, from.new.left)) result ((meaning (spec.behind spec.record_form) there).read from.old.left) }
    ensures end { from.new.end ≡ from.old.end }
{
    Ok(DefinedType::Record(named_types_of(there, from)?))
}

fn variant<'a>(there: Scope, from: &mut Reader<'a>) -> Result<DefinedType<'a>, ReadError>
    ensures gives { Gives (λ x. (spec.defined_type_value x, from.new.left)) result ((meaning (spec.behind spec.variant_form) there).read from.old.left) }
    ensures end { from.new.end ≡ from.old.end }
{
    Ok(DefinedType::Variant(cases_of(there, from)?))
}

fn list<'a>(there: Scope, from: &mut Reader<'a>) -> Result<DefinedType<'a>, ReadError>
    ensures gives { Gives (λ x. (spec.defined_type_value x, from.new.left)) result ((meaning (spec.behind spec.list_form) there).read from.old.left) }
    ensures end { from.new.end ≡ from.old.end }
{
    Ok(DefinedType::List(ValueType::read(there, from)?))
}

fn tuple<'a>(there: Scope, from: &mut Reader<'a>) -> Result<DefinedType<'a>, ReadError>
    ensures gives { Gives (λ x. (spec.defined_type_value x, from.new.left)) result ((meaning (spec.behind spec.tuple_form) there).read from.old.left) }
    ensures end { from.new.end ≡ from.old.end }
{
    Ok(DefinedType::Tuple(vec_of(there, from)?))
}

fn flags<'a>(there: Scope, from: &mut Reader<'a>) -> Result<DefinedType<'a>, ReadError>
    ensures gives { Gives (λ x. (spec.defined_type_value x, from.new.left)) result ((meaning (spec.behind spec.flags_form) there).read from.old.left) }
    ensures end { from.new.end ≡ from.old.end }
{
    Ok(DefinedType::Flags(labels_of(there, from)?))
}

fn enumeration<'a>(there: Scope, from: &mut Reader<'a>) -> Result<DefinedType<'a>, ReadError>
    ensures gives { Gives (λ x. (spec.defined_type_value x, from.new.left)) result ((meaning (spec.behind spec.enum_form) there).read from.old.left) }
    ensures end { from.new.end ≡ from.old.end }
{
    Ok(DefinedType::Enum(labels_of(there, from)?))
}

fn option<'a>(there: Scope, from: &mut Reader<'a>) -> Result<DefinedType<'a>, ReadError>
    ensures gives { Gives (λ x. (spec.defined_type_value x, from.new.left)) result ((meaning (spec.behind spec.option_form) there).read from.old.left) }
    ensures end { from.new.end ≡ from.old.end }
{
    Ok(DefinedType::Option(ValueType::read(there, from)?))
}

fn own<'a>(there: Scope, from: &mut Reader<'a>) -> Result<DefinedType<'a>, ReadError>
    ensures gives { Gives (λ x. (spec.defined_type_value x, from.new.left)) result ((meaning (spec.behind spec.own_form) there).read from.old.left) }
    ensures end { from.new.end ≡ from.old.end }
{
    Ok(DefinedType::Own(from.index(there.types)?))
}

fn borrow<'a>(there: Scope, from: &mut Reader<'a>) -> Result<DefinedType<'a>, ReadError>
    ensures gives { Gives (λ x. (spec.defined_type_value x, from.new.left)) result ((meaning (spec.behind spec.borrow_form) there).read from.old.left) }
    ensures end { from.new.end ≡ from.old.end }
{
    Ok(DefinedType::Borrow(from.index(there.types)?))
}

fn function<'a>(there: Scope, from: &mut Reader<'a>) -> Result<DefinedType<'a>, ReadError>
    ensures gives { Gives (λ x. (spec.defined_type_value x, from.new.left)) result ((meaning (spec.behind spec.function_form) there).read from.old.left) }
    ensures end { from.new.end ≡ from.old.end }
{
    Ok(DefinedType::Function(FunctionType::read(there, from)?))
}

fn fixed_length_list<'a>(there: Scope, from: &mut Reader<'a>) -> Result<DefinedType<'a>, ReadError>
    ensures gives { Gives (λ x. (spec.defined_type_value x, from.new.left)) result ((meaning (spec.behind spec.fixed_length_list_form) there).read from.old.left) }
    ensures end { from.new.end ≡ from.old.end }
{
    let element = ValueType::read(there, from)?;
    let length = from.number()?;
    Ok(DefinedType::FixedLengthList { element, length })
}

fn result<'a>(there: Scope, from: &mut Reader<'a>) -> Result<DefinedType<'a>, ReadError>
    ensures gives { Gives (λ x. (spec.defined_type_value x, from.new.left)) result ((meaning (spec.behind spec.result_form) there).read from.old.left) }
    ensures end { from.new.end ≡ from.old.end }
{
    let ok = optional_of(there, from)?;
    let err = optional_of(there, from)?;
    Ok(DefinedType::Result { ok, err })
}

/// Adds an element and a length.
fn put_fixed(element: ValueType, length: u32, out: &mut Vec<u8>) -> Result<(), WriteFault>
    ensures bytes { OnOk result (out.new.items ≡ out.old.items ++ bytes (spec.behind spec.fixed_length_list_form) (spec.fixed_length_list_of element length)) }
    ensures typed { OnOk result (IsTyped (spec.behind spec.fixed_length_list_form) (spec.fixed_length_list_of element length)) }
    ensures large { result ≡ Err WriteFault.TooLarge → IsTyped (spec.behind spec.fixed_length_list_form) (spec.fixed_length_list_of element length) → ⊥ }
{
    element.put(out)?;
    put_number(out, length)?;
    Ok(())
}

/// Adds both sides of a result.
fn put_both(
    ok: &Option<ValueType>,
    err: &Option<ValueType>,
    out: &mut Vec<u8>,
) -> Result<(), WriteFault>
    ensures bytes { OnOk result (out.new.items ≡ out.old.items ++ bytes (spec.behind spec.result_form) (spec.result_of (option_map (λ t. t) ok.now) (option_map (λ t. t) err.now))) }
    ensures typed { OnOk result (IsTyped (spec.behind spec.result_form) (spec.result_of (option_map (λ t. t) ok.now) (option_map (λ t. t) err.now))) }
    ensures large { result ≡ Err WriteFault.TooLarge → IsTyped (spec.behind spec.result_form) (spec.result_of (option_map (λ t. t) ok.now) (option_map (λ t. t) err.now)) → ⊥ }
{
    put_optional(ok, out)?;
    put_optional(err, out)?;
    Ok(())
}

impl<'a> DefinedType<'a> {
    /// Reads what stands behind the byte of a type.
    #[tactic(auto, unfolding(crate::specs::Types::next, crate::specs::Types::form_of))]
    pub fn read_behind(
        kind: u8,
        there: Scope,
        from: &mut Reader<'a>,
    ) -> Result<DefinedType<'a>, ReadError>
        ensures gives { Gives (λ x. (spec.defined_type_value x, from.new.left)) result ((meaning (spec.next kind) there).read from.old.left) }
        ensures end { from.new.end ≡ from.old.end }
    {
        match kind {
            0x72 => record(there, from),
            0x71 => variant(there, from),
            0x70 => list(there, from),
            0x67 => fixed_length_list(there, from),
            0x6f => tuple(there, from),
            0x6e => flags(there, from),
            0x6d => enumeration(there, from),
            0x6b => option(there, from),
            0x6a => result(there, from),
            0x69 => own(there, from),
            0x68 => borrow(there, from),
            0x40 => function(there, from),
            _ => match PrimitiveValueType::of_byte(kind) {
                Ok(primitive) => Ok(DefinedType::Primitive(primitive)),
                Err(rule) => Err(from.broken(rule)),
            },
        }
    }

    /// The byte of the type.
    pub fn kind(&self) -> u8
        ensures { result ≡ spec.which (spec.defined_type_value self.now) }
    {
        match self {
            DefinedType::Primitive(primitive) => primitive.byte(),
            DefinedType::Record(_) => 0x72,
            DefinedType::Variant(_) => 0x71,
            DefinedType::List(_) => 0x70,
            DefinedType::FixedLengthList { .. } => 0x67,
            DefinedType::Tuple(_) => 0x6f,
            DefinedType::Flags(_) => 0x6e,
            DefinedType::Enum(_) => 0x6d,
            DefinedType::Option(_) => 0x6b,
            DefinedType::Result { .. } => 0x6a,
            DefinedType::Own(_) => 0x69,
            DefinedType::Borrow(_) => 0x68,
            DefinedType::Function(_) => 0x40,
        }
    }

    /// Adds what stands behind the byte. Answers `TooLarge` only where its names, lengths and counts don't all fit.
    #[tactic(auto, unfolding(crate::specs::Types::next, crate::specs::Types::form_of))]
    pub fn put_behind(&self, out: &mut Vec<u8>) -> Result<(), WriteFault>
        ensures bytes { OnOk result (out.new.items ≡ out.old.items ++ bytes (spec.next (spec.which (spec.defined_type_value self.now))) (spec.defined_type_value self.now)) }
        ensures typed { OnOk result (IsTyped (spec.next (spec.which (spec.defined_type_value self.now))) (spec.defined_type_value self.now)) }
        ensures large { result ≡ Err WriteFault.TooLarge → IsTyped (spec.next (spec.which (spec.defined_type_value self.now))) (spec.defined_type_value self.now) → ⊥ }
    {
        match self {
            DefinedType::Primitive(_) => Ok(()),
            DefinedType::Record(fields) => put_vec(fields, out),
            DefinedType::Variant(cases) => put_vec(cases, out),
            DefinedType::List(element) | DefinedType::Option(element) => element.put(out),
            DefinedType::FixedLengthList { element, length } => put_fixed(*element, *length, out),
            DefinedType::Tuple(elements) => put_vec(elements, out),
            DefinedType::Flags(labels) | DefinedType::Enum(labels) => put_vec(labels, out),
            DefinedType::Result { ok, err } => put_both(ok, err, out),
            DefinedType::Own(index) | DefinedType::Borrow(index) => Ok(put_number(out, *index)?),
            DefinedType::Function(function) => function.put(out),
        }
    }
}

impl<'a> Part<'a> for DefinedType<'a> {
    type Context = Scope;

    ghost use Rattle.component_value_types.specs.declared.scope.Scope.{Scope};
    ghost use Rattle.component_value_types.specs.Types as spec;

    ghost Value = { spec.DefinedTypeValue };

    ghost Known = { Scope };

    ghost syntax = { spec.defined_type };

    ghost known = { λ s. s };

    ghost value = { spec.defined_type_value };

    #[tactic(auto, unfolding(crate::specs::Types::defined_type))]
    fn read(there: Scope, from: &mut Reader<'a>) -> Result<DefinedType<'a>, ReadError> {
        let kind = from.byte()?;
        DefinedType::read_behind(kind, there, from)
    }

    #[tactic(auto, unfolding(crate::specs::Types::defined_type))]
    fn put(&self, out: &mut Vec<u8>) -> Result<(), WriteFault> {
        out.push(self.kind())?;
        self.put_behind(out)
    }
}
