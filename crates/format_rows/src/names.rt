//! What sorts and types are called.

use wasm_format::{ExportKind, Mutability, RefType, SectionId, ValType};

pub fn reference(ty: RefType) -> &'static str {
    match ty {
        RefType::FuncRef => "funcref",
        RefType::ExternRef => "externref",
    }
}

pub fn value(ty: ValType) -> &'static str {
    match ty {
        ValType::I32 => "i32",
        ValType::I64 => "i64",
        ValType::F32 => "f32",
        ValType::F64 => "f64",
        ValType::V128 => "v128",
        ValType::Ref(ty) => reference(ty),
    }
}

pub fn mutability(of: Mutability) -> &'static str {
    match of {
        Mutability::Const => "const",
        Mutability::Var => "var",
    }
}

pub fn sort(of: ExportKind) -> &'static str {
    match of {
        ExportKind::Func => "function",
        ExportKind::Table => "table",
        ExportKind::Memory => "memory",
        ExportKind::Global => "global",
    }
}

pub fn section(of: SectionId) -> &'static str {
    match of {
        SectionId::Custom => "custom",
        SectionId::Type_ => "type",
        SectionId::Import => "import",
        SectionId::Function => "function",
        SectionId::Table => "table",
        SectionId::Memory => "memory",
        SectionId::Global => "global",
        SectionId::Export => "export",
        SectionId::Start => "start",
        SectionId::Element => "element",
        SectionId::Code => "code",
        SectionId::Data => "data",
        SectionId::DataCount => "data count",
    }
}
