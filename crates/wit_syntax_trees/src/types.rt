//! Types, as WIT has them, where each name and each other type has its place behind it.

use crate::writer::Writer;
use wit_syntax::{Type, TypeKind};

/// The keyword in front of a type.
fn keyword(ty: &TypeKind) -> &'static str {
    match ty {
        TypeKind::Bool => "bool",
        TypeKind::U8 => "u8",
        TypeKind::U16 => "u16",
        TypeKind::U32 => "u32",
        TypeKind::U64 => "u64",
        TypeKind::S8 => "s8",
        TypeKind::S16 => "s16",
        TypeKind::S32 => "s32",
        TypeKind::S64 => "s64",
        TypeKind::F32 => "f32",
        TypeKind::F64 => "f64",
        TypeKind::Char => "char",
        TypeKind::String => "string",
        TypeKind::Name(_) => "",
        TypeKind::List(_) | TypeKind::FixedLengthList(..) => "list",
        TypeKind::Option(_) => "option",
        TypeKind::Tuple(_) => "tuple",
        TypeKind::Result { .. } => "result",
        TypeKind::Own(_) => "own",
        TypeKind::Borrow(_) => "borrow",
        TypeKind::Future(_) => "future",
        TypeKind::Stream(_) => "stream",
        TypeKind::ErrorContext => "error-context",
    }
}

/// Whether a type has angle brackets.
fn has_brackets(ty: &TypeKind) -> bool {
    match ty {
        TypeKind::List(_)
        | TypeKind::FixedLengthList(..)
        | TypeKind::Option(_)
        | TypeKind::Tuple(_)
        | TypeKind::Own(_)
        | TypeKind::Borrow(_) => true,
        TypeKind::Future(part) | TypeKind::Stream(part) => part.is_some(),
        TypeKind::Result { ok, err } => ok.is_some() || err.is_some(),
        _ => false,
    }
}

impl Writer {
    /// A type at the end of a line.
    pub fn last_ty(&mut self, ty: &Type) {
        self.ty(ty);
        self.end();
    }

    /// A type.
    #[cycle(within)]
    pub fn ty(&mut self, ty: &Type) {
        let kind = &ty.kind;
        self.words(keyword(kind));
        if has_brackets(kind) {
            self.words("<");
            self.inside(kind);
            self.words(">");
        } else {
            self.inside(kind);
        }
        self.place_of(ty);
    }

    /// The place of a type behind it; a name has its own.
    fn place_of(&mut self, ty: &Type) {
        match ty.kind {
            TypeKind::Name(_) => {}
            _ => self.span(ty.span),
        }
    }

    /// What stands within the brackets of a type, or a type's name.
    #[cycle(within)]
    fn inside(&mut self, ty: &TypeKind) {
        match ty {
            TypeKind::Name(id) | TypeKind::Own(id) | TypeKind::Borrow(id) => self.id(id),
            TypeKind::List(part)
            | TypeKind::Option(part)
            | TypeKind::Future(Some(part))
            | TypeKind::Stream(Some(part)) => self.ty(part),
            TypeKind::FixedLengthList(part, length) => {
                self.ty(part);
                self.length(*length);
            }
            TypeKind::Tuple(_) => self.tuple_parts(ty),
            TypeKind::Result { .. } => self.result_parts(ty),
            _ => {}
        }
    }

    /// The types in a tuple.
    #[cycle(within)]
    fn tuple_parts(&mut self, ty: &TypeKind) {
        if let TypeKind::Tuple(parts) = ty {
            for (index, part) in parts.iter().enumerate() {
                self.words(if index == 0 { "" } else { ", " });
                self.ty(part);
            }
        }
    }

    /// The types in a result, if there are some.
    #[cycle(within)]
    fn result_parts(&mut self, ty: &TypeKind) {
        let TypeKind::Result { ok, err } = ty else {
            return;
        };
        if let Some(part) = ok {
            self.ty(part);
        }
        if let Some(part) = err {
            self.words(if ok.is_some() { ", " } else { "_, " });
            self.ty(part);
        }
    }
}
