//! Functions and definitions of types.

use crate::writer::Writer;
use wit_syntax::{
    Case, EnumCase, Field, Flag, Func, Gated, Id, NamedFunc, Param, ResourceFunc, Type, TypeDef,
    TypeDefKind,
};

impl Writer {
    /// A name and its type, at the end of a line.
    fn typed_id(&mut self, id: &Id, ty: &Type) {
        self.id(id);
        self.words(": ");
        self.last_ty(ty);
    }

    /// Lines for the parameters and for the result.
    fn signature(&mut self, params: &[Param], answer: &Option<Type>) {
        self.go_in();
        for param in params {
            self.begin("parameter ");
            self.typed_id(&param.name, &param.ty);
        }
        self.result_line(answer);
        self.go_out();
    }

    /// A line for a result, if there is one.
    fn result_line(&mut self, answer: &Option<Type>) {
        if let Some(ty) = answer {
            self.begin("result ");
            self.last_ty(ty);
        }
    }

    /// A function, behind words that say what it is to what it stands in.
    pub fn function(&mut self, words: &str, function: &NamedFunc) {
        let Func {
            async_,
            params,
            result,
        } = &function.func;
        self.begin(words);
        self.words(if *async_ { "async func " } else { "func " });
        self.last_id(&function.name);
        self.signature(params, result);
    }

    /// A definition of a type.
    pub fn definition(&mut self, definition: &TypeDef) {
        self.kind(&definition.name, &definition.kind);
    }

    fn kind(&mut self, name: &Id, kind: &TypeDefKind) {
        match kind {
            TypeDefKind::Alias(ty) => self.alias(name, ty),
            TypeDefKind::Record(fields) => self.record(name, fields),
            TypeDefKind::Flags(flags) => self.flags(name, flags),
            TypeDefKind::Enum(cases) => self.enumeration(name, cases),
            TypeDefKind::Variant(cases) => self.variant(name, cases),
            TypeDefKind::Resource(members) => self.resource(name, members),
        }
    }

    fn alias(&mut self, name: &Id, ty: &Type) {
        self.begin("type ");
        self.typed_id(name, ty);
    }

    fn record(&mut self, name: &Id, fields: &[Field]) {
        self.named("record ", name);
        self.go_in();
        for field in fields {
            self.field(field);
        }
        self.go_out();
    }

    fn field(&mut self, field: &Field) {
        self.docs(&field.docs);
        self.begin("field ");
        self.typed_id(&field.name, &field.ty);
    }

    fn flags(&mut self, name: &Id, flags: &[Flag]) {
        self.named("flags ", name);
        self.go_in();
        for flag in flags {
            self.flag(flag);
        }
        self.go_out();
    }

    fn flag(&mut self, flag: &Flag) {
        self.docs(&flag.docs);
        self.named("flag ", &flag.name);
    }

    fn enumeration(&mut self, name: &Id, cases: &[EnumCase]) {
        self.named("enum ", name);
        self.go_in();
        for case in cases {
            self.enum_case(case);
        }
        self.go_out();
    }

    fn enum_case(&mut self, case: &EnumCase) {
        self.docs(&case.docs);
        self.named("case ", &case.name);
    }

    fn variant(&mut self, name: &Id, cases: &[Case]) {
        self.named("variant ", name);
        self.go_in();
        for case in cases {
            self.case(case);
        }
        self.go_out();
    }

    fn case(&mut self, case: &Case) {
        self.docs(&case.docs);
        self.begin("case ");
        match &case.ty {
            Some(ty) => self.typed_id(&case.name, ty),
            None => self.last_id(&case.name),
        }
    }

    fn resource(&mut self, name: &Id, members: &[Gated<ResourceFunc>]) {
        self.named("resource ", name);
        self.go_in();
        for member in members {
            self.gates(member);
            self.member(&member.item);
        }
        self.go_out();
    }

    fn member(&mut self, member: &ResourceFunc) {
        match member {
            ResourceFunc::Constructor { params, result } => {
                self.begin("constructor\n");
                self.signature(params, result);
            }
            ResourceFunc::Method(function) => self.function("method ", function),
            ResourceFunc::Static(function) => self.function("static ", function),
        }
    }
}
