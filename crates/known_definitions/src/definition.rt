//! What a component defines, as far as index meaning knows it.

use plain_worlds::PrimitiveType;

/// A parameter of a function.
#[derive(Clone, Copy)]
pub struct Parameter<'a> {
    pub name: &'a str,
    pub ty: PrimitiveType,
}

/// A function's parameters, in order, and its result.
#[derive(Drop)]
pub struct FunctionType<'a> {
    pub params: Vec<Parameter<'a>>,
    pub result: Option<PrimitiveType>,
}

/// The core instance that an instantiation is given under a name.
#[derive(Clone, Copy)]
pub struct Argument<'a> {
    pub name: &'a str,
    pub instance: u32,
}

/// The core function that an inline core instance exports under a name.
#[derive(Clone, Copy)]
pub struct InlineExport<'a> {
    pub name: &'a str,
    pub func: u32,
}

/// A definition that index meaning knows. Each index speaks of a definition before it.
#[derive(Drop)]
pub enum KnownKind<'a> {
    /// A core module: its bytes.
    CoreModule(&'a [u8]),
    /// An instance of a core module.
    CoreInstance {
        module: u32,
        args: Vec<Argument<'a>>,
    },
    /// A core instance that is made of core functions.
    InlineInstance(Vec<InlineExport<'a>>),
    /// The core function that a core instance exports under a name.
    CoreAlias {
        instance: u32,
        name: &'a str,
    },
    /// A function type.
    FunctionType(FunctionType<'a>),
    /// A core function as a function of a type.
    Lift {
        core_func: u32,
        ty: u32,
    },
    /// A function as a core function.
    Lower {
        func: u32,
    },
    /// An imported function of a type.
    Import {
        name: &'a str,
        ty: u32,
    },
    /// An exported function, perhaps with a type that is ascribed to it.
    Export {
        name: &'a str,
        func: u32,
        ty: Option<u32>,
    },
}

/// Such a definition, and where it begins, counted in bytes from the start of the component.
#[derive(Drop)]
pub struct KnownDefinition<'a> {
    pub offset: usize,
    pub kind: KnownKind<'a>,
}
