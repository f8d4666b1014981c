//! What a component has of each sort.

ghost use Rattle.std.specs.Prelude.{◌≡◌};
ghost use Rattle.component_value_types.specs.Scope as spec;

/// How many of each sort there are so far (Component Model, Explainer, Index Spaces), and how many types there are in what
/// stands around.
#[derive(Clone, Copy, Debug, PartialEq, Eq)]
pub struct Scope {
    /// Core functions.
    pub core_functions: usize,
    /// Core tables.
    pub core_tables: usize,
    /// Core memories.
    pub core_memories: usize,
    /// Core globals.
    pub core_globals: usize,
    /// Core modules.
    pub core_modules: usize,
    /// Core instances.
    pub core_instances: usize,
    /// Components.
    pub components: usize,
    /// Instances.
    pub instances: usize,
    /// Functions.
    pub functions: usize,
    /// Types.
    pub types: usize,
    /// Types of the component or instance type around, if there is one.
    pub outer: Option<usize>,
    /// Types of the component around that one, if there is one.
    pub outermost: Option<usize>,
}

/// What is there where no definition stands yet, and nothing stands around.
pub const NO_SCOPE: Scope = Scope {
    core_functions: 0,
    core_tables: 0,
    core_memories: 0,
    core_globals: 0,
    core_modules: 0,
    core_instances: 0,
    components: 0,
    instances: 0,
    functions: 0,
    types: 0,
    outer: None,
    outermost: None,
};

impl Scope {
    /// How many types there are so many components or instance types outwards, if there is one: 0 is the own.
    #[tactic(auto, unfolding(crate::specs::Scope::types_outwards))]
    pub fn types_outwards(self, count: u32) -> Option<usize>
        ensures { result ≡ spec.types_outwards self count }
    {
        match count {
            0 => Some(self.types),
            1 => self.outer,
            2 => self.outermost,
            _ => None,
        }
    }
}
