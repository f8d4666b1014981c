//! What holds of the grammar of components.

ghost use Rattle.std.specs.Prelude.{◌≡◌, ◌+◌, ◌++◌, ℕ, List, length};
ghost use Rattle.binary_grammar.specs.declared.fault.Fault.{Fault};
ghost use Rattle.binary_grammar.specs.declared.fault.Rule.TheVariants as rules;
ghost use Rattle.binary_grammar.specs.Syntax.{bytes, IsTyped};
ghost use Rattle.component_sections.specs.Component.{DefinitionValue, component, IsComponent, BreaksComponent, Follow};
ghost use Rattle.component_entries.specs.Entries.{nothing};

/// Bytes are a component of at most one list of definitions.
pub fn law_one_list()
    ensures { (bytes : List ℕ) (ds es : List DefinitionValue) → IsComponent bytes ds → IsComponent bytes es → ds ≡ es }
{}

/// Bytes that break a rule are no component, and break it at one place.
pub fn law_a_break_is_one()
    ensures { (bytes : List ℕ) (e : Fault) → BreaksComponent bytes e → ((ds : List DefinitionValue) → IsComponent bytes ds → ⊥) × ((d : Fault) → BreaksComponent bytes d → d ≡ e) }
{}

/// A broken rule stays broken, at its place, whatever stands behind the bytes. The rule `Short` is left out, since more bytes
/// may mend it.
pub fn law_a_break_stays()
    ensures { (bytes : List ℕ) (e : Fault) (more : List ℕ) → BreaksComponent bytes e → (e.rule ≡ rules.Short → ⊥) → BreaksComponent (bytes ++ more) (record e { left = e.left + length more }) × ((ds : List DefinitionValue) → IsComponent (bytes ++ more) ds → ⊥) }
{}

/// Definitions that each may stand behind those before them, and whose numbers, lengths, counts and sizes fit, have bytes,
/// which are a component of them.
pub fn law_written_is_read()
    ensures { (ds : List DefinitionValue) → IsTyped component ds → Follow nothing ds → IsComponent (bytes component ds) ds }
{}
