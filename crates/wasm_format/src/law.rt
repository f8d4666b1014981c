//! What holds of the grammar of modules.

ghost use Rattle.std.specs.Prelude.{◌≡◌, ◌+◌, ◌++◌, ℕ, List, length};
ghost use Rattle.binary_grammar.specs.declared.fault.Fault.{Fault};
ghost use Rattle.binary_grammar.specs.declared.fault.Rule.TheVariants as rules;
ghost use Rattle.wasm_format.specs.Grammar.{IsModule, BreaksModule};
ghost use Rattle.wasm_format.specs.Module.{ModuleValue};

/// Bytes are at most one module.
pub fn law_one_module()
    ensures { (bytes : List ℕ) (m n : ModuleValue) → IsModule bytes m → IsModule bytes n → m ≡ n }
{}

/// Bytes that break a rule are no module, and break it at one place.
pub fn law_a_break_is_one()
    ensures { (bytes : List ℕ) (e : Fault) → BreaksModule bytes e → ((m : ModuleValue) → IsModule bytes m → ⊥) × ((d : Fault) → BreaksModule bytes d → d ≡ e) }
{}

/// A broken rule stays broken, at its place, whatever stands behind the bytes: no module begins so. The rule `Short` is
/// left out, since more bytes may mend it (what ends too soon inside of a size breaks `Size`); that no module ends so is `law_a_break_is_one`.
pub fn law_a_break_stays()
    ensures { (bytes : List ℕ) (e : Fault) (more : List ℕ) → BreaksModule bytes e → (e.rule ≡ rules.Short → ⊥) → BreaksModule (bytes ++ more) (record e { left = e.left + length more }) × ((m : ModuleValue) → IsModule (bytes ++ more) m → ⊥) }
{}
