//! The grammar of the language over the tokens of a source: a table of rows, the relation that gives the
//! table its meaning, and the machine that reads by the table. Each public function has an empty body, and
//! its contract is a law.
#![tactic(auto)]

ghost use Rattle.std.specs.Prelude.{◌≡◌, ◌-◌, ◌∷◌, [], ℕ, List, length};
ghost use Rattle.gal_grammar.specs.Commands.{Command};
ghost use Rattle.gal_grammar.specs.Grammar.{File, IsNesting, IsSyntax, file, nothing_said};
ghost use Rattle.gal_grammar.specs.calls.Machine.{Fail, Read, nesting, run, syntax};
ghost use Rattle.gal_grammar.specs.Tokens.{Token};
ghost use Rattle.gal_grammar.specs.Values.{commands};

/// The tokens of a file have one reading.
pub fn one_reading()
    ensures { (s : List Token) (cs ds : List Command) → File s cs → File s ds → cs ≡ ds }
{}

/// Tokens at which Syntax stands are no file.
pub fn no_file_with_syntax()
    ensures { (s : List Token) (place : ℕ) (cs : List Command) → IsSyntax file nothing_said s place → File s cs → ⊥ }
{}

/// Tokens at which Nesting stands are no file.
pub fn no_file_with_nesting()
    ensures { (s : List Token) (place : ℕ) (cs : List Command) → IsNesting file nothing_said s place → File s cs → ⊥ }
{}

/// What the machine reads is a file.
pub fn reads_files()
    ensures { (s : List Token) (cs : List Command) → run s file nothing_said ≡ Read (commands cs ∷ []) → File s cs }
{}

/// The machine reads each file.
pub fn reads_each_file()
    ensures { (s : List Token) (cs : List Command) → File s cs → run s file nothing_said ≡ Read (commands cs ∷ []) }
{}

/// Where the machine fails by syntax, so many tokens before the end, Syntax stands.
pub fn fails_at_syntax()
    ensures { (s : List Token) (left : ℕ) → run s file nothing_said ≡ Fail syntax left → IsSyntax file nothing_said s (length s - left) }
{}

/// Where the machine fails by nesting, so many tokens before the end, Nesting stands.
pub fn fails_at_nesting()
    ensures { (s : List Token) (left : ℕ) → run s file nothing_said ≡ Fail nesting left → IsNesting file nothing_said s (length s - left) }
{}
