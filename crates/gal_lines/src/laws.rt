//! Laws of the sentences of a file and of its commands. Each function has an empty body, and its contract is the law.
ghost use Rattle.std.specs.Prelude.{◌≡◌, ◌∷◌, ◌++◌, [], ℕ, List, true, false, length, codes};
ghost use Rattle.gal_lexer.specs.declared.token.Token.{Token as Lexed};
ghost use Rattle.gal_grammar.specs.Tokens.{all_spelled};
ghost use Rattle.gal_grammar.specs.Tokens as T;
ghost use Rattle.gal_lines.specs.Lines.{line_behind, column_behind};
ghost use Rattle.gal_grammar.specs.Commands.{Command};
ghost use Rattle.gal_grammar.specs.Grammar.{File};
ghost use Rattle.gal_lines.specs.Joined.{joined};
ghost use Rattle.gal_lines.specs.Sentences.{sentences, commands, command_lines, goes_on};

/// Each command of a file has its sentences.
#[tactic(auto, using(crate::proofs::Commanded::command_each))]
pub fn sentences_for_each_command()
    ensures { (source : List ℕ) (ts : List Lexed) (cs : List Command) → File (all_spelled source ts) cs → length (command_lines source ts) ≡ length cs }
{}

/// The sentences of a file, one behind the other, are its tokens.
#[tactic(auto, using(crate::proofs::Commanded::sentences_hold))]
pub fn tokens_in_sentences()
    ensures { (source : List ℕ) (ts : List Lexed) (cs : List Command) → File (all_spelled source ts) cs → joined (sentences ts) ≡ ts }
{}

/// The sentences of all commands, one behind the other, are the sentences of the file.
#[tactic(auto, using(crate::proofs::Commanded::commands_hold))]
pub fn sentences_in_commands()
    ensures { (source : List ℕ) (ss : List (List Lexed)) → joined (commands source ss) ≡ ss }
{}

/// The line and the bytes behind its beginning, of what stands behind some bytes.
pub fn lines_and_columns()
    ensures first { line_behind [] ≡ 1 }
    ensures second { line_behind (codes "a" ++ 10 ∷ codes "bc") ≡ 2 }
    ensures carriage_return { line_behind (codes "a" ++ 13 ∷ codes "bc") ≡ 1 }
    ensures column { column_behind (codes "a" ++ 10 ∷ codes "bc") ≡ 2 }
    ensures empty_line { column_behind (codes "a" ++ 13 ∷ 10 ∷ []) ≡ 0 }
{}

/// The words with which a sentence goes on with a command.
pub fn words_that_go_on()
    ensures proof { goes_on (T.ident 0 (codes "Proof")) ≡ true }
    ensures qed { goes_on (T.ident 0 (codes "Qed")) ≡ true }
    ensures theorem { goes_on (T.ident 0 (codes "Theorem")) ≡ false }
    ensures path { goes_on (T.path 0 (codes "A.Qed")) ≡ false }
{}
