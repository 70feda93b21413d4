//! That a source has one list of tokens or one fault, and not both, and that its identifiers are names.
//! Each function has an empty body, and its contract is the law.
ghost use Rattle.std.specs.Prelude.{◌≡◌, ℕ, List, take};
ghost use Rattle.cic_names.specs.Identifier.{IsIdentifier};
ghost use Rattle.gal_lexer.specs.declared.token.LexFault.{LexFault as Why};
ghost use Rattle.gal_lexer.specs.declared.token.Token.{Token as Read};
ghost use Rattle.gal_lexer.specs.Pieces.{Identifier};
ghost use Rattle.gal_lexer.specs.Tokens.{TokensOf, IsFault};

/// Two lists of tokens of one source are the same.
pub fn one_list_of_tokens()
    ensures { (source : List ℕ) (ts us : List Read) → TokensOf source ts → TokensOf source us → ts ≡ us }
{}

/// A source with tokens has no fault.
pub fn tokens_or_fault()
    ensures { (source : List ℕ) (ts : List Read) (fault : Why) → TokensOf source ts → IsFault source fault → ⊥ }
{}

/// Two faults of one source are the same.
pub fn one_fault()
    ensures { (source : List ℕ) (f g : Why) → IsFault source f → IsFault source g → f ≡ g }
{}

/// Each identifier of a source is one that a name may have.
pub fn identifiers_are_names()
    ensures { (n : ℕ) (source : List ℕ) → Identifier n source → IsIdentifier (take n source) }
{}
