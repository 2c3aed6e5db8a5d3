//! The laws of the grammar: what is read is what it has, and what is refused is refused at its bad place. Each stands on a function
//! with nothing to do.
ghost use Rattle.std.specs.Prelude.{◌≡◌, ◌↔◌, ℕ, List, Ok, Err, Some, None, is_some, true, false};
ghost use Rattle.pdq_sql.specs.declared.commands.LineHome.{LineHome};
ghost use Rattle.pdq_sql.specs.declared.tokens.Token.{Token};
ghost use Rattle.pdq_sql.specs.Asts.{AstView};
ghost use Rattle.pdq_sql.specs.Commands.{CommandView};
ghost use Rattle.pdq_value.specs.Names.{is_reserved};
ghost use Rattle.pdq_sql.specs.Tokens.{reserved_of, tokens_of};
ghost use Rattle.pdq_sql.specs.Reading.{select_reading};
ghost use Rattle.pdq_sql.specs.LineReading.{is_silent, line_reading};
ghost use Rattle.pdq_sql.specs.Grammar.{IsSelect, IsBadPlace};
ghost use Rattle.pdq_sql.specs.LineGrammar.{IsLine};

/// Reading gives just the selects of the grammar, and else their bad place.
pub fn select_reading_is_the_grammar()
    ensures reads { (bytes : List ℕ) (ast : AstView) → (select_reading bytes ≡ Ok ast) ↔ IsSelect (tokens_of bytes) ast }
    ensures refuses { (bytes : List ℕ) (place : ℕ) → (select_reading bytes ≡ Err place) ↔ IsBadPlace IsSelect (tokens_of bytes) place }
{}

/// Reading gives just the lines of the grammar, no command just where a line is blank or a comment, and else the bad place.
pub fn line_reading_is_the_grammar()
    ensures silent { (home : LineHome) (line : List ℕ) → (line_reading home line ≡ Ok None) ↔ (is_silent line ≡ true) }
    ensures reads { (home : LineHome) (line : List ℕ) (command : CommandView)
        → (line_reading home line ≡ Ok (Some command)) ↔ IsLine home (tokens_of line) command }
    ensures refuses { (home : LineHome) (line : List ℕ) (place : ℕ) → is_silent line ≡ false
        → (line_reading home line ≡ Err place) ↔ IsBadPlace (IsLine home) (tokens_of line) place }
{}

/// The words that no table and no column can be called are just those that the grammar has as marks.
#[tactic(auto, using(crate::proofs::Reserved::reserved_words_are_marks))]
pub fn reserved_words_are_marks()
    ensures law { (word : List ℕ) → is_reserved word ≡ is_some (reserved_of word) }
{}

/// Tokens are at most one select, and at most one line of a home.
pub fn has_one_reading()
    ensures selects { (tokens : List Token) (s t : AstView) → IsSelect tokens s → IsSelect tokens t → s ≡ t }
    ensures lines { (home : LineHome) (tokens : List Token) (c d : CommandView) → IsLine home tokens c → IsLine home tokens d → c ≡ d }
{}

/// Tokens have at most one bad place.
pub fn has_one_bad_place()
    ensures selects { (tokens : List Token) (p q : ℕ) → IsBadPlace IsSelect tokens p → IsBadPlace IsSelect tokens q → p ≡ q }
    ensures lines { (home : LineHome) (tokens : List Token) (p q : ℕ) → IsBadPlace (IsLine home) tokens p → IsBadPlace (IsLine home) tokens q → p ≡ q }
{}
