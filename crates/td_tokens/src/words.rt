//! The keywords and symbols of the language.

ghost use Rattle.std.specs.Prelude.{◌≡◌, option_map, find, map};
ghost use Rattle.std.specs.Str.{str_eq_ignore_ascii_case};
ghost use Rattle.td_tokens.specs.Words.{Spelling};
ghost use Rattle.td_tokens.specs.Lexer.{sign_piece, symbol_piece};
ghost use Rattle.td_tokens.specs.Lex.{keyword_of, begins_with};

use crate::piece::Piece;
use crate::token::{TokenKind, Word};

// The keywords by their lengths.
const OF_TWO: [(&[u8], Word); 5] = [
    (b"AS", Word::As),
    (b"BY", Word::By),
    (b"IF", Word::If),
    (b"IN", Word::In),
    (b"OR", Word::Or),
];

const OF_THREE: [(&[u8], Word); 13] = [
    (b"ADD", Word::Add),
    (b"ALL", Word::All),
    (b"AND", Word::And),
    (b"BUT", Word::But),
    (b"END", Word::End),
    (b"KEY", Word::Key),
    (b"MAX", Word::Max),
    (b"MIN", Word::Min),
    (b"NOT", Word::Not),
    (b"PER", Word::Per),
    (b"SUM", Word::Sum),
    (b"VAR", Word::Var),
    (b"XOR", Word::Xor),
];

const OF_FOUR: [(&[u8], Word); 12] = [
    (b"BASE", Word::Base),
    (b"CHAR", Word::Char),
    (b"ELSE", Word::Else),
    (b"FROM", Word::From),
    (b"INIT", Word::Init),
    (b"JOIN", Word::Join),
    (b"REAL", Word::Real),
    (b"THEN", Word::Then),
    (b"TRUE", Word::True),
    (b"TYPE", Word::Type),
    (b"WITH", Word::With),
    (b"WRAP", Word::Wrap),
];

const OF_FIVE: [(&[u8], Word); 7] = [
    (b"COUNT", Word::Count),
    (b"FALSE", Word::False),
    (b"GROUP", Word::Group),
    (b"MINUS", Word::Minus),
    (b"TUPLE", Word::Tuple),
    (b"UNION", Word::Union),
    (b"WHERE", Word::Where),
];

const OF_SIX: [(&[u8], Word); 7] = [
    (b"DELETE", Word::Delete),
    (b"EXTEND", Word::Extend),
    (b"INSERT", Word::Insert),
    (b"RENAME", Word::Rename),
    (b"TCLOSE", Word::Tclose),
    (b"UNWRAP", Word::Unwrap),
    (b"UPDATE", Word::Update),
];

const OF_SEVEN: [(&[u8], Word); 6] = [
    (b"BOOLEAN", Word::Boolean),
    (b"COMPOSE", Word::Compose),
    (b"INTEGER", Word::Integer),
    (b"POSSREP", Word::Possrep),
    (b"UNGROUP", Word::Ungroup),
    (b"VIRTUAL", Word::Virtual),
];

const OF_EIGHT: [(&[u8], Word); 4] = [
    (b"IS_EMPTY", Word::IsEmpty),
    (b"MATCHING", Word::Matching),
    (b"RELATION", Word::Relation),
    (b"SEMIJOIN", Word::Semijoin),
];

const OF_NINE: [(&[u8], Word); 6] = [
    (b"CHARACTER", Word::Character),
    (b"INTERSECT", Word::Intersect),
    (b"SEMIMINUS", Word::Semiminus),
    (b"SUMMARIZE", Word::Summarize),
    (b"TABLE_DEE", Word::TableDee),
    (b"TABLE_DUM", Word::TableDum),
];

const OF_TEN: [(&[u8], Word); 1] = [(b"CONSTRAINT", Word::Constraint)];

// The longer ones come first, so that the first that fits is the longest.
const SYMBOLS: [(&[u8], Word); 19] = [
    (b":=", Word::Assign),
    (b"<>", Word::Differs),
    (b"<=", Word::AtMost),
    (b">=", Word::AtLeast),
    (b"||", Word::Bars),
    (b"(", Word::OpenParenthesis),
    (b")", Word::CloseParenthesis),
    (b"{", Word::OpenBrace),
    (b"}", Word::CloseBrace),
    (b",", Word::Comma),
    (b";", Word::Semicolon),
    (b":", Word::Colon),
    (b"=", Word::Equals),
    (b"<", Word::Less),
    (b">", Word::Greater),
    (b"+", Word::Plus),
    (b"-", Word::Dash),
    (b"*", Word::Star),
    (b"/", Word::Slash),
];

// Whether the words are the same, but for the case of ASCII letters.
fn same_letters(a: &[u8], b: &[u8]) -> bool
    ensures { result ≡ str_eq_ignore_ascii_case a.now b.now }
{
    a.eq_ignore_ascii_case(b)
}

// Whether a word is this one of the table, but for the case of its letters. Most words of the table have another first
// letter, which costs no call.
fn is_word(a: &[u8], b: &[u8]) -> bool
    ensures { result ≡ str_eq_ignore_ascii_case a.now b.now }
{
    if a.len() != b.len() {
        return false;
    }
    match (a.first(), b.first()) {
        (Some(x), Some(y)) if !x.eq_ignore_ascii_case(y) => false,
        _ => same_letters(a, b),
    }
}

// Whether the bytes begin with the spelling. Most symbols of the table have another first byte, which costs no call.
fn begins(bytes: &[u8], spelling: &[u8]) -> bool
    ensures { result ≡ begins_with spelling.now bytes.now }
{
    match (bytes.first(), spelling.first()) {
        (Some(b), Some(s)) if *b != *s => false,
        _ => bytes.starts_with(spelling),
    }
}

// The word of the first keyword in the table that these letters spell in either case, or none. It takes time linear in
// the table.
fn keyword_in(table: &[(&[u8], Word)], letters: &[u8]) -> Option<Word>
    ensures { result ≡ option_map (λ (k : Spelling). k.1) (find (λ (k : Spelling). str_eq_ignore_ascii_case k.0 letters.now) (map (λ k. (k.0.now, k.1)) table.now)) }
{
    for (spelling, word) in table {
        if is_word(spelling, letters) {
            return Some(*word);
        }
    }
    None
}

// The first symbol in the table with which the bytes begin, as a piece, or none. It takes time linear in the table.
fn symbol_in(table: &[(&[u8], Word)], bytes: &[u8]) -> Option<Piece>
    ensures { result ≡ sign_piece (find (λ (s : Spelling). begins_with s.0 bytes.now) (map (λ s. (s.0.now, s.1)) table.now)) }
{
    for (spelling, word) in table {
        if begins(bytes, spelling) {
            let kind = Some(TokenKind::Word(*word));
            return Some(Piece {
                kind,
                length: spelling.len(),
            });
        }
    }
    None
}

/// The keyword that these letters are, in either case. It looks at those of as many letters.
pub fn keyword(letters: &[u8]) -> Option<Word>
    ensures { result ≡ keyword_of letters.now }
{
    if letters.len() == 2 {
        keyword_in(&OF_TWO, letters)
    } else if letters.len() == 3 {
        keyword_in(&OF_THREE, letters)
    } else if letters.len() == 4 {
        keyword_in(&OF_FOUR, letters)
    } else if letters.len() == 5 {
        keyword_in(&OF_FIVE, letters)
    } else if letters.len() == 6 {
        keyword_in(&OF_SIX, letters)
    } else if letters.len() == 7 {
        keyword_in(&OF_SEVEN, letters)
    } else if letters.len() == 8 {
        keyword_in(&OF_EIGHT, letters)
    } else if letters.len() == 9 {
        keyword_in(&OF_NINE, letters)
    } else if letters.len() == 10 {
        keyword_in(&OF_TEN, letters)
    } else {
        None
    }
}

/// The longest symbol at the front.
#[tactic(auto, unfolding(crate::specs::Lex::symbol_at))]
pub fn symbol(bytes: &[u8]) -> Option<Piece>
    ensures { result ≡ symbol_piece bytes.now }
{
    symbol_in(&SYMBOLS, bytes)
}
