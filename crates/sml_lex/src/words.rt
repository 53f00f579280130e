//! The reserved words.
ghost use Rattle.std.specs.Prelude.{◌≡◌, codes};
ghost use Rattle.sml_lex.specs.Words.{is_text, kind_among, word_kind, words_a_to_d, words_e_to_f, words_h_to_i, words_l_to_o, words_r_to_s, words_t_to_w, words_of_signs, words_of_marks};

use crate::token::Kind;

fn among_a_to_d(text: &[u8]) -> Option<Kind>
    ensures { result ≡ kind_among text.now words_a_to_d }
{
    match text {
        b"abstype" => Some(Kind::AbstypeWord),
        b"and" => Some(Kind::AndWord),
        b"andalso" => Some(Kind::AndalsoWord),
        b"as" => Some(Kind::AsWord),
        b"case" => Some(Kind::CaseWord),
        b"datatype" => Some(Kind::DatatypeWord),
        b"do" => Some(Kind::DoWord),
        _ => None,
    }
}

fn among_e_to_f(text: &[u8]) -> Option<Kind>
    ensures { result ≡ kind_among text.now words_e_to_f }
{
    match text {
        b"else" => Some(Kind::ElseWord),
        b"end" => Some(Kind::EndWord),
        b"eqtype" => Some(Kind::EqtypeWord),
        b"exception" => Some(Kind::ExceptionWord),
        b"fn" => Some(Kind::FnWord),
        b"fun" => Some(Kind::FunWord),
        b"functor" => Some(Kind::FunctorWord),
        _ => None,
    }
}

fn among_h_to_i(text: &[u8]) -> Option<Kind>
    ensures { result ≡ kind_among text.now words_h_to_i }
{
    match text {
        b"handle" => Some(Kind::HandleWord),
        b"if" => Some(Kind::IfWord),
        b"in" => Some(Kind::InWord),
        b"include" => Some(Kind::IncludeWord),
        b"infix" => Some(Kind::InfixWord),
        b"infixr" => Some(Kind::InfixrWord),
        _ => None,
    }
}

fn among_l_to_o(text: &[u8]) -> Option<Kind>
    ensures { result ≡ kind_among text.now words_l_to_o }
{
    match text {
        b"let" => Some(Kind::LetWord),
        b"local" => Some(Kind::LocalWord),
        b"nonfix" => Some(Kind::NonfixWord),
        b"of" => Some(Kind::OfWord),
        b"op" => Some(Kind::OpWord),
        b"open" => Some(Kind::OpenWord),
        b"orelse" => Some(Kind::OrelseWord),
        _ => None,
    }
}

fn among_r_to_s(text: &[u8]) -> Option<Kind>
    ensures { result ≡ kind_among text.now words_r_to_s }
{
    match text {
        b"raise" => Some(Kind::RaiseWord),
        b"rec" => Some(Kind::RecWord),
        b"sharing" => Some(Kind::SharingWord),
        b"sig" => Some(Kind::SigWord),
        b"signature" => Some(Kind::SignatureWord),
        b"struct" => Some(Kind::StructWord),
        b"structure" => Some(Kind::StructureWord),
        _ => None,
    }
}

fn among_t_to_w(text: &[u8]) -> Option<Kind>
    ensures { result ≡ kind_among text.now words_t_to_w }
{
    match text {
        b"then" => Some(Kind::ThenWord),
        b"type" => Some(Kind::TypeWord),
        b"val" => Some(Kind::ValWord),
        b"where" => Some(Kind::WhereWord),
        b"while" => Some(Kind::WhileWord),
        b"with" => Some(Kind::WithWord),
        b"withtype" => Some(Kind::WithtypeWord),
        _ => None,
    }
}

fn among_of_signs(text: &[u8]) -> Option<Kind>
    ensures { result ≡ kind_among text.now words_of_signs }
{
    match text {
        b":" => Some(Kind::Colon),
        b"|" => Some(Kind::Bar),
        b"=" => Some(Kind::Equals),
        b"=>" => Some(Kind::Gives),
        b"->" => Some(Kind::Arrow),
        b"#" => Some(Kind::Hash),
        b":>" => Some(Kind::Seals),
        _ => None,
    }
}

fn among_of_marks(text: &[u8]) -> Option<Kind>
    ensures { result ≡ kind_among text.now words_of_marks }
{
    match text {
        b"(" => Some(Kind::OpenRound),
        b")" => Some(Kind::CloseRound),
        b"[" => Some(Kind::OpenSquare),
        b"]" => Some(Kind::CloseSquare),
        b"{" => Some(Kind::OpenCurly),
        b"}" => Some(Kind::CloseCurly),
        b"," => Some(Kind::Comma),
        b";" => Some(Kind::Semicolon),
        b"_" => Some(Kind::Wildcard),
        b"..." => Some(Kind::Dots),
        _ => None,
    }
}

/// The kind of a reserved word.
pub fn word_kind_of(text: &[u8]) -> Option<Kind>
    ensures { result ≡ word_kind text.now }
{
    if let Some(kind) = among_a_to_d(text) {
        return Some(kind);
    }
    if let Some(kind) = among_e_to_f(text) {
        return Some(kind);
    }
    if let Some(kind) = among_h_to_i(text) {
        return Some(kind);
    }
    if let Some(kind) = among_l_to_o(text) {
        return Some(kind);
    }
    if let Some(kind) = among_r_to_s(text) {
        return Some(kind);
    }
    if let Some(kind) = among_t_to_w(text) {
        return Some(kind);
    }
    if let Some(kind) = among_of_signs(text) {
        return Some(kind);
    }
    among_of_marks(text)
}

pub fn is_star(text: &[u8]) -> bool
    ensures { result ≡ is_text text.now (codes "*") }
{
    text == b"*".as_slice()
}
