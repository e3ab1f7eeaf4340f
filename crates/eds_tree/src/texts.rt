//! The forms of attributes' texts.

ghost use Rattle.std.specs.Prelude.{◌≡◌, nat_eq, position};
ghost use Rattle.std.specs.List.{list_all};
ghost use Rattle.eds_tree.specs.Rows.{form_of};
ghost use Rattle.eds_tree.specs.AttributeTexts.{begins_name as begins, continues_name as continues, is_name as name_form, are_names as joined_names, is_at_least as at_least, is_between as between, has_form as form_fits, has_name_form as name_fits};

use crate::row::Form;
use crate::shape::is_among;
use eds_base::{flag_value, whole_number};

// ---- names

fn begins_name(c: u8) -> bool
    ensures { result ≡ begins c }
{
    c.is_ascii_alphabetic() || c == b'_'
}

fn continues_name(c: u8) -> bool
    ensures { result ≡ continues c }
{
    c.is_ascii_alphanumeric() || (c == b'_' || c == b'-')
}

fn all_continue(octets: &[u8]) -> bool
    ensures { result ≡ list_all continues octets.now }
{
    octets.iter().all(|c| continues_name(*c))
}

fn is_name(octets: &[u8]) -> bool
    ensures { result ≡ name_form octets.now }
{
    match octets {
        [] => false,
        [first, rest @ ..] => begins_name(*first) && (all_continue(rest) && rest.len() < 255),
    }
}

fn position_of(octets: &[u8], separator: u8) -> Option<usize>
    ensures { result ≡ position (λ c. nat_eq c separator) octets.now }
{
    octets.iter().position(|c| *c == separator)
}

fn are_names(octets: &[u8], separator: u8) -> bool
    ensures { result ≡ joined_names separator octets.now }
{
    let mut rest = octets;
    while let Some(i) = position_of(rest, separator) {
        if !is_name(&rest[..i]) {
            return false;
        }
        rest = &rest[i + 1..];
    }
    is_name(rest)
}

// ---- forms

fn is_at_least(low: u32, number: Option<i128>) -> bool
    ensures { result ≡ at_least low number }
{
    number.is_some_and(|n| n >= low as i128)
}

fn is_between(low: u32, high: u32, number: Option<i128>) -> bool
    ensures { result ≡ between low high number }
{
    number.is_some_and(|n| n >= low as i128 && n <= high as i128)
}

/// Whether a text has the form that the table asks for; names are judged by a rule of their own.
pub(crate) fn has_form(form: Form, text: &str) -> bool
    ensures { result ≡ form_fits (form_of form) text.now }
{
    match form {
        Form::Name | Form::PackageName | Form::Text => true,
        Form::Reference => are_names(text.as_bytes(), b'/'),
        Form::Path => are_names(text.as_bytes(), b'.'),
        Form::Whole => whole_number(text).is_some(),
        Form::AtLeast(low) => is_at_least(low, whole_number(text)),
        Form::Between(low, high) => is_between(low, high, whole_number(text)),
        Form::Flag => flag_value(text).is_some(),
        Form::Word(words) => is_among(words, text),
    }
}

/// Whether a text that should be a name, or a package's name, is one.
pub(crate) fn has_name_form(form: Form, text: &str) -> bool
    ensures { result ≡ name_fits (form_of form) text.now }
{
    match form {
        Form::Name => is_name(text.as_bytes()),
        Form::PackageName => are_names(text.as_bytes(), b'/'),
        Form::Reference
        | Form::Path
        | Form::Whole
        | Form::AtLeast(_)
        | Form::Between(_, _)
        | Form::Flag
        | Form::Word(_)
        | Form::Text => true,
    }
}
