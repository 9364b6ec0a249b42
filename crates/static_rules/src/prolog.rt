// The faults of the prolog (XQuery 1.0, sections 4.12 and 4.13).
ghost use Rattle.std.specs.Prelude.{◌≡◌, [], ◌||◌};
ghost use Rattle.std.specs.List.{list_any};
ghost use Rattle.query_terms.specs.Static as spec;

use crate::fault::Found;
use name_scopes::{XML_URI, XMLNS_URI};
use query_terms::Declaration;
use tree_model::{Code, Text};

#[tactic(auto, unfolding(query_terms::specs::Static::is_reserved_prefix))]
fn is_reserved_prefix(prefix: &Text) -> bool
    ensures { result ≡ spec.is_reserved_prefix prefix.now }
{
    prefix.as_str() == "xml" || prefix.as_str() == "xmlns"
}

#[tactic(auto, unfolding(query_terms::specs::Static::is_reserved_uri))]
fn is_reserved_uri(uri: &Text) -> bool
    ensures { result ≡ spec.is_reserved_uri uri.now }
{
    uri.as_str() == XML_URI || uri.as_str() == XMLNS_URI
}

#[tactic(auto, unfolding(query_terms::specs::Static::is_reserved))]
fn is_reserved(prefix: &Text, uri: &Text) -> bool
    ensures { result ≡ spec.is_reserved prefix.now uri.now }
{
    is_reserved_prefix(prefix) || is_reserved_uri(uri)
}

fn declares(declaration: &Declaration, prefix: &Text) -> bool
    ensures { result ≡ spec.declares prefix.now declaration.now }
{
    match declaration {
        Declaration::Namespace { prefix: other, .. } => *prefix == *other,
        Declaration::DefaultElement { .. } => false,
    }
}

fn is_default(declaration: &Declaration) -> bool
    ensures { result ≡ spec.is_default declaration.now }
{
    match declaration {
        Declaration::Namespace { .. } => false,
        Declaration::DefaultElement { .. } => true,
    }
}

#[tactic(auto, unfolding(query_terms::specs::Static::is_repeated))]
fn is_repeated(earlier: &[Declaration], prefix: &Text) -> bool
    ensures { result ≡ spec.is_repeated earlier.now prefix.now }
{
    earlier
        .iter()
        .any(|declaration| declares(declaration, prefix))
}

fn has_default(earlier: &[Declaration]) -> bool
    ensures { result ≡ list_any spec.is_default earlier.now }
{
    earlier.iter().any(is_default)
}

#[tactic(auto, unfolding(query_terms::specs::Static::declaration_faults))]
fn note_declaration(found: &mut Found, earlier: &[Declaration], declaration: &Declaration)
    ensures { found.new ≡ spec.least_of found.old (spec.declaration_faults earlier.now declaration.now) }
{
    match declaration {
        Declaration::Namespace { span, prefix, uri } => {
            let is_second = is_repeated(earlier, prefix);
            found.note_if(is_second, span.from, 1, Code::XQST0033);
            let is_taken = is_reserved(prefix, &uri.text);
            found.note_if(is_taken, span.from, 1, Code::XQST0070);
            found.note_literal(uri);
        }
        Declaration::DefaultElement { span, uri } => {
            found.note_if(has_default(earlier), span.from, 1, Code::XQST0066);
            let is_taken = is_reserved_uri(&uri.text);
            found.note_if(is_taken, span.from, 1, Code::XQST0070);
            found.note_literal(uri);
        }
    }
}

pub(crate) fn note_prolog(found: &mut Found, declarations: &[Declaration])
    ensures { found.new ≡ spec.least_of found.old (spec.prolog_faults [] declarations.now) }
{
    let mut done = 0;
    while done < declarations.len() {
        note_declaration(found, &declarations[..done], &declarations[done]);
        done += 1;
    }
}
