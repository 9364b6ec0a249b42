// The declarations of namespaces among the attributes of an element (XQuery 1.0, section 3.7.1.2).
ghost use Rattle.std.specs.Prelude.{◌≡◌, ◌++◌, map, IfOk, OnOk};
ghost use Rattle.std.specs.List.{concat};
ghost use Rattle.query_terms.specs.Static as spec;
ghost use Rattle.query_terms.specs.declared.tree.Attribute.{out-Attribute};
ghost use Rattle.name_scopes.specs.Declares.{declared_of, listed, text_of};

use crate::environment::Environment;
use query_terms::{Attribute, Binding, Content};
use std::alloc::Global;
use tree_model::{Name, NoMemory, Text};

/// Whether an attribute of this name declares a namespace (XQuery 1.0, section 3.7.1.2).
#[tactic(auto, unfolding(query_terms::specs::Static::is_declaration))]
pub fn is_declaration(name: &Name) -> bool
    ensures { result ≡ spec.is_declaration name.now }
{
    if name.prefix.as_str().is_empty() {
        name.local.as_str() == "xmlns"
    } else {
        name.prefix.as_str() == "xmlns"
    }
}

fn contents_text(alloc: Global, value: &[Content]) -> Result<Text, NoMemory>
    ensures { IfOk result (λ t. t ≡ concat (map text_of value.now)) }
{
    let mut text = String::new(alloc);
    for content in value {
        if let Content::Characters(literal) = content {
            text.push_str(literal.text.as_str())?;
        }
    }
    Text::of(alloc, text.as_str())
}

#[tactic(auto, unfolding(query_terms::specs::Static::quoted_text))]
fn quoted_text(alloc: Global, attribute: &Attribute) -> Result<Text, NoMemory>
    ensures { IfOk result (λ t. t ≡ spec.quoted_text (out-Attribute attribute.now).written (map text_of (out-Attribute attribute.now).value)) }
{
    match &attribute.written {
        Some(written) => written.copy(),
        None => contents_text(alloc, attribute.value.as_slice()),
    }
}

fn declared_prefix(alloc: Global, name: &Name) -> Result<Text, NoMemory>
    ensures { IfOk result (λ t. t ≡ spec.declared_prefix name.now) }
{
    if name.prefix.as_str().is_empty() {
        Text::of(alloc, "")
    } else {
        name.local.copy()
    }
}

#[tactic(auto, unfolding(query_terms::specs::Static::declared_by))]
fn declared(alloc: Global, attribute: &Attribute) -> Result<Option<Binding>, NoMemory>
    ensures { IfOk result (λ b. listed b ≡ declared_of attribute.now) }
{
    let name = &attribute.name.name;
    if !is_declaration(name) {
        return Ok(None);
    }
    let prefix = declared_prefix(alloc, name)?;
    let uri = quoted_text(alloc, attribute)?;
    let uri = Some(uri);
    Ok(Some(Binding { prefix, uri }))
}

fn declare(
    alloc: Global,
    environment: &mut Environment,
    attribute: &Attribute,
) -> Result<(), NoMemory>
    ensures { OnOk result (environment.new ≡ spec.with_bindings (declared_of attribute.now) environment.old) }
{
    match declared(alloc, attribute)? {
        Some(binding) => environment.declare(binding),
        None => Ok(()),
    }
}

/// Brings the namespaces that the attributes of an element declare into force. Of two declarations of one prefix the first
/// counts, so they are brought in from the last.
pub fn declare_all(
    alloc: Global,
    environment: &mut Environment,
    attributes: &[Attribute],
) -> Result<(), NoMemory>
    ensures { OnOk result (environment.new ≡ spec.with_bindings (spec.declared_in (map declared_of attributes.now)) environment.old) }
{
    let mut left = attributes.len();
    while left > 0 {
        left -= 1;
        declare(alloc, environment, &attributes[left])?;
    }
    Ok(())
}
