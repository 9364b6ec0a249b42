// Names with their URIs (XQuery 1.0, section 2.1.1).
ghost use Rattle.std.specs.Prelude.{◌≡◌, IfOk};
ghost use Rattle.query_terms.specs.Resolved as spec;

use name_scopes::{Environment, FUNCTIONS_URI};
use query_terms::{Binding, ComputedKind, Literal, NodeTest, QName, Scope, Variable};
use sqlite_items::Items;
use std::alloc::Global;
use tree_model::{Axis, Function, Name, NoMemory, Test, Text};

fn with_uri(alloc: Global, uri: &str, name: &QName) -> Result<QName, NoMemory>
    ensures { IfOk result (λ q. q ≡ spec.with_uri uri.now name.now) }
{
    Ok(QName {
        span: name.span,
        name: Name {
            uri: Text::of(alloc, uri)?,
            prefix: name.name.prefix.copy()?,
            local: name.name.local.copy()?,
        },
    })
}

#[tactic(auto, unfolding(query_terms::specs::Resolved::element_name))]
pub(crate) fn element_name(
    alloc: Global,
    environment: &Environment,
    name: &QName,
) -> Result<QName, NoMemory>
    ensures { IfOk result (λ q. q ≡ spec.element_name environment.now.bindings name.now) }
{
    with_uri(alloc, environment.uri_of(&name.name.prefix), name)
}

#[tactic(auto, unfolding(query_terms::specs::Resolved::bare_name))]
pub(crate) fn bare_name(
    alloc: Global,
    environment: &Environment,
    name: &QName,
) -> Result<QName, NoMemory>
    ensures { IfOk result (λ q. q ≡ spec.bare_name environment.now.bindings name.now) }
{
    with_uri(alloc, environment.uri_or("", &name.name), name)
}

#[tactic(auto, unfolding(query_terms::specs::Resolved::function_name))]
pub(crate) fn function_name(
    alloc: Global,
    environment: &Environment,
    name: &QName,
) -> Result<QName, NoMemory>
    ensures { IfOk result (λ q. q ≡ spec.function_name environment.now.bindings name.now) }
{
    with_uri(alloc, environment.uri_or(FUNCTIONS_URI, &name.name), name)
}

#[tactic(auto, unfolding(query_terms::specs::Resolved::computed_name))]
pub(crate) fn computed_name(
    alloc: Global,
    environment: &Environment,
    kind: ComputedKind,
    name: &QName,
) -> Result<QName, NoMemory>
    ensures { IfOk result (λ q. q ≡ spec.computed_name kind environment.now.bindings name.now) }
{
    match kind {
        ComputedKind::Element => element_name(alloc, environment, name),
        ComputedKind::Attribute => bare_name(alloc, environment, name),
        ComputedKind::Instruction => bare_name(alloc, environment, name),
    }
}

fn is_attribute_axis(axis: Axis) -> bool
    ensures { result ≡ spec.is_attribute_axis axis }
{
    matches!(axis, Axis::Attribute)
}

#[tactic(auto, unfolding(query_terms::specs::Resolved::tested_name))]
fn tested_name(
    alloc: Global,
    environment: &Environment,
    axis: Axis,
    name: &QName,
) -> Result<QName, NoMemory>
    ensures { IfOk result (λ q. q ≡ spec.tested_name axis environment.now.bindings name.now) }
{
    if is_attribute_axis(axis) {
        bare_name(alloc, environment, name)
    } else {
        element_name(alloc, environment, name)
    }
}

pub(crate) fn literal(literal: &Literal) -> Result<Literal, NoMemory>
    ensures { IfOk result (λ l. l ≡ literal.now) }
{
    Ok(Literal {
        text: literal.text.copy()?,
        bad_reference: literal.bad_reference,
    })
}

#[tactic(auto, unfolding(query_terms::specs::Resolved::resolved_test))]
pub(crate) fn test(
    alloc: Global,
    environment: &Environment,
    axis: Axis,
    test: &NodeTest,
) -> Result<NodeTest, NoMemory>
    ensures { IfOk result (λ t. t ≡ spec.resolved_test axis test.now environment.now.bindings) }
{
    match test {
        NodeTest::Node => Ok(NodeTest::Node),
        NodeTest::Text => Ok(NodeTest::Text),
        NodeTest::Comment => Ok(NodeTest::Comment),
        NodeTest::Document => Ok(NodeTest::Document),
        NodeTest::Instruction(None) => Ok(NodeTest::Instruction(None)),
        NodeTest::Instruction(Some(target)) => Ok(NodeTest::Instruction(Some(literal(target)?))),
        NodeTest::Element(None) => Ok(NodeTest::Element(None)),
        NodeTest::Element(Some(name)) => {
            Ok(NodeTest::Element(Some(element_name(alloc, environment, name)?)))
        }
        NodeTest::Attribute(None) => Ok(NodeTest::Attribute(None)),
        NodeTest::Attribute(Some(name)) => {
            Ok(NodeTest::Attribute(Some(bare_name(alloc, environment, name)?)))
        }
        NodeTest::Any => Ok(NodeTest::Any),
        NodeTest::LocalName(local) => Ok(NodeTest::LocalName(local.copy()?)),
        NodeTest::Namespace(name) => Ok(NodeTest::Namespace(bare_name(alloc, environment, name)?)),
        NodeTest::Name(name) => Ok(NodeTest::Name(tested_name(alloc, environment, axis, name)?)),
    }
}

// The test that a walk takes, of one whose names have their URIs.
#[tactic(auto, unfolding(query_terms::specs::Resolved::walked_test))]
pub(crate) fn walked_test(test: &NodeTest) -> Result<Test, NoMemory>
    ensures { IfOk result (λ t. t ≡ spec.walked_test test.now) }
{
    match test {
        NodeTest::Node => Ok(Test::Node),
        NodeTest::Text => Ok(Test::Text),
        NodeTest::Comment => Ok(Test::Comment),
        NodeTest::Document => Ok(Test::Document),
        NodeTest::Instruction(None) => Ok(Test::Pi(None)),
        NodeTest::Instruction(Some(target)) => Ok(Test::Pi(Some(target.text.copy()?))),
        NodeTest::Element(None) => Ok(Test::Element {
            uri: None,
            local: None,
        }),
        NodeTest::Element(Some(name)) => Ok(Test::Element {
            uri: Some(name.name.uri.copy()?),
            local: Some(name.name.local.copy()?),
        }),
        NodeTest::Attribute(None) => Ok(Test::Attribute {
            uri: None,
            local: None,
        }),
        NodeTest::Attribute(Some(name)) => Ok(Test::Attribute {
            uri: Some(name.name.uri.copy()?),
            local: Some(name.name.local.copy()?),
        }),
        NodeTest::Any => Ok(Test::Principal {
            uri: None,
            local: None,
        }),
        NodeTest::LocalName(local) => Ok(Test::Principal {
            uri: None,
            local: Some(local.copy()?),
        }),
        NodeTest::Namespace(name) => Ok(Test::Principal {
            uri: Some(name.name.uri.copy()?),
            local: None,
        }),
        NodeTest::Name(name) => Ok(Test::Principal {
            uri: Some(name.name.uri.copy()?),
            local: Some(name.name.local.copy()?),
        }),
    }
}

// The function of a name that has its URI.
#[tactic(auto, unfolding(query_terms::specs::Resolved::called_function))]
pub(crate) fn called_function(name: &QName) -> Option<Function>
    ensures { result ≡ spec.called_function name.now }
{
    if name.name.uri.as_str() == FUNCTIONS_URI {
        Function::named(name.name.local.as_str())
    } else {
        None
    }
}

#[tactic(auto, unfolding(query_terms::specs::Resolved::resolved_variable))]
pub(crate) fn variable(
    alloc: Global,
    environment: &Environment,
    variable: &Variable,
) -> Result<Variable, NoMemory>
    ensures { IfOk result (λ v. v ≡ spec.resolved_variable variable.now environment.now.bindings) }
{
    Ok(Variable {
        span: variable.span,
        name: bare_name(alloc, environment, &variable.name)?,
    })
}

pub(crate) fn maybe_variable(
    alloc: Global,
    environment: &Environment,
    position: &Option<Variable>,
) -> Result<Option<Variable>, NoMemory>
    ensures { IfOk result (λ v. v ≡ spec.maybe_variable position.now environment.now.bindings) }
{
    match position {
        Some(position) => Ok(Some(variable(alloc, environment, position)?)),
        None => Ok(None),
    }
}

fn binding(binding: &Binding) -> Result<Binding, NoMemory>
    ensures { IfOk result (λ b. b ≡ binding.now) }
{
    Ok(Binding {
        prefix: binding.prefix.copy()?,
        uri: maybe_text(&binding.uri)?,
    })
}

// A copy of the bindings in force.
pub(crate) fn scope(alloc: Global, environment: &Environment) -> Result<Scope, NoMemory>
    ensures { IfOk result (λ s. s ≡ spec.scope_of environment.now.bindings) }
{
    let mut bindings = Items::new(alloc);
    for inside in environment.bindings() {
        bindings.push(binding(inside)?)?;
    }
    Ok(Scope { bindings })
}

pub(crate) fn maybe_text(text: &Option<Text>) -> Result<Option<Text>, NoMemory>
    ensures { IfOk result (λ t. t ≡ text.now) }
{
    match text {
        Some(text) => Ok(Some(text.copy()?)),
        None => Ok(None),
    }
}
