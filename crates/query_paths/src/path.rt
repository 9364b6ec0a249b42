// Paths, and the steps that they are stored as.
ghost use Rattle.std.specs.Prelude.{◌≡◌, IfOk, []};
ghost use Rattle.std.specs.List.{fold};
ghost use Rattle.std.specs.Option.{option_map};
ghost use Rattle.query_paths.specs.Paths as spec;

use query_terms::{Expr, Literal, NodeTest, PathStart, PathStep, QName, QueryTree};
use std::alloc::Global;
use tree_model::{Axis, AxisStep, NoMemory, Test, Text};

fn plain_name(name: &QName) -> Result<Option<Text>, NoMemory>
    ensures { IfOk result (λ local. local ≡ spec.plain_name name.now) }
{
    if name.name.prefix.as_str().is_empty() {
        Ok(Some(name.name.local.copy()?))
    } else {
        Ok(None)
    }
}

fn spelled(target: &Option<Literal>) -> Result<Option<Text>, NoMemory>
    ensures { IfOk result (λ text. text ≡ spec.spelled target.now) }
{
    match target {
        Some(literal) => Ok(Some(literal.text.copy()?)),
        None => Ok(None),
    }
}

fn element_named(alloc: Global, name: &QName) -> Result<Option<Test>, NoMemory>
    ensures { IfOk result (λ test. test ≡ option_map spec.element_named (spec.plain_name name.now)) }
{
    match plain_name(name)? {
        Some(local) => Ok(Some(Test::Element {
            uri: Some(Text::of(alloc, "")?),
            local: Some(local),
        })),
        None => Ok(None),
    }
}

fn attribute_named(alloc: Global, name: &QName) -> Result<Option<Test>, NoMemory>
    ensures { IfOk result (λ test. test ≡ option_map spec.attribute_named (spec.plain_name name.now)) }
{
    match plain_name(name)? {
        Some(local) => Ok(Some(Test::Attribute {
            uri: Some(Text::of(alloc, "")?),
            local: Some(local),
        })),
        None => Ok(None),
    }
}

fn principal_named(alloc: Global, name: &QName) -> Result<Option<Test>, NoMemory>
    ensures { IfOk result (λ test. test ≡ option_map spec.principal_named (spec.plain_name name.now)) }
{
    match plain_name(name)? {
        Some(local) => Ok(Some(Test::Principal {
            uri: Some(Text::of(alloc, "")?),
            local: Some(local),
        })),
        None => Ok(None),
    }
}

// The stored form of a test, where it has no prefix.
#[tactic(auto, unfolding(crate::specs::Paths::test_of))]
fn test_of(alloc: Global, test: &NodeTest) -> Result<Option<Test>, NoMemory>
    ensures { IfOk result (λ stored. stored ≡ spec.test_of test.now) }
{
    match test {
        NodeTest::Node => Ok(Some(Test::Node)),
        NodeTest::Text => Ok(Some(Test::Text)),
        NodeTest::Comment => Ok(Some(Test::Comment)),
        NodeTest::Document => Ok(Some(Test::Document)),
        NodeTest::Instruction(target) => Ok(Some(Test::Pi(spelled(target)?))),
        NodeTest::Element(None) => Ok(Some(Test::Element {
            uri: None,
            local: None,
        })),
        NodeTest::Element(Some(name)) => element_named(alloc, name),
        NodeTest::Attribute(None) => Ok(Some(Test::Attribute {
            uri: None,
            local: None,
        })),
        NodeTest::Attribute(Some(name)) => attribute_named(alloc, name),
        NodeTest::Any => Ok(Some(Test::Principal {
            uri: None,
            local: None,
        })),
        NodeTest::LocalName(local) => Ok(Some(Test::Principal {
            uri: None,
            local: Some(local.copy()?),
        })),
        NodeTest::Namespace(_) => Ok(None),
        NodeTest::Name(name) => principal_named(alloc, name),
    }
}

// A step without predicates and prefixes.
#[tactic(auto, unfolding(crate::specs::Paths::step_of))]
fn step_of(alloc: Global, term: &Expr) -> Result<Option<AxisStep>, NoMemory>
    ensures { IfOk result (λ step. step ≡ spec.step_of term.now) }
{
    let Expr::AxisStep { axis, test, .. } = term else {
        return Ok(None);
    };
    match test_of(alloc, test)? {
        Some(test) => Ok(Some(AxisStep { axis: *axis, test })),
        None => Ok(None),
    }
}

// The step that `//` stands for.
fn deep() -> AxisStep
    ensures { result ≡ spec.deep }
{
    AxisStep {
        axis: Axis::DescendantOrSelf,
        test: Test::Node,
    }
}

// The steps with one more behind them, and the one that `//` stands for in front of it where it is deep.
fn with_step(
    alloc: Global,
    is_deep: bool,
    mut found: Vec<AxisStep>,
    term: &Expr,
) -> Result<Option<Vec<AxisStep>>, NoMemory>
    ensures { IfOk result (λ steps. option_map (λ v. v.items) steps ≡ spec.with_step is_deep found.items (spec.step_of term.now)) }
{
    let Some(step) = step_of(alloc, term)? else {
        return Ok(None);
    };
    if is_deep {
        found.push(deep())?;
    }
    found.push(step)?;
    Ok(Some(found))
}

fn behind(
    alloc: Global,
    found: Vec<AxisStep>,
    step: &PathStep,
) -> Result<Option<Vec<AxisStep>>, NoMemory>
    ensures { IfOk result (λ steps. option_map (λ v. v.items) steps ≡ spec.behind (Some found.items) step.now) }
{
    with_step(alloc, step.is_deep, found, step.step.get())
}

// The steps with all the others behind them.
#[tactic(auto, using(crate::proofs::Nothing::none_behind))]
fn all_behind(
    alloc: Global,
    found: Vec<AxisStep>,
    others: &[PathStep],
) -> Result<Option<Vec<AxisStep>>, NoMemory>
    ensures { IfOk result (λ steps. option_map (λ v. v.items) steps ≡ fold spec.behind (Some found.items) others.now) }
{
    let mut found = found;
    let mut rest = others;
    while let [step, more @ ..] = rest {
        match behind(alloc, found, step)? {
            Some(next) => found = next,
            None => return Ok(None),
        }
        rest = more;
    }
    Ok(Some(found))
}

// The steps of a path.
#[tactic(auto, unfolding(crate::specs::Paths::steps_of))]
fn steps_of(alloc: Global, term: &Expr) -> Result<Option<Vec<AxisStep>>, NoMemory>
    ensures { IfOk result (λ steps. option_map (λ v. v.items) steps ≡ spec.steps_of term.now) }
{
    match term {
        Expr::Root { .. } => Ok(Some(Vec::new(alloc))),
        Expr::Path {
            start,
            first,
            others,
            ..
        } => path_steps(alloc, *start, first.get(), others.as_slice()),
        _ => with_step(alloc, false, Vec::new(alloc), term),
    }
}

#[tactic(auto, using(crate::proofs::Nothing::none_behind))]
fn path_steps(
    alloc: Global,
    start: PathStart,
    first: &Expr,
    others: &[PathStep],
) -> Result<Option<Vec<AxisStep>>, NoMemory>
    ensures { IfOk result (λ steps. option_map (λ v. v.items) steps ≡ fold spec.behind (spec.with_step (spec.is_below start) [] (spec.step_of first.now)) others.now) }
{
    let is_below = matches!(start, PathStart::BelowRoot);
    match with_step(alloc, is_below, Vec::new(alloc), first)? {
        Some(found) => all_behind(alloc, found, others),
        None => Ok(None),
    }
}

/// The steps from the documents to what a query asks for, where it is a path of axis steps without predicates and without
/// prefixes and nothing is declared (XQuery 1.0, section 3.2); `None` where it is another query.
#[tactic(auto, unfolding(crate::specs::Paths::path_in))]
pub fn path_in(alloc: Global, query: &QueryTree) -> Result<Option<Vec<AxisStep>>, NoMemory>
    ensures { IfOk result (λ steps. option_map (λ v. v.items) steps ≡ spec.path_in query.now) }
{
    if query.declarations.is_empty() {
        steps_of(alloc, query.body.get())
    } else {
        Ok(None)
    }
}
