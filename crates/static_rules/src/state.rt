// What a walk over a query carries along, and the faults that terms have by themselves.
ghost use Rattle.std.specs.Prelude.{◌≡◌};
ghost use Rattle.query_terms.specs.Static as spec;
ghost use Rattle.tree_model.specs.Functions.{function_named};
ghost use Rattle.static_rules.specs.Walked.{Noted};

use crate::fault::Found;
use name_scopes::{Environment, FUNCTIONS_URI};
use query_terms::{NodeTest, QName, Variable};
use tree_model::{Code, Function};

// Where the walk stands, and what it has found.
#[derive(Drop)]
pub(crate) struct State {
    pub(crate) environment: Environment,
    pub(crate) found: Found,
}

// Whether the function of a local name, if there is one, takes so many arguments.
fn takes_so_many(local: &str, count: usize) -> bool
    ensures { result ≡ spec.takes_so_many (function_named local.now) count }
{
    match Function::named(local) {
        Some(function) => function.takes(count),
        None => false,
    }
}

impl State {
    #[tactic(auto, unfolding(query_terms::specs::Static::name_faults))]
    pub(crate) fn note_name(&mut self, name: &QName)
        ensures { Noted (spec.name_faults name.now) self.old self.new }
    {
        if self.environment.is_unbound(&name.name) {
            self.found.note(name.span.from, 5, Code::XPST0081);
        }
    }

    #[tactic(auto, unfolding(query_terms::specs::Static::variable_faults))]
    pub(crate) fn note_variable(&mut self, variable: &Variable)
        ensures { Noted (spec.variable_faults variable.now) self.old self.new }
    {
        if !self.environment.has_variable(&variable.name.name) {
            self.found.note(variable.span.from, 6, Code::XPST0008);
        }
        self.note_name(&variable.name);
    }

    #[tactic(auto, unfolding(query_terms::specs::Static::position_faults))]
    pub(crate) fn note_position(&mut self, variable: &Variable, position: &Option<Variable>)
        ensures { Noted (spec.position_faults variable.now position.now) self.old self.new }
    {
        if let Some(position) = position {
            if self.environment.is_same_variable(variable, position) {
                self.found.note(position.span.from, 6, Code::XQST0089);
            }
            self.note_name(&position.name);
        }
    }

    #[tactic(auto, unfolding(query_terms::specs::Static::test_faults))]
    pub(crate) fn note_test(&mut self, test: &NodeTest)
        ensures { Noted (spec.test_faults test.now) self.old self.new }
    {
        match test {
            NodeTest::Instruction(Some(target)) => self.found.note_literal(target),
            NodeTest::Element(Some(name)) | NodeTest::Attribute(Some(name)) => self.note_name(name),
            NodeTest::Namespace(name) | NodeTest::Name(name) => self.note_name(name),
            _ => {}
        }
    }

    // Whether there is a function of this name with so many arguments.
    #[tactic(auto, unfolding(query_terms::specs::Static::is_function))]
    fn is_function(&self, name: &QName, count: usize) -> bool
        ensures { result ≡ spec.is_function self.now.environment.bindings name.now.name count }
    {
        self.environment.uri_or(FUNCTIONS_URI, &name.name) == FUNCTIONS_URI
            && takes_so_many(name.name.local.as_str(), count)
    }

    #[tactic(auto, unfolding(query_terms::specs::Static::call_faults))]
    pub(crate) fn note_call(&mut self, name: &QName, count: usize)
        ensures { Noted (spec.call_faults name.now count) self.old self.new }
    {
        self.note_name(name);
        if !self.is_function(name, count) {
            self.found.note(name.span.from, 7, Code::XPST0017);
        }
    }
}
