// Where a term of a query stands.
ghost use Rattle.std.specs.Prelude.{◌≡◌, ◌++◌, ◌∷◌, [], ◌&&◌, if◌then◌else◌, length, take, IfOk, OnOk, None, Some};
ghost use Rattle.tree_model.specs.Sound.{is_empty};
ghost use Rattle.std.specs.List.{list_any};
ghost use Rattle.std.specs.Str.{bytes_eq};
ghost use Rattle.tree_model.specs.declared.text.Name as tree_model;
ghost use Rattle.query_terms.specs.Static as spec;
ghost use Rattle.name_scopes.specs.Kept.{texts_in, with_only, with_variables};

use query_terms::{Binding, Declaration, Variable};
use std::alloc::Global;
use std::marker::Model;
use tree_model::{Name, NoMemory, Text};

/// The URI of the prefix `xml`.
pub const XML_URI: &str = "http://www.w3.org/XML/1998/namespace";
/// The URI that belongs to `xmlns`.
pub const XMLNS_URI: &str = "http://www.w3.org/2000/xmlns/";
/// The URI of functions whose names have no prefix.
pub const FUNCTIONS_URI: &str = "http://www.w3.org/2005/xpath-functions";

/// How deep expressions may stand in one another where a query is walked over. Those that are read from a text stand far less
/// deep.
pub const MAX_DEPTH: usize = 100_000;

const SCHEMA_URI: &str = "http://www.w3.org/2001/XMLSchema";

const INSTANCE_URI: &str = "http://www.w3.org/2001/XMLSchema-instance";

const LOCAL_URI: &str = "http://www.w3.org/2005/xquery-local-functions";

/// The bindings of prefixes in force, the innermost last, and the names of the variables in scope, with their URIs. Of two
/// bindings of one prefix the later counts. The empty prefix stands for names of elements without a prefix.
#[derive(Drop)]
pub struct Environment {
    bindings: Vec<Binding>,
    variables: Vec<Name>,
}

impl Model for Environment {
    ghost use Rattle.query_terms.specs.Static as spec;

    ghost Value = { spec.Environment };

    ghost view = { λ e. record { bindings = e.bindings.items; variables = e.variables.items } };
}

fn uri_in(binding: &Binding) -> Option<&Text>
    ensures { texts_in result ≡ binding.now.uri }
{
    match &binding.uri {
        Some(uri) => Some(uri),
        None => None,
    }
}

// The last binding of a prefix gives its URI, or takes it away.
#[tactic(auto, unfolding(query_terms::specs::Static::bound_behind))]
fn bound_uri<'a>(bindings: &'a [Binding], prefix: &Text) -> Option<&'a Text>
    ensures { texts_in result ≡ spec.bound_to bindings.now prefix.now }
{
    let mut uri = None;
    for binding in bindings {
        if binding.prefix == *prefix {
            uri = uri_in(binding);
        }
    }
    uri
}

fn is_among(names: &[Name], uri: &str, local: &Text) -> bool
    ensures { result ≡ list_any (λ (m : tree_model.Name). bytes_eq uri.now m.uri && bytes_eq local.now m.local) names.now }
{
    names
        .iter()
        .any(|name| uri == name.uri.as_str() && *local == name.local)
}

fn binding(alloc: Global, prefix: &str, uri: &str) -> Result<Binding, NoMemory>
    ensures { IfOk result (λ b. b ≡ spec.binding prefix.now uri.now) }
{
    Ok(Binding {
        prefix: Text::of(alloc, prefix)?,
        uri: Some(Text::of(alloc, uri)?),
    })
}

// What is bound unless the query says otherwise (XQuery 1.0, section 4.12).
fn predeclared(alloc: Global) -> Result<Vec<Binding>, NoMemory>
    ensures { IfOk result (λ bs. bs.items ≡ spec.predeclared) }
{
    let mut bindings = Vec::new(alloc);
    bindings.push(binding(alloc, "xml", XML_URI)?)?;
    bindings.push(binding(alloc, "xs", SCHEMA_URI)?)?;
    bindings.push(binding(alloc, "xsi", INSTANCE_URI)?)?;
    bindings.push(binding(alloc, "fn", FUNCTIONS_URI)?)?;
    bindings.push(binding(alloc, "local", LOCAL_URI)?)?;
    Ok(bindings)
}

// An empty URI takes the prefix away (XQuery 1.0, section 4.12).
fn namespace_binding(alloc: Global, prefix: &Text, uri: &Text) -> Result<Binding, NoMemory>
    ensures { IfOk result (λ b. b ≡ record { prefix = prefix.now; uri = if is_empty uri.now then None else Some uri.now }) }
{
    if uri.as_str().is_empty() {
        Ok(Binding {
            prefix: prefix.copy()?,
            uri: None,
        })
    } else {
        binding(alloc, prefix.as_str(), uri.as_str())
    }
}

fn declared_binding(alloc: Global, declaration: &Declaration) -> Result<Binding, NoMemory>
    ensures { IfOk result (λ b. b ≡ spec.declared_binding declaration.now) }
{
    match declaration {
        Declaration::Namespace { prefix, uri, .. } => namespace_binding(alloc, prefix, &uri.text),
        Declaration::DefaultElement { uri, .. } => binding(alloc, "", uri.text.as_str()),
    }
}

impl Environment {
    /// Where the expression of a query stands that has these declarations. Five prefixes are bound before them (XQuery 1.0,
    /// section 4.12).
    #[tactic(auto, unfolding(query_terms::specs::Static::prolog_bindings))]
    pub fn outermost(alloc: Global, declarations: &[Declaration]) -> Result<Environment, NoMemory>
        ensures { IfOk result (λ env. env ≡ spec.outermost declarations.now) }
    {
        let mut bindings = predeclared(alloc)?;
        for declaration in declarations {
            bindings.push(declared_binding(alloc, declaration)?)?;
        }
        Ok(Environment {
            bindings,
            variables: Vec::new(alloc),
        })
    }

    /// The bindings in force, the innermost last.
    pub fn bindings(&self) -> &[Binding]
        ensures { result.now ≡ self.now.bindings }
    {
        self.bindings.as_slice()
    }

    /// The URI that a prefix is bound to, empty where it is unbound.
    pub fn uri_of(&self, prefix: &Text) -> &str
        ensures { result.now ≡ spec.uri_of self.now.bindings prefix.now }
    {
        match bound_uri(self.bindings.as_slice(), prefix) {
            Some(uri) => uri.as_str(),
            None => "",
        }
    }

    /// Whether a name has a prefix that is unbound.
    #[tactic(auto, unfolding(query_terms::specs::Static::is_unbound))]
    pub fn is_unbound(&self, name: &Name) -> bool
        ensures { result ≡ spec.is_unbound self.now.bindings name.now }
    {
        !name.prefix.as_str().is_empty()
            && bound_uri(self.bindings.as_slice(), &name.prefix).is_none()
    }

    /// The URI of a name, where those without a prefix have this one.
    #[tactic(auto, unfolding(query_terms::specs::Static::uri_or))]
    pub fn uri_or<'a>(&'a self, plain: &'a str, name: &Name) -> &'a str
        ensures { result.now ≡ spec.uri_or plain.now self.now.bindings name.now }
    {
        if name.prefix.as_str().is_empty() {
            plain
        } else {
            self.uri_of(&name.prefix)
        }
    }

    /// A copy of a name with its URI, where names without a prefix have none.
    pub fn expanded(&self, alloc: Global, name: &Name) -> Result<Name, NoMemory>
        ensures { IfOk result (λ n. n ≡ spec.expanded self.now.bindings name.now) }
    {
        Ok(Name {
            uri: Text::of(alloc, self.uri_or("", name))?,
            prefix: name.prefix.copy()?,
            local: name.local.copy()?,
        })
    }

    /// Whether a variable of this expanded name is in scope. With an unbound prefix there is none.
    #[tactic(auto, unfolding(query_terms::specs::Static::is_among))]
    pub fn has_variable(&self, name: &Name) -> bool
        ensures { result ≡ spec.is_among self.now.bindings self.now.variables name.now }
    {
        !self.is_unbound(name)
            && is_among(
                self.variables.as_slice(),
                self.uri_or("", name),
                &name.local,
            )
    }

    /// Whether the second variable has the first one's expanded name. With an unbound prefix it has not.
    #[tactic(auto, unfolding(query_terms::specs::Static::is_among, query_terms::specs::Static::bound_names))]
    pub fn is_same_variable(&self, first: &Variable, second: &Variable) -> bool
        ensures { result ≡ spec.is_among self.now.bindings (spec.bound_names self.now.bindings first.now) second.now.name.name }
    {
        let first = &first.name.name;
        let second = &second.name.name;
        if self.is_unbound(second) || self.is_unbound(first) {
            return false;
        }
        self.uri_or("", second) == self.uri_or("", first) && second.local == first.local
    }

    /// Brings a variable into scope. One whose prefix is unbound stays out.
    #[tactic(auto, unfolding(query_terms::specs::Static::with_variable, query_terms::specs::Static::bound_names))]
    pub fn bind(&mut self, alloc: Global, variable: &Variable) -> Result<(), NoMemory>
        ensures { OnOk result (self.new ≡ spec.with_variable variable.now self.old) }
    {
        let name = &variable.name.name;
        if !self.is_unbound(name) {
            let expanded = self.expanded(alloc, name)?;
            self.variables.push(expanded)?;
        }
        Ok(())
    }

    /// Brings a binding into force, the innermost.
    pub fn declare(&mut self, binding: Binding) -> Result<(), NoMemory>
        ensures { OnOk result (self.new ≡ spec.with_bindings (binding ∷ []) self.old) }
    {
        self.bindings.push(binding)?;
        Ok(())
    }

    /// How many bindings there are.
    pub fn binding_count(&self) -> usize
        ensures { result ≡ length self.now.bindings }
    {
        self.bindings.len()
    }

    /// How many variables are in scope.
    pub fn variable_count(&self) -> usize
        ensures { result ≡ length self.now.variables }
    {
        self.variables.len()
    }

    /// Keeps so many of the variables, the outermost.
    pub fn keep_variables(&mut self, count: usize)
        ensures { self.new ≡ with_variables (take count self.old.variables) self.old }
    {
        self.variables.truncate(count);
    }

    /// Keeps so many of the bindings, the outermost.
    pub fn keep_bindings(&mut self, count: usize)
        ensures { self.new ≡ with_only (take count self.old.bindings) self.old }
    {
        self.bindings.truncate(count);
    }
}
