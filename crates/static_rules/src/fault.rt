// Faults, and the first of those that were found.
ghost use Rattle.std.specs.Prelude.{◌≡◌, true, MatchOption};
ghost use Rattle.std.proofs.Props.{props};
ghost use Rattle.tree_model.specs.QueryCodes.{query_code, is_query_code};
ghost use Rattle.query_terms.specs.Static as spec;
ghost use Rattle.static_rules.specs.Codes.{HasCode};

use dec_num::{NumFault, read};
use query_terms::{Literal, Span};
use std::marker::Model;
use tree_model::{Code, Text};

// A code of queries, with the place of the term at fault and the number of the rule that it breaks.
#[derive(Clone, Copy)]
struct Fault {
    place: usize,
    rule: u8,
    code: Code,
    ghost is_of_queries: { is_query_code code ≡ true } by { Prim.hlevel props },
}

// The first of the faults that were found: the least place, and at one place the least rule.
#[derive(Drop)]
pub(crate) struct Found {
    first: Option<Fault>,
}

impl Model for Found {
    ghost use Rattle.std.specs.Prelude.{Option};
    ghost use Rattle.query_terms.specs.Static as spec;
    ghost use Rattle.static_rules.specs.Found.{fault_of};
    ghost use Rattle.std.specs.Option.{option_map};

    ghost Value = { Option spec.Fault };

    ghost view = { λ f. option_map fault_of f.first };
}

impl Found {
    pub(crate) fn none() -> Found
        ensures { result ≡ None }
    {
        Found { first: None }
    }

    pub(crate) fn note(&mut self, place: usize, rule: u8, code: Code)
        requires { is_query_code code ≡ true }
        ensures { self.new ≡ spec.lesser self.old (spec.fault place rule (query_code code)) }
    {
        let fault = Fault { place, rule, code };
        match self.first {
            Some(first) if !(place < first.place || (place == first.place && rule < first.rule)) =>
                {}
            _ => self.first = Some(fault),
        }
    }

    pub(crate) fn note_if(&mut self, is_broken: bool, place: usize, rule: u8, code: Code)
        requires { is_query_code code ≡ true }
        ensures { self.new ≡ spec.least_of self.old (spec.fault_if is_broken (spec.fault place rule (query_code code))) }
    {
        if is_broken {
            self.note(place, rule, code);
        }
    }

    #[tactic(auto, unfolding(query_terms::specs::Static::literal_faults))]
    pub(crate) fn note_literal(&mut self, literal: &Literal)
        ensures { self.new ≡ spec.least_of self.old (spec.literal_faults literal.now) }
    {
        if let Some(place) = literal.bad_reference {
            self.note(place, 2, Code::XQST0090);
        }
    }

    #[tactic(auto, unfolding(query_terms::specs::Static::number_faults))]
    pub(crate) fn note_number(&mut self, span: Span, text: &Text)
        ensures { self.new ≡ spec.least_of self.old (spec.number_faults span text.now) }
    {
        match read(text.as_str().as_bytes()) {
            Ok(_) => {}
            Err(NumFault::BadText) => self.note(span.from, 3, Code::FORG0001),
            Err(NumFault::Range) => self.note(span.from, 3, Code::FOAR0002),
        }
    }

    // The code of the first fault.
    #[tactic(auto, unfolding(crate::specs::Codes::HasCode))]
    pub(crate) fn code(&self) -> Option<Code>
        ensures { MatchOption result (self.now ≡ None) (λ code. HasCode self.now code) }
    {
        match self.first {
            Some(first) => Some(first.code),
            None => None,
        }
    }
}
