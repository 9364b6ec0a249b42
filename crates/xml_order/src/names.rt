// The names of the attributes of a tag.
ghost use Rattle.std.specs.Prelude.{◌≡◌, [], ◌∷◌, ◌++◌, IfOk, not, true, if◌then◌else◌};
ghost use Rattle.std.specs.List.{list_any};
ghost use Rattle.std.specs.Str.{bytes_eq};
ghost use Rattle.tree_model.specs.XmlGood.{is_in};

use indexmap::IndexSet;
use std::alloc::{AllocError, Global};
use std::marker::Model;

// So many names are compared one by one.
const FEW: usize = 16;

// Names that differ: the first ones in a row, and those behind them in a set, so that many names take linear time.
#[derive(Drop)]
pub struct Names<'a> {
    alloc: Global,
    few: Vec<&'a [u8]>,
    many: Option<IndexSet<&'a [u8]>>,
}

impl<'a> Model for Names<'a> {
    ghost use Rattle.std.specs.Prelude.{List, ℕ};

    ghost Value = { List (List ℕ) };

    ghost use Rattle.xml_order.specs.NamesView.{names_in};

    ghost view = { λ n. names_in n.few.items n.many };
}

fn is_among(names: &[&[u8]], name: &[u8]) -> bool
    ensures { result ≡ list_any (λ other. bytes_eq name.now other.now) names.now }
{
    names.iter().any(|other| name == *other)
}

// Notes a name, and says whether it is new.
fn note<'a>(names: &mut IndexSet<&'a [u8]>, name: &'a [u8]) -> Result<bool, AllocError>
    ensures fresh { IfOk result (λ fresh. fresh ≡ not (list_any (λ other. bytes_eq name.now other.now) names.old.keys)) }
    ensures keys { IfOk result (λ fresh. names.new.keys ≡ (if list_any (λ other. bytes_eq name.now other.now) names.old.keys then names.old.keys else names.old.keys ++ name.entry ∷ [])) }
{
    match names.insert_full(name) {
        Ok(found) => Ok(found.1),
        Err(_) => Err(AllocError),
    }
}

impl<'a> Names<'a> {
    pub fn new(alloc: Global) -> Self
        ensures { result ≡ [] }
    {
        Names {
            alloc,
            few: Vec::new(alloc),
            many: None,
        }
    }

    pub fn clear(&mut self)
        ensures { self.new ≡ [] }
    {
        self.few.clear();
        self.many = None;
    }

    // Adds a name, unless it is there.
    #[tactic(auto, using(crate::proofs::AttributeNames::in_either))]
    pub fn add(&mut self, name: &'a [u8]) -> Result<bool, AllocError>
        ensures fresh { IfOk result (λ fresh. fresh ≡ not (is_in name.now self.old)) }
        ensures added { IfOk result (λ fresh. fresh ≡ true → self.new ≡ name.now ∷ self.old) }
    {
        if is_among(&self.few, name) {
            return Ok(false);
        }
        if let Some(many) = &mut self.many {
            return note(many, name);
        }
        if self.few.len() < FEW {
            self.few.push(name)?;
            return Ok(true);
        }
        let mut many = IndexSet::new(self.alloc);
        let fresh = note(&mut many, name)?;
        self.many = Some(many);
        Ok(fresh)
    }
}
