//! Laws of reading: a document is read again as it was printed, and a text spells one tree.
#![tactic(auto)]

ghost use Rattle.std.specs.Prelude.{◌≡◌, ℕ, Bool, List};
ghost use Rattle.tree_model.specs.Forest.{Forest};
ghost use Rattle.tree_model.specs.Labels.{Label};
ghost use Rattle.tree_model.specs.PrintedReads.{PrintedReads};
ghost use Rattle.tree_model.specs.XmlReads.{SpellsTree};

/// The text of a sound document with one element and no text among its children, whose comments and instructions have no CR,
/// whose instructions have no white space before their values, and to whose elements printing adds no namespace declaration,
/// spells that document: without its path, with the declarations that its elements keep, and with ids from 0 in document
/// order.
pub fn printed_documents_are_read_again()
    ensures { PrintedReads }
{}

/// A text spells at most one tree.
pub fn one_tree()
    ensures { (strip : Bool) (text : List ℕ) (f g : Forest Label) → SpellsTree strip text f → SpellsTree strip text g → f ≡ g }
{}
