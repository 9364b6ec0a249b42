// Laws of the definitions, each as the contract of a function that does nothing.
ghost use Rattle.tree_model.specs.Forest.{IsOneToOne};
ghost use Rattle.tree_model.specs.Ids.{IdsLeadToPlaces};
ghost use Rattle.tree_model.specs.Labels.{Label};
ghost use Rattle.tree_model.specs.Sound.{SoundIsLoose};
ghost use Rattle.tree_model.specs.XmlReadsSound.{XmlReadsSound};

/// Two lists of trees with equal flattenings are equal, so that rows stand for at most one forest.
pub fn equal_flattenings()
    ensures { IsOneToOne Label }
{}

/// A tree that an XML text spells, under any path, keeps all rules of a database's documents but the limit on the number of
/// nodes; the next id is the number of its nodes.
pub fn spelled_trees_are_sound()
    ensures { XmlReadsSound }
{}

/// Documents that keep all rules keep those that hold while an update is applied.
pub fn sound_documents_are_loose()
    ensures { SoundIsLoose }
{}

/// Where the ids of all nodes differ, the node with an id is the one at the place that stands beside it.
pub fn ids_lead_to_places()
    ensures { IdsLeadToPlaces }
{}
