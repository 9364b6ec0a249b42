// Laws of steps, each as the contract of a function that does nothing.
ghost use Rattle.axis_steps.specs.Together.{ChildrenOfAllAreDescendants};

/// From nodes of trees whose kinds are in their places, a step of `//` and one to children behind it lead where one step to
/// descendants does.
pub fn children_of_all_are_descendants()
    ensures { ChildrenOfAllAreDescendants }
{}
