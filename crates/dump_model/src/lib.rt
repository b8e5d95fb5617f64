// The trees of compilation units in each version, and the law that the tree of a unit is read as that unit, as definitions.
#![tactic(auto)]
