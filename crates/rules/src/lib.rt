// The rules of a volume as tests, and whether one road and one edge obey. Answers to document 01, "The volume", its sentences on
// roads, edges and pieces. What the words mean is the crate `records`'; the head's rules are defined here too, in specs/Rules.antt,
// and tested by the crate `volume`.
#![tactic(auto)]

pub mod edges;
pub mod kept;
pub mod roads;
