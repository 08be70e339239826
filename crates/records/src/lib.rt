// What the content words of a volume mean: the head, the roads, the points, the edges and the pieces, with their readers, and the
// edges of each junction. Answers to document 01, "The volume", its sentences on the content words. Where the words stand in
// the blocks is the crate `block`'s, and which volumes obey is said in the crate `rules`.
#![tactic(auto)]

pub mod index;
pub mod readers;
pub mod tables;
