// A card of the old rule is made one of today: NXTMFP, which held the end's offset, holds the offset plus 1. What such a card held by the old
// rule is what it holds afterwards; the theorem stands in specs/Theorems.

#![tactic(auto)]

pub mod migrate;
