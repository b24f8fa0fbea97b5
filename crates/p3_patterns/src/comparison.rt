//! How patterns compare: as the lists of their steps.
ghost use Rattle.std.specs.{Cmp.{on_per, on_equiv, on_po, on_total}, Hash.{on_Alike, items_Alike}};
ghost use Rattle.std.specs.Cmp.Lexicographic.{pointwise, slice_cmp, slice_partial_cmp, lists_per, lists_equiv};
ghost use Rattle.std.specs.Cmp.Lexicographic.{lists_agrees, lists_total, lists_ties, lists_po};
ghost use Rattle.p3_patterns.specs.PatternSteps.{interactions_in};
ghost use Rattle.std.specs.Hash as fed;
ghost use Rattle.p3_fs_core.specs.contracts.interaction.InteractionPartialEq.TheImpl.Laws as partial_equality;
ghost use Rattle.p3_fs_core.specs.contracts.interaction.InteractionEq.TheImpl.Laws as equality;
ghost use Rattle.p3_fs_core.specs.contracts.interaction.InteractionPartialOrd.TheImpl.Laws as partial_order;
ghost use Rattle.p3_fs_core.specs.contracts.interaction.InteractionOrd.TheImpl.Laws as order;
ghost use Rattle.p3_fs_core.specs.contracts.interaction.InteractionHash.TheImpl.Laws as hashes;

use crate::InteractionPattern;
use p3_fs_core::Interaction;
use std::cmp::Ordering;
use std::hash::{Hash, Hasher};

impl PartialEq for InteractionPattern {
    ghost eq = { λ a b.
        pointwise ⟦<Interaction as PartialEq>⟧.eq (interactions_in a) (interactions_in b) };

    ghost laws = { on_per interactions_in (lists_per partial_equality.laws-law) };

    fn eq(&self, other: &Self) -> bool {
        self.interactions() == other.interactions()
    }
}

impl Eq for InteractionPattern {
    ghost laws = { on_equiv interactions_in (lists_equiv equality.laws-law) };
}

impl PartialOrd for InteractionPattern {
    ghost partial_cmp = { λ a b. slice_partial_cmp ⟦<Interaction as PartialOrd>⟧.partial_cmp
        (interactions_in a) (interactions_in b) };

    ghost laws = { on_po interactions_in (lists_po partial_order.laws-law) };

    fn partial_cmp(&self, other: &Self) -> Option<Ordering> {
        self.interactions().partial_cmp(other.interactions())
    }
}

impl Ord for InteractionPattern {
    ghost cmp = { λ a b.
        slice_cmp ⟦<Interaction as Ord>⟧.cmp (interactions_in a) (interactions_in b) };

    ghost total = { on_total interactions_in (lists_total order.total-law) };

    ghost matches_partial_cmp = { λ a b. lists_agrees order.matches_partial_cmp-law
        (interactions_in a) (interactions_in b) };

    ghost matches_eq = { λ a b. lists_ties ⟦<Interaction as Ord>⟧.cmp order.matches_eq-law
        (interactions_in a) (interactions_in b) };

    fn cmp(&self, other: &Self) -> Ordering {
        self.interactions().cmp(other.interactions())
    }
}

impl Hash for InteractionPattern {
    ghost hash_input = { λ a. fed.slice ⟦<Interaction as Hash>⟧.hash_input (interactions_in a) };

    ghost respects_eq = { (on_Alike interactions_in
        (items_Alike (record { fed = hashes.respects_eq-law }))).fed };

    fn hash<H: Hasher>(&self, state: &mut H) {
        self.interactions().hash(state);
    }
}
