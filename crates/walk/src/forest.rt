// What is left of a forest that is searched: the state of the Rust's loops over arguments, elements, properties and expressions
// (src/peephole/minimize_statements.rs 1606-1637, 1656-1687, 1690-1718, 1721-1770, 1796-1806, 1809-1819, 1834-1844).
ghost use Rattle.std.specs.Prelude.{◌||◌, ◌≡◌, ◌-◌, ◌<◌};
ghost use Rattle.walk_rules.specs.Substitute.{next as nextPlan};
ghost use Rattle.walk_arms.specs.Arms.{planned};

use records::layout::NodeId;
use walk_arms::arms::{Plan, next_plan};

#[derive(Clone, Copy)]
pub struct Forest {
    pub next: NodeId, // where the first tree that is left begins
    pub trees: usize, // how many are left
    pub plan: Plan, // and the plan for them
    pub effect: bool, // a tree that was passed has an effect
    pub looks: usize, // so far
}

impl Forest {
    // The trees behind the first, which ends before `end` and was passed; with it there were so many looks.
    pub(crate) fn behind(self, end: NodeId, effect: bool, looks: usize) -> Forest
        requires first { 0 < self.trees }
        ensures plan { planned result.plan ≡ nextPlan (planned self.plan) }
        ensures result { result ≡ record {
          next = end;
          trees = self.trees - 1;
          plan = result.plan;
          effect = self.effect || effect;
          looks = looks;
        } }
    {
        Forest {
            next: end,
            trees: self.trees - 1,
            plan: next_plan(self.plan),
            effect: self.effect | effect,
            looks,
        }
    }
}
