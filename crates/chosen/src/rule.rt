ghost use Rattle.chosen.specs.Rules.{rule_of, pile_of};
ghost use Rattle.chosen.specs.Lawfuls.{rule_lawful, pile_lawful};

use sharing::derogation::Derogation;
use sharing::equal::Equal;
use sharing::nearest::Nearest;
use sharing::rule::SharingRule;
use sharing::running::Running;

// A sharing rule whose kind is chosen while a program runs.
// An enum and not a `Box<dyn SharingRule>`, since the library has no heap; each method has a `match`, since no function may
// hand out a `dyn`.
#[derive(Drop)]
pub enum AnyRule {
    Equal(Equal),
    Running(Running),
    Nearest(Nearest),
}

impl SharingRule for AnyRule {
    ghost meaning = { rule_of };

    ghost lawful = { rule_lawful };

    fn owners(&self) -> u32 {
        match self {
            AnyRule::Equal(rule) => rule.owners(),
            AnyRule::Running(rule) => rule.owners(),
            AnyRule::Nearest(rule) => rule.owners(),
        }
    }

    fn give(&self, amount: i64, row: &mut [i64]) {
        match self {
            AnyRule::Equal(rule) => rule.give(amount, row),
            AnyRule::Running(rule) => rule.give(amount, row),
            AnyRule::Nearest(rule) => rule.give(amount, row),
        }
    }
}

// A rule under none, one or two derogations.
// Three kinds, since each is a type of its own; a list of parts would need a derogation's code a second time.
#[derive(Drop)]
pub enum Pile {
    Plain(AnyRule),
    Once(Derogation<AnyRule>),
    Twice(Derogation<Derogation<AnyRule>>),
}

impl SharingRule for Pile {
    ghost meaning = { pile_of };

    ghost lawful = { pile_lawful };

    fn owners(&self) -> u32 {
        match self {
            Pile::Plain(rule) => rule.owners(),
            Pile::Once(rule) => rule.owners(),
            Pile::Twice(rule) => rule.owners(),
        }
    }

    fn give(&self, amount: i64, row: &mut [i64]) {
        match self {
            Pile::Plain(rule) => rule.give(amount, row),
            Pile::Once(rule) => rule.give(amount, row),
            Pile::Twice(rule) => rule.give(amount, row),
        }
    }
}
