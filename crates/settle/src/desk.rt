// What a script has at hand beside the register: the loss book and the sharing rule.
use crate::script::{BookKind, BookPlan, Derogations, Part, RuleKind, RulePlan};
use chosen::book::AnyBook;
use chosen::rule::{AnyRule, Pile};
use losses::lossless::Lossless;
use losses::segments::Segments;
use losses::split::Split;
use sharing::derogation::Derogation;
use sharing::equal::Equal;
use sharing::method::Method;
use sharing::weighted::Weighted;
use units::refusal::Refusal;

pub type Book = Split<AnyBook, Split<AnyBook, AnyBook>>;

// A part without links.
const NONE: Part = Part {
    below: 0,
    kind: BookKind::Lossless,
};

#[derive(Drop)]
pub struct Desk {
    pub segments: Segments,
    pub plan: BookPlan,
    pub rule: Pile,
}

impl Desk {
    pub fn new() -> Desk {
        Desk {
            segments: Segments::new(),
            plan: BookPlan::Whole(BookKind::Lossless),
            rule: Pile::Plain(AnyRule::Equal(Equal::new())),
        }
    }

    fn any_book(&self, kind: BookKind) -> AnyBook {
        match kind {
            BookKind::Lossless => AnyBook::Lossless(Lossless),
            BookKind::Segments => AnyBook::Segments(self.segments),
        }
    }

    // The book at hand.
    pub fn book(&self) -> Book {
        let (low, high, last) = match self.plan {
            BookPlan::Whole(last) => (NONE, NONE, last),
            BookPlan::Split(low, last) => (low, NONE, last),
            BookPlan::SplitTwice(low, high, last) => (low, high, last),
        };
        Split::new(
            low.below,
            self.any_book(low.kind),
            Split::new(high.below, self.any_book(high.kind), self.any_book(last)),
        )
    }
}

// A rule by these weights.
fn weighted<M: Method>(weights: &[u32]) -> Result<Weighted<M>, Refusal> {
    let mut rule = Weighted::new();
    rule.fill(weights)?;
    Ok(rule)
}

fn filled(kind: RuleKind, numbers: &[u32]) -> Result<AnyRule, Refusal> {
    match kind {
        RuleKind::Equal => {
            let [owners] = numbers else {
                return Err(Refusal::Unfit(0));
            };
            let mut rule = Equal::new();
            rule.fill(*owners)?;
            Ok(AnyRule::Equal(rule))
        }
        RuleKind::Running => Ok(AnyRule::Running(weighted(numbers)?)),
        RuleKind::Nearest => Ok(AnyRule::Nearest(weighted(numbers)?)),
    }
}

// The rule of a plan, or the refusal of its filling.
pub fn piled(plan: &RulePlan) -> Result<Pile, Refusal> {
    let rule = filled(plan.kind, plan.numbers.as_slice())?;
    Ok(match plan.derogations {
        Derogations::None => Pile::Plain(rule),
        Derogations::One(part) => Pile::Once(Derogation::new(part, rule)),
        Derogations::Two(top, next) => {
            Pile::Twice(Derogation::new(top, Derogation::new(next, rule)))
        }
    })
}
