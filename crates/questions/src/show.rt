//! Questions in words.
ghost use Rattle.std.specs.Prelude.{Some};
ghost use Rattle.std.specs.Fmt.{◌++?◌};
ghost use Rattle.questions.specs.Words.{plan_text, order_text, hold_text, setup_text, question_text, answer_text};

use crate::plan::{Case, HoldPlan, OrderPlan, Plan, Question, SetupPlan};
use std::fmt;

impl fmt::Display for Plan<'_> {
    ghost output = { λ plan. Some (plan_text plan) };

    fn fmt<W: fmt::Write>(&self, f: &mut fmt::Formatter<W>) -> fmt::Result {
        match self.lanes {
            1 => write!(f, "1 lane")?,
            lanes => write!(f, "{lanes} lanes")?,
        }
        for feed in self.feeds {
            write!(f, ", {feed}")?;
        }
        Ok(())
    }
}

impl fmt::Display for OrderPlan {
    ghost output = { λ order. Some (order_text order) };

    fn fmt<W: fmt::Write>(&self, f: &mut fmt::Formatter<W>) -> fmt::Result {
        match self {
            OrderPlan::FirstCome => write!(f, "first-come"),
            OrderPlan::ByDue => write!(f, "by-due"),
            OrderPlan::Part(a, b) => write!(f, "part {a} {b}"),
        }
    }
}

impl fmt::Display for HoldPlan {
    ghost output = { λ hold. Some (hold_text hold) };

    fn fmt<W: fmt::Write>(&self, f: &mut fmt::Formatter<W>) -> fmt::Result {
        match self {
            HoldPlan::Never => write!(f, "never"),
            HoldPlan::Always => write!(f, "always"),
            HoldPlan::Blocks(q) => write!(f, "blocks {q}"),
        }
    }
}

impl fmt::Display for SetupPlan<'_> {
    ghost output = { λ plan. Some (setup_text plan) };

    fn fmt<W: fmt::Write>(&self, f: &mut fmt::Formatter<W>) -> fmt::Result {
        let SetupPlan(roster, order, hold) = self;
        write!(f, "{roster}, under {order} and {hold}")
    }
}

impl fmt::Display for Question<'_> {
    ghost output = { λ question. Some (question_text question) };

    fn fmt<W: fmt::Write>(&self, f: &mut fmt::Formatter<W>) -> fmt::Result {
        match self {
            Question::Hyperperiod(plan) => write!(f, "hyperperiod of {plan}"),
            Question::Margin(plan) => write!(f, "margin of {plan}"),
            Question::Add(plan, feed) => {
                write!(f, "number of a feed with {feed}, added to {plan}")
            }
            Question::Point(order, spacing, release) => {
                write!(
                    f,
                    "point under {order} of a card released at {release}, with spacing {spacing}"
                )
            }
        }
    }
}

impl<Q: fmt::Display> fmt::Display for Case<Q> {
    ghost output = { λ case. Q.Display.output case.question ++? Some (answer_text case.answer) };

    fn fmt<W: fmt::Write>(&self, f: &mut fmt::Formatter<W>) -> fmt::Result {
        let question = &self.question;
        match self.answer {
            Ok(number) => write!(f, "{question}: {number}"),
            Err(refusal) => {
                let number = refusal.number();
                write!(f, "{question}: refused with {number}")
            }
        }
    }
}
