// How deep a text nests.
ghost use Rattle.std.specs.Prelude.{◌≡◌, ◌-◌, ◌<◌, ◌≤◌, ◌^◌, false};
ghost use Rattle.kt_tokens.specs.Gauge.{begun, ends_span, gauge_behind, is_end_sign, is_long, is_opening, is_over, reach_apart, reach_behind, reach_ended, reach_forking, start_gauge, open_behind};
ghost use Rattle.kt_law.specs.declared.limits.TheConstants.{BRACKETS};

use crate::tokens::{Mark, Symbol};
use kt_law::{BRACKETS, EXPRESSION_TOKENS};

/// An argument of a fork or another outermost expression, which is being read.
#[derive(Clone, Copy, Debug, PartialEq, Eq)]
pub struct Span {
    /// Whether it is an argument or the length of a fork.
    pub in_fork: bool,
    /// The brackets that were open where it began.
    pub base: u32,
    /// Its tokens so far.
    pub count: u32,
}

/// Where a text stands.
#[derive(Clone, Copy, Debug, PartialEq, Eq)]
pub enum Reach {
    /// In no expression.
    Apart,
    /// Behind the word `fork`, before its bracket.
    Forking,
    Within(Span),
}

/// How deep a text nests behind some of its tokens. It goes by tokens alone.
#[derive(Clone, Copy, Debug, PartialEq, Eq)]
pub struct Gauge {
    /// Open brackets.
    pub brackets: u32,
    pub reach: Reach,
}

impl Gauge {
    /// Before the first token.
    pub fn new() -> Self
        ensures { result ≡ start_gauge }
    {
        Gauge {
            brackets: 0,
            reach: Reach::Apart,
        }
    }

    /// Whether this is one bracket or one token of an expression too many.
    #[tactic(auto, unfolding(crate::specs::Gauge::is_over))]
    pub fn is_over(&self, next: &Symbol<'_>) -> bool
        ensures { result ≡ is_over self.now next.now }
    {
        (is_opening(next) && self.brackets >= BRACKETS) || is_long(self.brackets, self.reach, next)
    }

    /// Goes on behind this token.
    #[tactic(auto, unfolding(crate::specs::Gauge::gauge_behind, crate::specs::Gauge::is_over))]
    pub fn pass(&mut self, next: &Symbol<'_>)
        requires fits { is_over self.old next.now ≡ false }
        requires bounded { self.old.brackets ≤ BRACKETS }
        ensures { self.new ≡ gauge_behind self.old next.now }
    {
        pass_reach(self.brackets, &mut self.reach, next);
        self.brackets = brackets_behind(self.brackets, next);
    }
}

/// Whether this is one token too many of an expression.
fn is_long(brackets: u32, reach: Reach, symbol: &Symbol<'_>) -> bool
    ensures { result ≡ is_long brackets reach symbol.now }
{
    match reach {
        Reach::Within(span) => {
            !ends_span(brackets, span, symbol) && span.count >= EXPRESSION_TOKENS
        }
        _ => false,
    }
}

/// Whether it is one of the three brackets that open.
fn is_opening(symbol: &Symbol<'_>) -> bool
    ensures { result ≡ is_opening symbol.now }
{
    matches!(
        symbol,
        Symbol::Mark(Mark::BraceOpen | Mark::ParenOpen | Mark::SquareOpen)
    )
}

/// How many brackets are open behind this token.
fn brackets_behind(brackets: u32, symbol: &Symbol<'_>) -> u32
    requires { brackets < 2 ^ 32 - 1 }
    ensures { result ≡ open_behind brackets symbol.now }
{
    match symbol {
        Symbol::Mark(Mark::BraceOpen) => brackets + 1,
        Symbol::Mark(Mark::ParenOpen) => brackets + 1,
        Symbol::Mark(Mark::SquareOpen) => brackets + 1,
        Symbol::Mark(Mark::BraceClose) => brackets.saturating_sub(1),
        Symbol::Mark(Mark::ParenClose) => brackets.saturating_sub(1),
        Symbol::Mark(Mark::SquareClose) => brackets.saturating_sub(1),
        _ => brackets,
    }
}

/// Whether the token, which does not belong to it, ends the expression.
fn ends_span(brackets: u32, span: Span, symbol: &Symbol<'_>) -> bool
    ensures { result ≡ ends_span brackets span symbol.now }
{
    brackets == span.base && is_end_sign(symbol)
}

/// Whether it is a sign that no expression holds outside its own brackets.
fn is_end_sign(symbol: &Symbol<'_>) -> bool
    ensures { result ≡ is_end_sign symbol.now }
{
    matches!(
        symbol,
        Symbol::Mark(
            Mark::BraceOpen
                | Mark::ParenClose
                | Mark::SquareClose
                | Mark::Comma
                | Mark::Semicolon
                | Mark::Dots
        )
    )
}

fn begun(in_fork: bool, base: u32) -> Reach
    ensures { result ≡ begun in_fork base }
{
    Reach::Within(Span {
        in_fork,
        base,
        count: 0,
    })
}

/// Most tokens are one more of an expression.
fn pass_reach(brackets: u32, reach: &mut Reach, symbol: &Symbol<'_>)
    requires room { brackets < 2 ^ 32 - 1 }
    requires fits { is_long brackets reach.old symbol.now ≡ false }
    ensures { reach.new ≡ reach_behind brackets reach.old symbol.now }
{
    match reach {
        Reach::Apart => *reach = reach_apart(brackets, symbol),
        Reach::Forking => *reach = reach_forking(brackets, symbol),
        Reach::Within(span) => {
            if ends_span(brackets, *span, symbol) {
                *reach = reach_ended(*span, symbol);
            } else {
                span.count += 1;
            }
        }
    }
}

fn reach_apart(brackets: u32, symbol: &Symbol<'_>) -> Reach
    requires { brackets < 2 ^ 32 - 1 }
    ensures { result ≡ reach_apart brackets symbol.now }
{
    match symbol {
        Symbol::Mark(Mark::Becomes) => begun(false, brackets),
        Symbol::Mark(Mark::SquareOpen) => begun(false, brackets + 1),
        Symbol::Mark(Mark::If) => begun(false, brackets),
        Symbol::Mark(Mark::In) => begun(false, brackets),
        Symbol::Mark(Mark::Fork) => Reach::Forking,
        _ => Reach::Apart,
    }
}

fn reach_forking(brackets: u32, symbol: &Symbol<'_>) -> Reach
    requires { brackets < 2 ^ 32 - 1 }
    ensures { result ≡ reach_forking brackets symbol.now }
{
    match symbol {
        Symbol::Mark(Mark::ParenOpen) => begun(true, brackets + 1),
        _ => Reach::Forking,
    }
}

/// Behind the sign that ended the expression another one begins, or none.
fn reach_ended(span: Span, symbol: &Symbol<'_>) -> Reach
    ensures { result ≡ reach_ended span symbol.now }
{
    match symbol {
        Symbol::Mark(Mark::Comma) => begun(span.in_fork, span.base),
        Symbol::Mark(Mark::Dots) => begun(span.in_fork, span.base),
        Symbol::Mark(Mark::Semicolon) => {
            if span.in_fork {
                begun(true, span.base)
            } else {
                Reach::Apart
            }
        }
        _ => Reach::Apart,
    }
}
