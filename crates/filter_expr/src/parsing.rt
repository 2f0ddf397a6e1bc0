//! Filters, read off their tokens.

ghost use Rattle.std.specs.Prelude.{◌≡◌, ◌++◌, ◌<◌, ◌∷◌, false, true, List, Option, length, vec_len, OnOk};
ghost use Rattle.filter_expr.specs.declared.token.Mark.TheVariants.{And, Or};
ghost use Rattle.filter_expr.specs.declared.token.Token.TheVariants.{Marked};
ghost use Rattle.filter_expr.specs.declared.tree.Step.{Step};
ghost use Rattle.filter_expr.specs.declared.tree.Step.TheVariants.{Skip};
ghost use Rattle.filter_expr.specs.declared.tree.Written.{Written};
ghost use Rattle.filter_expr.specs.Grammar.{BeginsWith, GoesOn, IsAll, IsAny, IsFilter, IsLaterAll, IsLaterTerm, IsMarked, IsNotFirst, IsTerm, Parsed, StopsAll, StopsAny, StopsFilter, StopsLaterAll, StopsLaterTerm, StopsTerm};
ghost use Rattle.filter_expr.specs.Tokens.{tokens};
ghost use Rattle.filter_expr.specs.Trees.{Any, All, Term, all_steps, any_steps, term_steps, tree_steps};

use crate::FilterFault;
use crate::comparing::{bare_comparison, enclosed_comparison, open};
use crate::lexer::Lexer;
use crate::token::Mark;
use crate::tree::{Step, Written};
use cat_values::Text;
use std::alloc::Global;

/// How many parentheses may be open inside one another.
const DEPTH_LIMIT: usize = 64;

/// The steps of a filter, with its keys as they are written.
pub fn read_filter(alloc: Global, text: &Text) -> Result<Vec<Step<Written>>, FilterFault>
    ensures { Parsed (tokens text.now) (tokens text.now) result
        (λ steps xs _. (tree : Option (Any Written)) × IsFilter tree xs × (steps.items ≡ tree_steps tree)) StopsFilter }
{
    let mut lexer = Lexer::new(alloc, text)?;
    let mut steps = Vec::new(alloc);
    whole(alloc, &mut lexer, &mut steps)?;
    Ok(steps)
}

// Takes all tokens.
fn whole(
    alloc: Global,
    lexer: &mut Lexer,
    steps: &mut Vec<Step<Written>>,
) -> Result<(), FilterFault>
    ensures { Parsed lexer.old lexer.old result
        (λ _ xs _. (tree : Option (Any Written)) × IsFilter tree xs × (steps.new.items ≡ steps.old.items ++ tree_steps tree)) StopsFilter }
{
    if lexer.is_at_end() {
        return Ok(());
    }
    any(alloc, lexer, DEPTH_LIMIT, steps)?;
    if !lexer.is_at_end() {
        return Err(lexer.fault());
    }
    Ok(())
}

// Takes terms joined by `and`, joined by `or`.
#[cycle(parse)]
fn any(
    alloc: Global,
    lexer: &mut Lexer,
    depth: usize,
    steps: &mut Vec<Step<Written>>,
) -> Result<(), FilterFault>
    ensures parsed { Parsed lexer.old lexer.new result (λ _ xs ys. (any : Any Written) × IsAny depth any xs ys × (steps.new.items ≡ steps.old.items ++ any_steps any)) (StopsAny depth) }
    ensures end { OnOk result (IsNotFirst GoesOn lexer.new) }
{
    all(alloc, lexer, depth, steps)?;
    while lexer.is_at(Mark::Or) {
        later_all(alloc, lexer, depth, steps)?;
    }
    Ok(())
}

// Takes `or` and terms joined by `and`.
#[cycle(parse)]
fn later_all(
    alloc: Global,
    lexer: &mut Lexer,
    depth: usize,
    steps: &mut Vec<Step<Written>>,
) -> Result<(), FilterFault>
    requires { BeginsWith (Marked Or) lexer.old }
    ensures parsed { Parsed lexer.old lexer.new result (λ _ xs ys. (all : All Written) × IsLaterAll depth all xs ys × (steps.new.items ≡ steps.old.items ++ Skip true (length (all_steps all)) ∷ all_steps all)) (StopsLaterAll depth) }
    ensures end { OnOk result (IsNotFirst (IsMarked And) lexer.new) }
{
    lexer.expect(alloc, Mark::Or)?;
    let at = steps.len();
    steps.push(Step::Skip(true, 0))?;
    all(alloc, lexer, depth, steps)?;
    end_skip(steps, at, true);
    Ok(())
}

// Takes terms joined by `and`.
#[cycle(parse)]
fn all(
    alloc: Global,
    lexer: &mut Lexer,
    depth: usize,
    steps: &mut Vec<Step<Written>>,
) -> Result<(), FilterFault>
    ensures parsed { Parsed lexer.old lexer.new result (λ _ xs ys. (all : All Written) × IsAll depth all xs ys × (steps.new.items ≡ steps.old.items ++ all_steps all)) (StopsAll depth) }
    ensures end { OnOk result (IsNotFirst (IsMarked And) lexer.new) }
{
    term(alloc, lexer, depth, steps)?;
    while lexer.is_at(Mark::And) {
        later_term(alloc, lexer, depth, steps)?;
    }
    Ok(())
}

// Takes `and` and a term.
#[cycle(parse)]
fn later_term(
    alloc: Global,
    lexer: &mut Lexer,
    depth: usize,
    steps: &mut Vec<Step<Written>>,
) -> Result<(), FilterFault>
    requires { BeginsWith (Marked And) lexer.old }
    ensures { Parsed lexer.old lexer.new result (λ _ xs ys. (term : Term Written) × IsLaterTerm depth term xs ys × (steps.new.items ≡ steps.old.items ++ Skip false (length (term_steps term)) ∷ term_steps term)) (StopsLaterTerm depth) }
{
    lexer.expect(alloc, Mark::And)?;
    let at = steps.len();
    steps.push(Step::Skip(false, 0))?;
    term(alloc, lexer, depth, steps)?;
    end_skip(steps, at, false);
    Ok(())
}

// Takes a comparison, or a filter in parentheses.
#[cycle(parse)]
fn term(
    alloc: Global,
    lexer: &mut Lexer,
    depth: usize,
    steps: &mut Vec<Step<Written>>,
) -> Result<(), FilterFault>
    ensures { Parsed lexer.old lexer.new result (λ _ xs ys. (term : Term Written) × IsTerm depth term xs ys × (steps.new.items ≡ steps.old.items ++ term_steps term)) (StopsTerm depth) }
{
    if !lexer.is_at(Mark::Open) {
        let written = bare_comparison(alloc, lexer, depth)?;
        steps.push(Step::Check(written))?;
        return Ok(());
    }
    let inside = open(alloc, lexer, depth)?;
    if lexer.is_key_closed(alloc)? {
        let written = enclosed_comparison(alloc, lexer, depth)?;
        steps.push(Step::Check(written))?;
        return Ok(());
    }
    any(alloc, lexer, inside, steps)?;
    lexer.expect(alloc, Mark::Close)
}

// Sets how many steps a `Skip` leaves out: all that stand behind it.
fn end_skip(steps: &mut Vec<Step<Written>>, at: usize, on: bool)
    requires { at < vec_len steps.old }
    ensures { (front behind : List (Step Written)) (skip : Step Written) → steps.old.items ≡ front ++ skip ∷ behind → length front ≡ at
        → steps.new.items ≡ front ++ Skip on (length behind) ∷ behind }
{
    let count = steps.len() - at - 1;
    steps[at] = Step::Skip(on, count);
}
