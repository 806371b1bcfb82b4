// Readers of single tokens.
ghost use Rattle.std.specs.Prelude.{◌≡◌, ℕ, suc, List, [], ◌∷◌, MatchResult};
ghost use Rattle.grammar.specs.Kinds as grammar;
ghost use Rattle.grammar.specs.Kinds.{same};
ghost use Rattle.parser.specs.Reads.{left, ahead, token_at, is_additive, is_multiplicative, Peeks, Picks, Needs};
ghost use Rattle.parser.specs.Readers.{Fewer, FewerIf, ReadsMark, ReadsMarks, ReadsName, ReadsRelation, ReadsZero};

use crate::refusals::Refusal;
use std::alloc::Global;
use syntax::token::{Additive, Kind, Mark, Multiplicative, Relation, Token};
use syntax::tree::Name;

#[derive(Drop)]
pub struct Reader<'a> {
    pub rest: &'a [Token],
    pub heap: Global,
}

// `Fewer` relates the tokens before and after a reader, and is the measure of loops and recursion: no type can say it.
impl Reader<'_> {
    pub fn next(&mut self) -> Result<Token, Refusal>
        ensures read { MatchResult result (λ t. left self.old ≡ t ∷ left self.new) (λ e. (left self.old ≡ []) × (e ≡ Refusal.TooSoon)) }
    {
        self.rest.split_off_first().copied().ok_or(Refusal::TooSoon)
    }

    // The readers below differ by their closures; a TryFrom for each of their kinds would be longer than its closure.

    // Reads the next token as what `form` makes of it, or leaves it where that is nothing.
    fn pick<T, F: FnOnce(Token) -> Option<T>>(&mut self, form: F) -> Option<T>
        requires { F.IsAlwaysCallable form }
        ensures picked { Picks (F.post form) (left self.old) result (left self.new) }
    {
        let (first, rest) = self.rest.split_first()?;
        let read = form(*first)?;
        self.rest = rest;
        Some(read)
    }

    // Reads the next token as what `form` makes of it, or refuses it where that is nothing.
    fn need<T, F: FnOnce(Token) -> Option<T>>(&mut self, form: F) -> Result<T, Refusal>
        requires { F.IsAlwaysCallable form }
        ensures needed { Needs (F.post form) (left self.old) result (left self.new) }
    {
        let token = self.next()?;
        form(token).ok_or(Refusal::Grammar(token.place))
    }

    // Reads this token if it comes next, and gives its place.
    pub fn accept(&mut self, mark: Mark) -> Option<u32>
        ensures read { (source : List ℕ) → Peeks (same (grammar.mark mark)) (token_at (grammar.mark mark)) (ahead source self.old) result (ahead source self.new) }
        ensures fewer { FewerIf self.old result self.new }
    {
        self.pick(|token| (token.kind == Kind::Mark(mark)).then_some(token.place))
    }

    // Reads an operator of this kind if it comes next.
    pub fn additive(&mut self) -> Option<(Additive, u32)>
        ensures read { (source : List ℕ) → Peeks is_additive (λ x. token_at (grammar.additive x.0) x.1) (ahead source self.old) result (ahead source self.new) }
        ensures fewer { FewerIf self.old result self.new }
    {
        self.pick(|token| match token.kind {
            Kind::Additive(operator) => Some((operator, token.place)),
            _ => None,
        })
    }

    pub fn multiplicative(&mut self) -> Option<(Multiplicative, u32)>
        ensures read { (source : List ℕ) → Peeks is_multiplicative (λ x. token_at (grammar.multiplicative x.0) x.1) (ahead source self.old) result (ahead source self.new) }
        ensures fewer { FewerIf self.old result self.new }
    {
        self.pick(|token| match token.kind {
            Kind::Multiplicative(operator) => Some((operator, token.place)),
            _ => None,
        })
    }

    pub fn expect(&mut self, mark: Mark) -> Result<u32, Refusal>
        ensures reads { ReadsMark self.old mark result self.new }
        ensures fewer { Fewer self.old result self.new }
    {
        self.need(|token| (token.kind == Kind::Mark(mark)).then_some(token.place))
    }

    pub fn expect_all(&mut self, marks: &[Mark]) -> Result<(), Refusal>
        ensures reads { ReadsMarks self.old marks.now result self.new }
        ensures fewer { Fewer self.old result self.new }
    {
        for mark in marks {
            self.expect(*mark)?;
        }
        Ok(())
    }

    pub fn relation(&mut self) -> Result<(Relation, u32), Refusal>
        ensures reads { ReadsRelation self.old result self.new }
        ensures fewer { Fewer self.old result self.new }
    {
        self.need(|token| match token.kind {
            Kind::Relation(relation) => Some((relation, token.place)),
            _ => None,
        })
    }

    pub fn name(&mut self) -> Result<Name, Refusal>
        ensures reads { ReadsName self.old result self.new }
        ensures fewer { Fewer self.old result self.new }
    {
        self.need(|token| match token.kind {
            Kind::Name => Some(token.into()),
            _ => None,
        })
    }

    pub fn zero(&mut self) -> Result<u32, Refusal>
        ensures reads { ReadsZero self.old result self.new }
        ensures fewer { Fewer self.old result self.new }
    {
        self.need(|token| (token.kind == Kind::Number(0)).then_some(token.place))
    }
}

// One level fewer to spare; the token at this place needs it.
pub fn deeper(spare: u32, place: u32) -> Result<u32, Refusal>
    ensures { MatchResult result (λ less. spare ≡ suc less) (λ e. (spare ≡ 0) × (e ≡ Refusal.Depth place)) }
{
    spare.checked_sub(1).ok_or(Refusal::Depth(place))
}
