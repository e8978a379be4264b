// Items of one kind that stand one after another in a list. A loop over short ones is inside a loop over all, so that it makes no
// call.
ghost use Rattle.std.specs.Prelude.{◌≡◌, ℕ, ◌<◌, ◌≤◌, ◌⊎◌, Some, None, IfSome};
ghost use Rattle.bencode.specs.Fault.{after_of};
ghost use Rattle.bencode.specs.Integers.{integer_at, after_positive};
ghost use Rattle.bencode.specs.Runs.{Run, TextAt, PositiveAt, ListOn};
ghost use Rattle.bencode.specs.Strings.{string_at, text_end};

use super::classes::Classes;
use super::integers::{Number, after_integer};
use super::positive_integers::{after_positive, plain_positive};
use super::short_strings::short_string;
use super::strings::after_string;

// The offset after items that stand one after another from an offset on, where `after` answers the offset after one.
// Stays: a loop, since each item tells where the next starts; the closures are what differs.
fn run<F: Fn(usize) -> Option<usize>>(from: usize, after: F) -> usize
    requires can { F.IsAlwaysCallable after }
    requires onward { (at end : ℕ) → F.post after at (Some end) → at < end }
    ensures { Run (λ at end. F.post after at (Some end)) from result }
{
    let mut at = from;
    while let Some(end) = after(at) {
        at = end;
    }
    at
}

// The offset after all items that stand one after another from an offset on: `pass` passes some of them with no call.
// Stays: a loop, for the same reason.
fn all_items<P: Fn(usize) -> usize, F: Fn(usize) -> Option<usize>>(
    from: usize,
    pass: P,
    after: F,
) -> usize
    requires can_pass { P.IsAlwaysCallable pass }
    requires can { F.IsAlwaysCallable after }
    requires passes { (at end : ℕ) → P.post pass at end → at ≤ end }
    requires onward { (at end : ℕ) → F.post after at (Some end) → at < end }
    ensures items { Run (λ at end. P.post pass at end ⊎ F.post after at (Some end)) from result }
    ensures last { F.post after result None }
{
    let mut at = from;
    loop {
        let last = pass(at);
        let Some(end) = after(last) else {
            return last;
        };
        at = end;
    }
}

// The offset after short strings that stand one after another from an offset on.
fn short_texts(s: &[u8], from: usize) -> usize
    ensures { Run (TextAt s.now) from result }
{
    run(from, |at| Some(short_string(s, at)?.end))
}

// The offset after all strings that stand one after another from an offset on.
pub fn texts(s: &[u8], from: usize) -> usize
    ensures { (Run (TextAt s.now) from result) × (after_of (text_end (string_at s.now result)) ≡ None) }
{
    all_items(from, |at| short_texts(s, at), |at| after_string(s, at))
}

// The offset after integers of few digits, from 1 to another, that stand one after another from an offset on.
fn plain_positives(s: &[u8], from: usize, high: u64, classes: &Classes) -> usize
    ensures { Run (PositiveAt high s.now) from result }
{
    run(from, |at| plain_positive(s, at, high, classes))
}

// The offset after all integers from 1 to another that stand one after another from an offset on.
pub fn positives(s: &[u8], from: usize, high: u64) -> usize
    ensures { (Run (PositiveAt high s.now) from result) × (after_positive high (integer_at s.now result) ≡ None) }
{
    let classes = Classes::new();
    all_items(
        from,
        |at| plain_positives(s, at, high, &classes),
        |at| after_positive(s, at, high),
    )
}

// The offset after strings or after integers from an offset of a list on, where a byte of a class stands; none says nothing.
pub fn quick_items(s: &[u8], at: usize, class: u8, classes: &Classes) -> Option<usize>
    ensures { IfSome result (λ end. (at < end) × ListOn s.now at end) }
{
    if class == b'0' {
        let end = short_texts(s, at);
        if at < end {
            return Some(end);
        }
        return after_string(s, at);
    }
    if class == b'i' {
        let end = plain_positives(s, at, Number::LARGEST, classes);
        if at < end {
            return Some(end);
        }
        return after_integer(s, at);
    }
    None
}
