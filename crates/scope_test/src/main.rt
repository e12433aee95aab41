// Every mark from 0 to 31, with and without a scheduler, of names at the ends of both words, through a scope's
// calls and questions, and its bytes after each call.
#![tactic(auto)]

ghost use Rattle.std.specs.Prelude.{◌≤◌, ◌<◌};

use scope::{ByteScope, NameOutside, Scope, ScopingMode};
use std::io;

// By mark, as hoist.rs reads it: 1 unbound under RespectParent, 2 the same under a scheduler,
// 4 bound in this scope.
const SAYS: [u8; 32] = [
    3, 0, 7, 4, 3, 3, 7, 7, 3, 2, 7, 6, 3, 3, 7, 7, 0, 0, 4, 4, 3, 3, 7, 7, 2, 2, 6, 6, 3, 3, 7, 7,
];

fn digit(reply: Result<bool, NameOutside>) -> u32
    ensures { result ≤ 2 }
{
    match reply {
        Ok(yes) => u32::from(yes),
        Err(NameOutside) => 2,
    }
}

// Three digits: unbound under RespectParent, under AllowShadowing, bound in this scope.
fn asked(s: Scope, name: u32) -> u32
    ensures { result ≤ 222 }
{
    digit(s.is_var_unbound(name, ScopingMode::RespectParent)) * 100
        + digit(s.is_var_unbound(name, ScopingMode::AllowShadowing)) * 10
        + digit(s.has_same_scope_binding(name))
}

fn right(s: Scope, name: u32, want: u32) -> u32
    ensures { result ≤ 1 }
{
    u32::from(asked(s, name) == want)
}

fn right_answer(changed: Result<Scope, NameOutside>, outside: bool) -> u32
    ensures { result ≤ 1 }
{
    u32::from(outside == changed.is_err())
}

// A change of one name leaves its neighbour 3 alone.
fn right_changes(s: Scope, name: u32, want: u32) -> u32
    ensures { result ≤ 5 }
{
    let bound = s.bind_variable(name);
    let bound_scope = bound.unwrap_or(s);
    let added_scope = s.add_unbound_variable(name).unwrap_or(s);
    right(bound_scope, name, 11)
        + right(bound_scope, 3, want)
        + right_answer(bound, false)
        + right(added_scope, name, 110)
        + right(added_scope, 3, want)
}

// `_` is 2, and 129 is no name.
fn right_refusals(s: Scope, name: u32, want: u32) -> u32
    ensures { result ≤ 4 }
{
    let skipped_scope = s.bind_variable(2).unwrap_or(s);
    let refused = s.bind_variable(129);
    right(skipped_scope, 2, 0)
        + right_answer(refused, true)
        + right(refused.unwrap_or(s), name, want)
        + right(s, 129, 222)
}

// Of 128 names with this mark; `_` is 2.
fn bytes_of(mark: u8, scheduler: bool) -> ByteScope {
    ByteScope {
        marks: [mark; 128],
        underscore: 2,
        scheduler,
    }
}

fn mark_wanted(here: bool, changed: u8, mark: u8) -> u8 {
    if here { changed } else { mark }
}

// Are the bytes of the scope this mark everywhere, but at the name the changed one?
fn right_bytes(s: Scope, name: u32, changed: u8, mark: u8) -> bool {
    let bytes = ByteScope::from(s);
    let marks = bytes.marks;
    let mut same = true;
    for i in 0..128 {
        same = same & (marks[i] == mark_wanted(i as u32 + 1 == name, changed, mark));
    }
    same
}

// A mark above 31 is refused, and an empty scope stands in its place.
fn right_refusal(mark: u8) -> u32
    requires { mark < 32 }
    ensures { result ≤ 1 }
{
    let large = bytes_of(mark + 32, true);
    if Scope::try_from(large).is_ok() {
        return 0;
    }
    u32::from(right_bytes(Scope::converted(large), 0, 0, 0))
}

// The byte layout after each call, by its own sums, and as many bound names as it says.
fn right_layout(s: Scope, name: u32, mark: u8) -> u32
    requires { mark < 32 }
    ensures { result ≤ 5 }
{
    let bound_scope = s.bind_variable(name).unwrap_or(s);
    let added_scope = s.add_unbound_variable(name).unwrap_or(s);
    let inherited = mark - mark / 2 % 2 * 2;
    u32::from(right_bytes(s, 0, 0, mark))
        + u32::from(right_bytes(s.child(), 0, 0, inherited))
        + u32::from(right_bytes(bound_scope, name, mark / 16 * 16 + 3, mark))
        + u32::from(right_bytes(added_scope, name, mark / 16 * 16 + 4, mark))
        + u32::from(s.bound_count() == u32::from(mark % 2) * 128)
}

// How many of 17 answers are right about names with this mark.
fn right_of(mark: u8, scheduler: bool, name: u32, respects: u32, same: u32) -> u32
    requires { (mark < 32) × (respects < 2) × (same < 2) }
    ensures { result ≤ 17 }
{
    let s = Scope::converted(bytes_of(mark, scheduler));
    let inherited = respects * 100 + 10;
    let want = inherited + same;
    right(s, name, want)
        + right(s.child(), name, inherited)
        + right_changes(s, name, want)
        + right_refusals(s, name, want)
        + right_layout(s, name, mark)
        + right_refusal(mark)
}

fn right_names(mark: u8, scheduler: bool, respects: u32, same: u32) -> u32
    requires { (mark < 32) × (respects < 2) × (same < 2) }
    ensures { result ≤ 68 }
{
    right_of(mark, scheduler, 1, respects, same)
        + right_of(mark, scheduler, 64, respects, same)
        + right_of(mark, scheduler, 65, respects, same)
        + right_of(mark, scheduler, 128, respects, same)
}

fn right_at(mark: usize) -> u32
    requires { mark < 32 }
    ensures { result ≤ 136 }
{
    let says = SAYS[mark];
    let free = u32::from(says % 2);
    let scheduled = u32::from(says / 2 % 2);
    let same = u32::from(says / 4 % 2);
    right_names(mark as u8, false, free, same) + right_names(mark as u8, true, scheduled, same)
}

fn all_right() -> u32 {
    let mut total: u32 = 0;
    for mark in 0..32 {
        total += right_at(mark);
    }
    total
}

fn main(rt: HostRuntime) -> io::Result<()> {
    let count = all_right();
    println!(rt; "{count} of 4352 agree")
}
