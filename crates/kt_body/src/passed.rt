// What is passed to a call.
ghost use Rattle.std.specs.Prelude.{◌≡◌, ◌≤◌, ◌<◌, ◌+◌, ◌^◌, IfOk, length};
ghost use Rattle.kt_law.specs.Accesses.{any_clash, clashes};
ghost use Rattle.kt_law.specs.declared.limits.TheConstants.{ACCESSES, INTS};
ghost use Rattle.kt_prog.specs.Forks.{nothing_given, with_access, with_int};
ghost use Rattle.kt_body.specs.Forking.{Comes, member_at, members_at};

use crate::lookups::Members;
use crate::ops::Early;
use arrayvec::ArrayVec;
use kt_law::{ACCESSES, Access, F, INTS, Mode, clash};
use std::marker::Model;

/// The ints and the accesses of a call so far.
#[derive(Drop)]
pub struct Passed {
    pub ints: ArrayVec<u64, INTS>,
    pub accesses: ArrayVec<Access, ACCESSES>,
}

impl Model for Passed {
    ghost use Rattle.kt_prog.specs.Forks.{Given};

    ghost Value = { Given };

    ghost view = { λ p. record { ints = p.ints.items; accesses = p.accesses.items } };
}

impl Passed {
    pub fn nothing() -> Passed
        ensures { result ≡ nothing_given }
    {
        Passed {
            ints: ArrayVec::new(),
            accesses: ArrayVec::new(),
        }
    }

    pub fn add_int(&mut self, n: u64)
        requires { length self.old.ints < INTS }
        ensures { self.new ≡ with_int self.old n }
    {
        self.ints.push(n);
    }

    pub fn add_access(&mut self, lo: u32, hi: u32, mode: Mode)
        requires { length self.old.accesses < ACCESSES }
        ensures { self.new ≡ with_access self.old lo hi mode }
    {
        self.accesses.push(Access { lo, hi, mode });
    }
}

/// Member `i` of a range. F3 where it has no such member.
pub fn member(range: &Members, i: u64, line: u32) -> Result<u32, Early>
    ensures value { Comes (member_at line range.now i) result }
    ensures small { IfOk result (λ o. o + 1 < 2 ^ 32) }
{
    let length = range.hi.saturating_sub(range.lo);
    if i >= u64::from(length) {
        return Err(Early::Fault(F::F3, line));
    }
    Ok(range.lo + i as u32)
}

/// The members from `a` up to `b`. F3 where there are no such members.
pub fn members(range: &Members, a: u64, b: u64, line: u32) -> Result<Members, Early>
    ensures { Comes (members_at line range.now a b) result }
{
    let length = range.hi.saturating_sub(range.lo);
    if a > b {
        return Err(Early::Fault(F::F3, line));
    }
    if b > u64::from(length) {
        return Err(Early::Fault(F::F3, line));
    }
    Ok(Members {
        lo: range.lo + a as u32,
        hi: range.lo + b as u32,
    })
}

fn clashes_with(access: &Access, others: &[Access]) -> bool
    ensures { result ≡ any_clash access.now others.now }
{
    for other in others {
        if clash(access, other) {
            return true;
        }
    }
    false
}

/// Whether two of the accesses clash.
pub fn clash_among(accesses: &[Access]) -> bool
    ensures { result ≡ clashes accesses.now }
{
    for i in 0..accesses.len() {
        if clashes_with(&accesses[i], &accesses[i + 1..]) {
            return true;
        }
    }
    false
}
