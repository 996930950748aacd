// Every lost set of one and of two strips, of every accepted shape with n up to 9 at e = 3: rebuilt from sound survivors, and from survivors
// of which each element in turn was damaged. Prints each failure, and what came of all.
ghost use Rattle.std.specs.Prelude.{◌≡◌, length};

use crate::counts::{Counts, Seen};
use crate::lost_set::{E, LostSet};
use crate::trial::{Trial, fresh};
use std::io;
use std::num::Wrapping;

// The bytes of the largest stripe, n = 9 and r = 5; a larger one would be missed in the totals. Room of a fixed size, since the heap would
// have this program rest on what is assumed of C's allocator.
const LARGEST: usize = 177;

// What came of damage to each survivor in turn.
fn damage_each(rt: &impl Print, trial: &Trial, room: &mut [u8]) -> io::Result<Seen>
    requires { length trial.now.stripe.now ≡ length room.old }
{
    let lost = trial.lost;
    let mut seen = Seen::default();
    for p in 0..trial.places() {
        if lost.has_place(p) {
            continue;
        }
        let came = trial.damaged(p, room);
        let unused = trial.unused_parity(p);
        seen.count(came, unused);
        if came.fails(unused) {
            println!(rt; "failure {lost} damaged {p}")?;
        }
    }
    Ok(seen)
}

// Counts what came of a lost set of a stripe.
fn lose_set(
    rt: &impl Print,
    t: &mut Counts,
    lost: LostSet,
    stripe: &mut [u8],
    room: &mut [u8],
) -> io::Result<()>
    requires { length stripe.old ≡ length room.old }
{
    let made = fresh(lost, stripe);
    let trial = Trial::new(lost, stripe);
    let back = made && trial.comes_back(room);
    if !back {
        println!(rt; "failure {lost}")?;
    }
    let seen = damage_each(rt, &trial, room)?;
    t.count(back, seen);
    Ok(())
}

// What came of every lost set of that many strips of the shape, if it is accepted.
fn of_shape(rt: &impl Print, strips: usize, n: usize, r: usize, s: usize) -> io::Result<Counts> {
    let Ok((shape, size)) = shape::judge(n, r, s, E) else {
        return Ok(Counts::default());
    };
    if LARGEST < size {
        return Ok(Counts::default());
    }
    let mut t = Counts::of_shape();
    let mut stripe = [0; LARGEST];
    let mut room = [0; LARGEST];
    for a in 0..=n {
        for b in a..=n {
            let lost = LostSet { shape, a, b };
            if lost.count() == strips {
                lose_set(rt, &mut t, lost, &mut stripe[..size], &mut room[..size])?;
            }
        }
    }
    Ok(t)
}

// The lost sets of that many strips of every accepted shape of n.
fn of_strips(rt: &impl Print, strips: usize, n: usize) -> io::Result<Counts> {
    let mut t = Counts::default();
    for r in 0..34 {
        for s in 0..34 {
            t += of_shape(rt, strips, n, r, s)?;
        }
    }
    Ok(t)
}

// The lost sets of that many strips, by n and in all; how many failures there were.
fn by_lost(rt: &impl Print, strips: usize) -> io::Result<Wrapping<u64>> {
    let mut all = Counts::default();
    for n in 3..10 {
        let t = of_strips(rt, strips, n)?;
        println!(rt; "lost {strips} n {n} {t}")?;
        all += t;
    }
    println!(rt; "lost {strips} {all}")?;
    Ok(all.failures())
}

// What came of every lost set, and how many failures there were.
pub(crate) fn totals(rt: &impl Print) -> io::Result<()> {
    let failures = by_lost(rt, 1)? + by_lost(rt, 2)?;
    println!(rt; "failures {}", failures.0)
}
